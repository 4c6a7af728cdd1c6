//! Links over TCP: an acceptor for a client's links, a connector for a port's, and the clocks of their threads.
//!
//! No contract says what a socket does; days of a gateway that runs show it, and `link_cases` of the clock.
#![tactic(auto)]

mod acceptor;
mod clock;
mod connector;
mod stream;
mod turns;

pub use acceptor::Acceptor;
pub use clock::SystemClock;
pub use connector::{Connector, connected};
pub use stream::{SocketCloser, SocketReader, SocketWriter, link_of};
