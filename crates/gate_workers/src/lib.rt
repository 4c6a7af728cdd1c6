//! The loops of a gateway's threads: reading a link, writing a link, and ticking. Each is a call over any stream, clock
//! and handle to the core (`Gate`), and returns when its link, or the day, is over.
//!
//! A reader puts the event that its link is up, the events of its stream, and the event that the link is gone. A writer
//! writes its link's output until the link is closed or the writer is stopped, through a `SharedWriter`: a writer that
//! any thread may lock for a prompt write, such as the thread that has just stepped the core. The ticker makes time
//! pass.
#![tactic(auto)]

mod clock;
mod ending;
mod link;
mod reader;
mod shared_writer;
mod skips;
mod stepped;
mod ticks;
mod work;
mod writer;

pub use clock::Clock;
pub use ending::ends_link;
pub use reader::{client_reader, port_reader};
pub use shared_writer::SharedWriter;
pub use ticks::ticker;
pub use writer::{NewLink, WriterEnd, client_writer, port_writer};
