//! Serves lines: each client's and each port's links, one after the other, all lines at once, while time passes. The
//! reader and the writer of a link run in a thread each, over any opener, handle to the core, shared writer and clock.
#![tactic(auto)]

mod halves;
mod job;
mod line;
mod opener;
mod reading;
mod serving;
mod slot;
mod splitting;
mod ticks;
mod writer_worker;

pub use line::{Line, Worker};
pub use opener::{Closer, LinkEnd, Opened, Opener};
pub use serving::{ServeFault, serve};
pub use ticks::Ticks;
pub use writer_worker::WriterWorker;
