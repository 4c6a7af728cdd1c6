//! Standard error behind a bounded queue: who tells a line never waits for whoever reads standard error. One thread
//! writes the lines, in the order in which they came. Where the queue is full a line is dropped and counted, and the
//! next one that gets through says how many were.
#![tactic(auto)]

mod handle;
mod line;
mod queue;
mod sender;
mod writer;

pub use handle::Queued;
pub use line::Line;
pub use queue::LineQueue;
pub use sender::LineSender;
pub use writer::start_writer;
