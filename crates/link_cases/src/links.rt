//! Streams that are changed at random, read and written by the engines of `link_io`, and what a plain program makes of
//! the whole stream; readers and a writer of one link, step by step.

mod cases;
mod changing;
mod endless;
mod gate;
mod limited;
mod plain_frames;
mod plain_packets;
mod reading;
mod recorded;
mod stepping;
mod streams;
mod tally;
mod writing;

pub use cases::Links;
pub use gate::Kept;
