//! What a stream is read by, in pieces: a buffer of the bytes that its reader still needs, and its lines.
//!
//! A reader takes a stream in pieces and drops what it has read in front. Each byte is written once when it comes, and
//! what is left is moved only if it isn't longer than all that was dropped since the last move: so however the stream
//! is cut, at most twice as many bytes are written as came (`StreamBuffer`).
//!
//! Lines are cut at each newline. What stands behind the last newline is a line too, be it empty. A read that was
//! interrupted is made again; one that fails, and a lack of memory, are answered (`Lines`).
#![tactic(auto)]

mod lines;
mod piece;
mod stream_buffer;
mod stream_fault;

pub use lines::Lines;
pub use stream_buffer::StreamBuffer;
pub use stream_fault::StreamFault;
