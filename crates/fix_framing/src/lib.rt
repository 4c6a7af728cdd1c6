//! FIX messages out of a stream of bytes, and messages as bytes again.
//!
//! A stream comes in pieces of any size. Each frame in it is given once, as its fields, whatever lies between frames
//! and however the stream was cut; bytes that can be no part of a frame are skipped and counted.
//!
//! Source: FIX 4.4 Volume 1, "Message Format"; Volume 2, "Standard Message Header", "Standard Message Trailer",
//! "CheckSum Calculation".
#![tactic(auto)]

mod frame_fault;
mod framer;
mod place;
mod scan;
mod start;
mod writing;

pub use frame_fault::FrameFault;
pub use framer::Framer;
pub use place::front_body;
pub use writing::{frame, frame_of_text};
