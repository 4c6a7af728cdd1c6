//! Reader and writer of one link, without threads: bytes to events, output to bytes. Each goes on by steps, over any
//! stream and any handle to the core (`Gate`), and waits for nothing but these.
//!
//! Source: FIX 4.4 Volume 1, "Message Format"; SoupBinTCP 3.00, "Logical Packets".
#![tactic(auto)]

mod gate;
mod limit;
mod link_fault;
mod next;
mod piece;
mod progress;
mod reader;
mod sent_notes;
mod streams;
mod writer;

pub use gate::Gate;
pub use link_fault::LinkFault;
pub use progress::Progress;
pub use reader::{ClientReader, PortReader, Reader};
pub use streams::{Prompt, Sink, Source};
pub use writer::{BatchWriter, Wrote};
