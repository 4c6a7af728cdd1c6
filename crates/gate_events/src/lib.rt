//! Events, which come to the gateway's core, and batches, what it produces for each, as values. The core steps them;
//! queues, links and the journal carry them, and know nothing of sessions.
//!
//! What one event tells a client or a port is a list that has one item most of the time (`ShortList`): that item stands
//! in the list itself, and takes no memory of its own.
#![tactic(auto)]

mod batch;
mod client_frame;
mod closing;
mod event;
mod number;
mod output;
mod parts;
mod short_list;
mod source;
mod telling;

pub use batch::{Batch, LinkOut};
pub use client_frame::ClientFrame;
pub use closing::closes_link;
pub use event::Event;
pub use number::{ClientNumber, PortNumber};
pub use output::Output;
pub use short_list::ShortList;
pub use source::{Recipient, Source};
pub use telling::output_lists;
