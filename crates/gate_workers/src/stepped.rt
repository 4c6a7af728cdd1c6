//! What a step of a shared writer did.

use crate::writer::WriterEnd;
use link_io::LinkFault;

/// What a step of a shared writer did.
#[derive(Drop)]
pub enum Stepped<W> {
    /// It took a list, and the link goes on.
    Taken,
    /// Nothing was queued, or memory ran out. The link goes on.
    Nothing,
    /// The link is over: how it ended, and its stream.
    Over(Result<WriterEnd, LinkFault>, W),
    /// No link is open.
    NoLink,
}
