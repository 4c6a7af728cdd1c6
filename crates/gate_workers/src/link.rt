//! The link that a shared writer writes.

use link_io::BatchWriter;
use std::snapshot::Snapshot;

/// The link that is being written.
#[derive(Drop)]
pub struct Link<W, G> {
    pub writer: BatchWriter,
    pub stream: W,
    /// The gate and the stream as the link found them: for contracts alone.
    pub gate_then: Snapshot<G>,
    pub stream_then: Snapshot<W>,
}
