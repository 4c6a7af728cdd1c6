//! The ends of queues that aren't handed out yet.

use gate_events::{Event, Output, Recipient, Source};
use rtrb::{Consumer, Producer};

/// The end by which a source's events are put.
#[derive(Drop)]
pub struct EventRing {
    pub source: Source,
    pub producer: Producer<Event>,
}

/// The end by which a recipient's output is taken.
#[derive(Drop)]
pub struct OutputRing {
    pub to: Recipient,
    pub consumer: Consumer<Output>,
}
