//! A message that a port was asked.

use ouch_codec::Inbound;

/// A message that a port was asked.
#[derive(Clone, Copy)]
pub struct AskedMessage {
    /// OrderID (37) of its order.
    pub order_id: u64,
    /// What the port was sent, or is to be sent.
    pub message: Inbound,
    /// The number of its port, from 1.
    pub port: u16,
    /// Whether the market answered it.
    pub answer: Answer,
}

/// Whether the market answered a message.
#[derive(Clone, Copy)]
pub enum Answer {
    /// Not yet.
    Awaited,
    /// Since the messages were settled: if that is undone, it is awaited again.
    Given,
    /// Before they were settled: the message is no more, and keeps its place until that is freed.
    Settled,
}
