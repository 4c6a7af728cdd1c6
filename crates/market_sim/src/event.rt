//! What comes to the market.

use market_law::Choice;
use soup_packets::Packet;

/// What comes to the market: a link is up, brings a packet, or is gone; or the market does something by itself.
#[derive(Debug, Drop)]
pub enum SimEvent {
    /// A link is up, in place of any before it.
    Up,
    /// It brought a packet; what the market chooses where its answer is free.
    Packet(Packet, Choice),
    /// The market does this by itself.
    Act(Choice),
    /// The link is gone.
    Gone,
}
