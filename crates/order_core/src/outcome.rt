//! What a step gives.

use fix_types::AppBody;
use ouch_codec::Inbound;

/// What a client's message gives: bodies for the client, and messages to its port, in order.
#[derive(Drop)]
pub struct CoreOut {
    /// For the client that sent the message.
    pub bodies: Vec<AppBody>,
    /// For its port; empty unless the port is up.
    pub sends: Vec<Inbound>,
}

/// What a payload of the market gives: bodies for one client at most, in order.
#[derive(Drop)]
pub struct MarketOut {
    /// Whom the bodies are for; `None` where there are none.
    pub client: Option<u16>,
    pub bodies: Vec<AppBody>,
}
