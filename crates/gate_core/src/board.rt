//! The state of clients and ports between events, in numbers.

use soup_session::PortState;

/// The state of a client.
#[derive(Clone, Copy, Debug, PartialEq, Eq, Drop)]
pub struct ClientRow {
    /// Its current link, by the number that it came up with; `None` where it has none.
    pub link: Option<u64>,
    /// Whether it is logged on.
    pub is_logged_on: bool,
    /// The number that is expected of its next frame (MsgSeqNum, 34).
    pub next_in: u64,
    /// The number of the next frame to it.
    pub next_out: u64,
    /// How many of its orders aren't closed, by its own reports (OrdStatus, 39).
    pub open_orders: usize,
    /// What was executed of all of its orders, in shares (CumQty, 14, of each in sum): without the trades that were
    /// broken.
    pub executed_shares: u128,
    /// What those shares were traded for: shares times price of the trades that stand, in 1/10,000.
    pub value: u128,
}

/// The state of a port.
#[derive(Clone, Copy, Debug, PartialEq, Eq, Drop)]
pub struct PortRow {
    /// Its current link, by the number that it came up with; `None` where it has none.
    pub link: Option<u64>,
    /// The state of its session; if it is faulted, why.
    pub state: PortState,
    /// The number of the next payload that is wanted of the market.
    pub next: u64,
}

/// The state of all clients and ports after this many events, in the order of the settings.
#[derive(Drop)]
pub struct Board {
    /// How many events were stepped.
    pub events: u64,
    pub clients: Vec<ClientRow>,
    pub ports: Vec<PortRow>,
}
