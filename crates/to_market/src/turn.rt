//! The result of accepting a new order.

use fix_types::AppBody;
use order_table::GivenToken;
use orders::Order;
use ouch_codec::Inbound;

/// The result of accepting a new order.
#[derive(Drop)]
pub struct AcceptedOrder {
    /// OrderID (37).
    pub order_id: u64,
    /// It waits for the market, which one report says.
    pub order: Order,
    /// Its token: the next one.
    pub given: GivenToken,
    /// The one report, that it is pending: in the list of bodies for its client.
    pub bodies: Vec<AppBody>,
    /// What the market is asked, at once or as soon as the port is up.
    pub asks: Vec<Inbound>,
}
