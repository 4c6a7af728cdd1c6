//! The message that a payload is.
//!
//! Source: OUCH 4.2, "Inbound Messages".

ghost use Rattle.market_sim.specs.Sim.{IsReadAs};

use ouch_codec::{Cancel, EnterOrder, Inbound, Replace};
use wire_law::FixedWire;

/// The message that a payload is, or `None` where it is none. Takes no memory.
pub fn inbound_of(payload: &[u8]) -> Option<Inbound>
    ensures { IsReadAs payload.now result }
{
    if let Some(order) = EnterOrder::get(payload) {
        return Some(Inbound::Enter(order));
    }
    if let Some(request) = Replace::get(payload) {
        return Some(Inbound::Replace(request));
    }
    match Cancel::get(payload) {
        Some(request) => Some(Inbound::Cancel(request)),
        None => None,
    }
}
