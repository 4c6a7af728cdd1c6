//! Messages towards the market.

mod cancel;
mod enter_order;
mod replace;

ghost use Rattle.std.specs.Prelude.{◌≡◌, length};
ghost use Rattle.ouch_codec.specs.Inbound.{inbound_bytes};

pub use cancel::Cancel;
pub use enter_order::EnterOrder;
pub use replace::Replace;
use wire_law::FixedWire;

/// A message towards the market. (Inbound is OUCH's own word, seen from the market.)
///
/// Source: OUCH 4.2, "Inbound Messages".
#[derive(Clone, Copy, Debug, PartialEq, Eq)]
pub enum Inbound {
    /// A new order.
    Enter(EnterOrder),
    /// A request to replace an order by one with other terms.
    Replace(Replace),
    /// A request to cancel what is open of an order, or a part of it.
    Cancel(Cancel),
}

impl Inbound {
    /// How many bytes the message takes on the wire.
    pub fn len(&self) -> usize
        ensures { result ≡ length (inbound_bytes self.now) }
    {
        match self {
            Inbound::Enter(_) => EnterOrder::LEN,
            Inbound::Replace(_) => Replace::LEN,
            Inbound::Cancel(_) => Cancel::LEN,
        }
    }

    /// Writes the message over `out`, which has just as many bytes. Takes no memory.
    pub fn put(&self, out: &mut [u8])
        requires { length out.old ≡ length (inbound_bytes self.now) }
        ensures { out.new ≡ inbound_bytes self.now }
    {
        match self {
            Inbound::Enter(enter_order) => enter_order.put(out),
            Inbound::Replace(replace) => replace.put(out),
            Inbound::Cancel(cancel) => cancel.put(out),
        }
    }
}
