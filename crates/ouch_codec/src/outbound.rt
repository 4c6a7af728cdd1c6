//! Messages from the market, and which of them some bytes are.

mod accepted;
mod broken;
mod cancel_pending;
mod cancel_reject;
mod canceled;
mod executed;
mod rejected;
mod replaced;
mod system_event;

ghost use Rattle.std.specs.Prelude.{◌≡◌, ℕ, List, Result, IfOk, IfErr, MatchOption, true};
ghost use Rattle.std.specs.List.{list_all};
ghost use Rattle.ouch_codec.specs.Decoding.{Decodes, RefusesAs};
ghost use Rattle.ouch_codec.specs.Tokens.{order_token};
ghost use Rattle.ouch_codec.specs.Values.{decoded, is_byte};

use crate::refusal::DecodeRefusal;
pub use accepted::Accepted;
pub use broken::Broken;
pub use cancel_pending::CancelPending;
pub use cancel_reject::CancelReject;
pub use canceled::Canceled;
pub use executed::Executed;
pub use rejected::Rejected;
pub use replaced::Replaced;
pub use system_event::SystemEvent;
use wire_law::FixedWire;

/// A message from the market. (Outbound is OUCH's own word, seen from the market.)
///
/// Source: OUCH 4.2, "Outbound Messages".
#[derive(Clone, Copy, Debug, PartialEq, Eq)]
pub enum Outbound {
    /// Something happened that is no order's own.
    SystemEvent(SystemEvent),
    /// The market took a new order.
    Accepted(Accepted),
    /// An order goes by another token from now on, with other terms.
    Replaced(Replaced),
    /// Shares of an order left the book without a trade.
    Canceled(Canceled),
    /// Shares of an order were traded.
    Executed(Executed),
    /// A trade of an order is taken back.
    Broken(Broken),
    /// The market didn't take a new order, or a replacement.
    Rejected(Rejected),
    /// The market will cancel an order once it may.
    CancelPending(CancelPending),
    /// The market doesn't cancel an order.
    CancelReject(CancelReject),
    /// A Priority Update, `T`, whatever its length: it says nothing that the gateway reports.
    Skipped,
}

impl Outbound {
    /// The token that it is on, which a System Event and a Priority Update have not. Of a Replaced it is the previous
    /// one.
    pub fn order_token(&self) -> Option<&[u8; 14]>
        ensures { MatchOption result (order_token self.now ≡ None) (λ token. order_token self.now ≡ Some token.now) }
    {
        match self {
            Outbound::Accepted(message) => Some(&message.token),
            Outbound::Replaced(message) => Some(&message.previous_token),
            Outbound::Canceled(message) => Some(&message.token),
            Outbound::Executed(message) => Some(&message.token),
            Outbound::Broken(message) => Some(&message.token),
            Outbound::Rejected(message) => Some(&message.token),
            Outbound::CancelPending(message) => Some(&message.token),
            Outbound::CancelReject(message) => Some(&message.token),
            Outbound::SystemEvent(_) | Outbound::Skipped => None,
        }
    }
}

/// The message that these bytes from the market are. Takes no memory.
///
/// Refused, the first that holds: `Type` (the first byte is the type of no message above), `Length` (not as many
/// bytes as a message of this type has, or none at all), `Field` (a field is not in its set).
///
/// Source: OUCH 4.2, "Outbound Messages".
pub fn decode(payload: &[u8]) -> Result<Outbound, DecodeRefusal>
    ensures { result ≡ decoded payload.now }
{
    decode_any(payload)
}

/// The message that is written as these bytes.
fn decode_any(payload: &[u8]) -> Result<Outbound, DecodeRefusal>
    ensures { Decodes payload.now result }
{
    match payload {
        [] => Err(DecodeRefusal::Length),
        [b'S', ..] => read(payload, Outbound::SystemEvent),
        [b'A', ..] => read(payload, Outbound::Accepted),
        [b'U', ..] => read(payload, Outbound::Replaced),
        [b'C', ..] => read(payload, Outbound::Canceled),
        [b'E', ..] => read(payload, Outbound::Executed),
        [b'B', ..] => read(payload, Outbound::Broken),
        [b'J', ..] => read(payload, Outbound::Rejected),
        [b'P', ..] => read(payload, Outbound::CancelPending),
        [b'I', ..] => read(payload, Outbound::CancelReject),
        [b'T', ..] => Ok(Outbound::Skipped),
        _ => Err(DecodeRefusal::Type),
    }
}

/// At most one answer of `decode` is right of any bytes: a written message is decoded as itself. It does nothing: its
/// contract is the law, for callers to cite.
pub fn one_answer()
    ensures { (payload : List ℕ) (a b : Result Outbound DecodeRefusal) → Decodes payload a → Decodes payload b → a ≡ b }
{}

/// What the law reads of bytes is what `decode` answers of them. It does nothing: its contract is the law, for
/// callers to cite.
pub fn one_reading()
    ensures { (payload : List ℕ) → list_all is_byte payload ≡ true → Decodes payload (decoded payload) }
{}

/// The message that bytes of its type are, as one from the market.
///
/// It stays out of its caller, so that no call of `decode` clears places of messages of other types.
#[inline(never)]
fn read<M: FixedWire, F: FnOnce(M) -> Outbound>(
    payload: &[u8],
    outbound: F,
) -> Result<Outbound, DecodeRefusal>
    requires { F.IsAlwaysCallable outbound }
    ensures same { IfOk result (λ made. (message : M)
        × (M.bytes message ≡ payload.now) × F.post outbound message made) }
    ensures refused { IfErr result (RefusesAs M.LEN M.is_spelled payload.now) }
{
    if payload.len() != M::LEN {
        return Err(DecodeRefusal::Length);
    }
    Ok(outbound(M::get(payload).ok_or(DecodeRefusal::Field)?))
}
