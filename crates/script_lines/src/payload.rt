//! The market's messages as bytes.

ghost use Rattle.std.specs.Prelude.{◌≡◌, IfOk, Ok};
ghost use Rattle.ouch_codec.specs.Decoding.{Decodes};

use ouch_codec::Outbound;
use std::alloc::{AllocError, Global};
use wire_law::FixedWire;

/// The bytes of a message from the market, which `ouch_codec::decode` reads as this message. One growth.
///
/// Source: OUCH 4.2, "Outbound Messages".
pub fn payload_of(alloc: Global, message: &Outbound) -> Result<Vec<u8>, AllocError>
    ensures { IfOk result (λ payload. Decodes payload.items (Ok message.now)) }
{
    match message {
        Outbound::SystemEvent(message) => written(alloc, message),
        Outbound::Accepted(message) => written(alloc, message),
        Outbound::Replaced(message) => written(alloc, message),
        Outbound::Canceled(message) => written(alloc, message),
        Outbound::Executed(message) => written(alloc, message),
        Outbound::Broken(message) => written(alloc, message),
        Outbound::Rejected(message) => written(alloc, message),
        Outbound::CancelPending(message) => written(alloc, message),
        Outbound::CancelReject(message) => written(alloc, message),
        Outbound::Skipped => Vec::from_slice(alloc, b"T"),
    }
}

/// The bytes of a message.
fn written<M: FixedWire>(alloc: Global, message: &M) -> Result<Vec<u8>, AllocError>
    ensures { IfOk result (λ payload. payload.items ≡ M.bytes message.now) }
{
    let mut payload = vec![in alloc; 0; M::LEN]?;
    message.put(payload.as_mut_slice());
    Ok(payload)
}
