//! The packets that a market sends.
//!
//! Source: SoupBinTCP 3.00, "Packets Sent by the Server".

ghost use Rattle.std.specs.Prelude.{◌≡◌, ◌++◌, [], IfOk, Ok};
ghost use Rattle.script_lines.specs.ouch_codec.Decoding.{Decodes};

use ouch_codec::Outbound;
use script_lines::{LineFault, payload_of};
use soup_packets::{Packet, Payload};
use std::alloc::{AllocError, Global};

/// Login Accepted: the session, and the number of the next sequenced packet in digits, each padded left with spaces.
///
/// Source: SoupBinTCP 3.00, "Login Accepted Packet".
pub fn login_accepted(
    alloc: Global,
    session: &[u8; 10],
    number: &[u8; 20],
) -> Result<Packet, AllocError>
    ensures { IfOk result (λ packet. (packet.kind ≡ 65) × (packet.payload ≡ session.now ++ number.now)) }
{
    let mut fields = Vec::with_capacity(alloc, 30)?;
    fields.extend_from_slice(session)?;
    fields.extend_from_slice(number)?;
    Ok(Packet {
        kind: b'A',
        payload: Payload::from_vec(fields),
    })
}

/// End of Session. Takes no memory.
///
/// Source: SoupBinTCP 3.00, "End of Session Packet".
pub fn end_of_session(alloc: Global) -> Packet
    ensures { (result.kind ≡ 90) × (result.payload ≡ []) }
{
    Packet {
        kind: b'Z',
        payload: Payload::empty(alloc),
    }
}

/// Sequenced data: a message of the market. `NotUnderstood` where it doesn't fit into a packet; each message has 80
/// bytes at most.
///
/// Source: SoupBinTCP 3.00, "Sequenced Data Packet".
pub fn sequenced(alloc: Global, message: &Outbound) -> Result<Packet, LineFault>
    ensures { IfOk result (λ packet. (packet.kind ≡ 83) × Decodes packet.payload (Ok message.now)) }
{
    let bytes = payload_of(alloc, message)?;
    if bytes.len() > Payload::MOST {
        return Err(LineFault::NotUnderstood);
    }
    Ok(Packet {
        kind: b'S',
        payload: Payload::from_vec(bytes),
    })
}
