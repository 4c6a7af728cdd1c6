//! The packets of the server.
//!
//! Source: SoupBinTCP 3.00, "Packets Sent by the Server".

ghost use Rattle.std.specs.Prelude.{◌≡◌, IfOk};
ghost use Rattle.market_sim.specs.Sim as spec;

use crate::numbers::padded_number;
use soup_packets::{Packet, Payload};
use std::alloc::{AllocError, Global};

/// The session.
pub const SESSION: &[u8; 10] = b"SESSION001";

/// Login Accepted: the session, and the number of the next sequenced packet. One growth.
pub fn accepts_login(alloc: Global, number: u64) -> Result<Packet, AllocError>
    ensures { IfOk result (λ packet. packet ≡ spec.accepts_login number) }
{
    let mut fields = Vec::with_capacity(alloc, 30)?;
    fields.extend_from_slice(SESSION)?;
    fields.extend_from_slice(&padded_number(number))?;
    Ok(Packet {
        kind: b'A',
        payload: Payload::from_vec(fields),
    })
}

/// Login Rejected: the session isn't there, or has no such number. One growth.
pub fn rejects_login(alloc: Global) -> Result<Packet, AllocError>
    ensures { IfOk result (λ packet. packet ≡ spec.rejects_login) }
{
    Ok(Packet {
        kind: b'J',
        payload: Payload::of(alloc, b"S")?,
    })
}

/// Sequenced data. Takes no memory.
pub fn sequenced_packet(payload: Payload) -> Packet
    ensures { result ≡ spec.sequenced_packet payload }
{
    Packet {
        kind: b'S',
        payload,
    }
}

/// A heartbeat of the server's. Takes no memory.
pub fn server_heartbeat(alloc: Global) -> Packet
    ensures { result ≡ spec.server_heartbeat }
{
    Packet {
        kind: b'H',
        payload: Payload::empty(alloc),
    }
}
