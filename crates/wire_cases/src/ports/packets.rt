//! Packets, made and shown.

use soup_packets::{Packet, Payload};
use std::alloc::{AllocError, Global};
use wire_law::WholeWire;

/// A packet of a type and these bytes; none where they are too many.
pub fn packet_of(alloc: Global, kind: u8, bytes: &[u8]) -> Result<Option<Packet>, AllocError> {
    if bytes.len() > Payload::MOST {
        return Ok(None);
    }
    Ok(Some(Packet {
        kind,
        payload: Payload::of(alloc, bytes)?,
    }))
}

/// Shows the bytes of a packet, in a line of their own.
pub fn show_packet(packet: &Packet, shown: &mut Vec<u8>) -> Result<(), AllocError> {
    packet.put(shown)?;
    shown.push(b'\n')?;
    Ok(())
}

/// So many copies of a byte.
pub fn copies_of(alloc: Global, byte: u8, count: u64) -> Result<Vec<u8>, AllocError> {
    let mut bytes = Vec::new(alloc);
    for _ in 0..count {
        bytes.push(byte)?;
    }
    Ok(bytes)
}
