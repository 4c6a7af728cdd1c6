//! Packets, one by one.

use super::reader::{Counts, Front, UnitReader, Way};
use super::streams;
use case_lines::shown;
use soup_packets::{Packet, PacketFault, Packets, Payload};
use std::alloc::{AllocError, Global};
use wire_law::WholeWire;

/// What a call on bytes of packets answers.
pub fn answer(alloc: Global, call: &str, text: &str, bytes: &[u8]) -> Result<String, AllocError> {
    if let Some(answer) = streams::answer::<Packets>(alloc, call, bytes)? {
        return Ok(answer);
    }
    match call {
        "whole" => whole(alloc, bytes),
        "zeros" => zeros(alloc, text.parse::<usize>().unwrap_or(0)),
        "becomes" => becomes(alloc, bytes),
        _ => String::from_str(alloc, "no such call"),
    }
}

impl UnitReader for Packets {
    /// A heartbeat.
    fn unit() -> &'static [u8] {
        b"\x00\x01H"
    }

    fn begun(alloc: Global) -> Packets {
        Packets::new(alloc)
    }

    fn counts(&self) -> Counts {
        Counts {
            fed: self.fed(),
            copied: self.copied(),
            skipped: 0,
        }
    }

    fn bring(&mut self, alloc: Global, piece: &[u8]) -> Result<(), AllocError> {
        self.put(alloc, piece)
    }

    fn show_front(&mut self, text: &mut Vec<u8>) -> Result<Front, AllocError> {
        match self.front() {
            Ok(Some(view)) => {
                text.push(view.kind())?;
                text.push(b' ')?;
                text.extend_from_slice(view.payload())?;
                Ok(Front::Unit)
            }
            Ok(None) => Ok(Front::Nothing),
            Err(PacketFault::Empty) => Ok(Front::Over),
            Err(PacketFault::NoMemory) => Err(AllocError),
        }
    }

    fn go_on(&mut self) -> bool {
        self.pass()
    }

    fn take(
        &mut self,
        alloc: Global,
        way: Way,
        piece: &[u8],
        units: &mut Vec<u8>,
    ) -> Result<bool, AllocError> {
        let taken = match way {
            Way::Fed => feed_packets(alloc, self, piece, units),
            _ => lend_packets(alloc, self, piece, units),
        };
        match taken {
            Ok(()) => Ok(true),
            Err(PacketFault::Empty) => Ok(false),
            Err(PacketFault::NoMemory) => Err(AllocError),
        }
    }
}

/// Adds the bytes of each packet that a piece completes.
fn feed_packets(
    alloc: Global,
    packets: &mut Packets,
    piece: &[u8],
    units: &mut Vec<u8>,
) -> Result<(), PacketFault> {
    for packet in packets.feed(alloc, piece)? {
        packet.put(units)?;
    }
    Ok(())
}

/// Puts a piece, and adds the bytes of each packet that stands in front.
fn lend_packets(
    alloc: Global,
    packets: &mut Packets,
    piece: &[u8],
    units: &mut Vec<u8>,
) -> Result<(), PacketFault> {
    packets.put(alloc, piece)?;
    for _ in 0..=piece.len() {
        match packets.front()? {
            Some(view) => view.to_packet(alloc)?.put(units)?,
            None => return Ok(()),
        }
        packets.pass();
    }
    Ok(())
}

/// The type and the payload of the packet that bytes are, where it is written as the same bytes.
fn whole(alloc: Global, bytes: &[u8]) -> Result<String, AllocError> {
    match Packet::get(alloc, bytes)? {
        Some(packet) => written(alloc, &packet, bytes),
        None => String::from_str(alloc, "none"),
    }
}

/// The same of a packet that was read from these bytes.
fn written(alloc: Global, packet: &Packet, bytes: &[u8]) -> Result<String, AllocError> {
    let mut out = Vec::new(alloc);
    packet.put(&mut out)?;
    if out.as_slice() != bytes {
        return String::from_str(alloc, "written otherwise");
    }
    let kind = shown(alloc, &[packet.kind])?;
    let payload = shown(alloc, packet.payload.as_slice())?;
    format!(in alloc; "{kind} {payload}")
}

/// An `S` with so many zeros, written, and read again: its first three bytes, and how many zeros follow them.
fn zeros(alloc: Global, count: usize) -> Result<String, AllocError> {
    let payload = vec![in alloc; 0; count]?;
    if payload.len() > Payload::MOST {
        return String::from_str(alloc, "too long");
    }
    let bytes = of_payload(Payload::of(alloc, payload.as_slice())?).into_bytes()?;
    let (head, rest) = bytes.as_slice().split_at(bytes.len().min(3));
    if rest != payload.as_slice() || !has_payload(alloc, bytes.as_slice(), rest)? {
        return String::from_str(alloc, "otherwise");
    }
    let head = shown(alloc, head)?;
    format!(in alloc; "{head} and {} zeros", rest.len())
}

/// Whether bytes are an `S` with this payload.
fn has_payload(alloc: Global, bytes: &[u8], payload: &[u8]) -> Result<bool, AllocError> {
    match Packet::get(alloc, bytes)? {
        Some(packet) => Ok(packet.kind == b'S' && packet.payload.as_slice() == payload),
        None => Ok(false),
    }
}

/// The bytes that an `S` with this payload becomes, be there room for them in its payload's memory or not.
fn becomes(alloc: Global, payload: &[u8]) -> Result<String, AllocError> {
    if payload.len() > Payload::MOST {
        return String::from_str(alloc, "too long");
    }
    let mut roomy = Vec::with_capacity(alloc, 16)?;
    roomy.extend_from_slice(payload)?;
    let roomy = of_payload(Payload::from_vec(roomy)).into_bytes()?;
    let full = of_payload(Payload::of(alloc, payload)?).into_bytes()?;
    if roomy.as_slice() == full.as_slice() {
        shown(alloc, full.as_slice())
    } else {
        String::from_str(alloc, "otherwise")
    }
}

/// An `S` with a payload.
fn of_payload(payload: Payload) -> Packet {
    Packet {
        kind: b'S',
        payload,
    }
}
