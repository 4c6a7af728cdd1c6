//! The whole packets at the front of some bytes.

ghost use Rattle.std.specs.Prelude.{◌≡◌, ◌≤◌, ◌++◌, length, drop, IfOk, IsTrue, ◌↔◌};
ghost use Rattle.soup_packets.specs.Stream.{packets_written, Stops, BeginsEmpty};
ghost use Rattle.soup_packets.specs.Heads.{IsHead};

use crate::packet::{Packet, packet_of, size_of};
use std::alloc::{AllocError, Global};

/// What stands in front of some bytes.
#[derive(Clone, Copy, PartialEq, Eq)]
pub enum Head {
    /// Less than a whole packet.
    Partial,
    /// A length of 0.
    Empty,
    /// A packet of this many bytes.
    Whole(usize),
}

/// What stands in front of these bytes.
pub fn head_of(bytes: &[u8]) -> Head
    ensures { IsHead bytes.now result }
{
    if bytes.len() < 2 {
        return Head::Partial;
    }
    let size = size_of(bytes[0], bytes[1]);
    if size == 0 {
        Head::Empty
    } else if bytes.len() - 2 < size {
        Head::Partial
    } else {
        Head::Whole(size + 2)
    }
}

/// Whether a length of 0 stands in front of these bytes.
pub fn begins_empty(bytes: &[u8]) -> bool
    ensures { IsTrue result ↔ BeginsEmpty bytes.now }
{
    bytes.len() >= 2 && bytes[0] == 0 && bytes[1] == 0
}

/// The packets in front of some bytes, how many bytes they take, and whether a length of 0 follows them.
#[derive(Drop)]
pub struct Cut {
    pub packets: Vec<Packet>,
    pub used: usize,
    pub is_empty: bool,
}

/// All packets in front of these bytes.
pub fn cut_off(alloc: Global, bytes: &[u8]) -> Result<Cut, AllocError>
    ensures whole { IfOk result (λ cut. bytes.now ≡ packets_written cut.packets.items ++ drop cut.used bytes.now) }
    ensures used { IfOk result (λ cut. cut.used ≤ length bytes.now) }
    ensures stops { IfOk result (λ cut. Stops cut.is_empty (drop cut.used bytes.now)) }
{
    let mut packets = Vec::new(alloc);
    let mut used = 0;
    let mut head = head_of(bytes);
    while let Head::Whole(size) = head {
        packets.push(packet_of(alloc, &bytes[used..used + size])?)?;
        used += size;
        head = head_of(&bytes[used..]);
    }
    Ok(Cut {
        packets,
        used,
        is_empty: matches!(head, Head::Empty),
    })
}
