//! From a port's bytes to its events: each packet becomes a `PortPacket`.

ghost use Rattle.std.specs.Prelude.{◌≡◌, [], true, Ok, None};
ghost use Rattle.soup_packets.specs.Stream.{Fed};
ghost use Rattle.link_decoders.specs.Decoding.{NextPacket};

use crate::decode_fault::DecodeFault;
use crate::decoder::Decoder;
use gate_events::{Event, PortNumber};
use soup_packets::{Packet, Packets};
use std::alloc::{AllocError, Global};
use std::marker::Model;

/// Makes a port's events of the bytes of its link, one for each packet. Contracts see the stream's reader.
///
/// Source: SoupBinTCP 3.00, "Logical Packets".
#[derive(Drop)]
pub struct PortPackets {
    port: PortNumber,
    link: u64,
    packets: Packets,
}

impl Model for PortPackets {
    ghost use Rattle.link_decoders.specs.Decoding.{PacketsOfLink};

    ghost Value = { PacketsOfLink };

    ghost view = { λ p. record { port = p.port; link = p.link; packets = p.packets } };
}

impl PortPackets {
    /// For a link of which no byte has come. Takes no memory.
    pub fn new(alloc: Global, port: PortNumber, link: u64) -> PortPackets
        ensures port { result.port ≡ port }
        ensures link { result.link ≡ link }
        ensures fed { Fed [] [] result.packets }
    {
        PortPackets {
            port,
            link,
            packets: Packets::new(alloc),
        }
    }
}

impl Decoder for PortPackets {
    ghost use Rattle.std.specs.Prelude.{length};
    ghost use Rattle.link_decoders.specs.Decoding.{MadeOfPackets, AreAllOfPackets};

    ghost source = { λ p. (p.port, p.link) };

    ghost made = { MadeOfPackets };

    ghost are_all = { AreAllOfPackets };

    ghost to_make = { λ p. length p.packets.held };

    ghost skips = { λ p. 0 };

    fn feed(&mut self, alloc: Global, piece: &[u8]) -> Result<(), AllocError> {
        self.packets.put(alloc, piece)
    }

    fn make(&mut self, alloc: Global, at: u64) -> Result<Option<Event>, DecodeFault> {
        let Some(packet) = next_packet(&mut self.packets, alloc)? else {
            return Ok(None);
        };
        Ok(Some(Event::PortPacket {
            port: self.port,
            link: self.link,
            at,
            packet,
        }))
    }

    fn is_idle(&self) -> bool {
        has_no_packet(&self.packets)
    }

    /// 0: each byte is part of a packet.
    fn skipped(&self) -> u64 {
        0
    }
}

/// Whether the reader holds no byte, and so no packet.
fn has_no_packet(packets: &Packets) -> bool
    ensures { result ≡ true → NextPacket (Ok None) packets.now packets.now }
{
    packets.is_idle()
}

/// Copies the next packet out of the reader.
fn next_packet(packets: &mut Packets, alloc: Global) -> Result<Option<Packet>, DecodeFault>
    ensures { NextPacket result packets.old packets.new }
{
    let packet = match packets.front() {
        Ok(Some(view)) => view.to_packet(alloc)?,
        Ok(None) => return Ok(None),
        Err(_) => return Err(DecodeFault::Malformed),
    };
    packets.pass();
    Ok(Some(packet))
}
