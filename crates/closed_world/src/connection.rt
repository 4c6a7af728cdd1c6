//! A connection between the core and a market, with what is on its way.

use gate_events::{LinkOut, closes_link};
use soup_packets::Packet;
use std::alloc::{AllocError, Global};
use std::collections::VecDeque;
use wire_law::WholeWire;

/// A connection of a port: its link's number, and the packets on their way on it, each the oldest first.
#[derive(Drop)]
pub struct Connection {
    pub link: u64,
    pub to_market: VecDeque<Packet>,
    pub to_core: VecDeque<Packet>,
}

impl Connection {
    ghost use Rattle.std.specs.Prelude.{◌≡◌, [], ◌∷◌, ◌++◌, IfOk, Some, map};
    ghost use Rattle.std.specs.List.{list_any};
    ghost use Rattle.gate_law.specs.After.{is_close};
    ghost use Rattle.gate_events.specs.Seen.{link_out_seen};
    ghost use Rattle.soup_packets.specs.declared.packet.Packet.{Packet};
    ghost use Rattle.soup_packets.specs.Spelling.{packet_bytes};
    ghost use Rattle.closed_world.specs.Lines.{ArePackets, IsPacketOut, way_seen, with_written, written_to};

    /// A connection by this link, with nothing on its way. Takes no memory.
    pub fn new(alloc: Global, link: u64) -> Connection
        ensures { way_seen result ≡ record { link = link; to_market = []; to_core = [] } }
    {
        Connection {
            link,
            to_market: VecDeque::new(alloc),
            to_core: VecDeque::new(alloc),
        }
    }

    /// Whether a batch that tells the port's link this closes the connection. Takes no memory.
    pub fn is_closed_by(&self, outs: &[LinkOut]) -> bool
        ensures { result ≡ list_any (is_close (Some self.now.link)) (map link_out_seen outs.now) }
    {
        closes_link(Some(self.link), outs)
    }

    /// What a batch writes to the link goes behind what is on its way to the market.
    pub fn write_all(&mut self, alloc: Global, outs: &[LinkOut]) -> Result<(), AllocError>
        ensures { IfOk result (λ u. ArePackets (map link_out_seen outs.now)
            → way_seen self.new ≡ with_written (map link_out_seen outs.now) (way_seen self.old)) }
    {
        for out in outs {
            self.write(alloc, out)?;
        }
        Ok(())
    }

    /// What is written to the link goes behind what is on its way to the market.
    fn write(&mut self, alloc: Global, out: &LinkOut) -> Result<(), AllocError>
        ensures link { IfOk result (λ u. self.new.link ≡ self.old.link) }
        ensures core { IfOk result (λ u. self.new.to_core.items ≡ self.old.to_core.items) }
        ensures market { IfOk result (λ u. IsPacketOut (link_out_seen out.now)
            → map packet_bytes self.new.to_market.items ≡ map packet_bytes self.old.to_market.items
            ++ written_to self.old.link (link_out_seen out.now)) }
    {
        match out {
            LinkOut::Write { link, bytes } => {
                if *link == self.link {
                    return self.write_bytes(alloc, bytes.as_slice());
                }
                Ok(())
            }
            LinkOut::Close { .. } => Ok(()),
        }
    }

    /// A packet's bytes go behind what is on its way to the market.
    fn write_bytes(&mut self, alloc: Global, bytes: &[u8]) -> Result<(), AllocError>
        ensures link { IfOk result (λ u. self.new.link ≡ self.old.link) }
        ensures core { IfOk result (λ u. self.new.to_core.items ≡ self.old.to_core.items) }
        ensures market { IfOk result (λ u. (packet : Packet) → packet_bytes packet ≡ bytes.now
            → map packet_bytes self.new.to_market.items
            ≡ map packet_bytes self.old.to_market.items ++ bytes.now ∷ []) }
    {
        let read = Packet::get(alloc, bytes)?;
        match read {
            Some(packet) => self.push(packet),
            None => Ok(()),
        }
    }

    /// A packet goes behind what is on its way to the market.
    fn push(&mut self, packet: Packet) -> Result<(), AllocError>
        ensures link { IfOk result (λ u. self.new.link ≡ self.old.link) }
        ensures core { IfOk result (λ u. self.new.to_core.items ≡ self.old.to_core.items) }
        ensures market { IfOk result (λ u. map packet_bytes self.new.to_market.items
            ≡ map packet_bytes self.old.to_market.items ++ packet_bytes packet ∷ []) }
    {
        self.to_market.push_back(packet)?;
        Ok(())
    }

    /// What the market says goes behind what is on its way to the core.
    pub fn say_all(&mut self, packets: Vec<Packet>) -> Result<(), AllocError>
        ensures link { IfOk result (λ u. self.new.link ≡ self.old.link) }
        ensures market { IfOk result (λ u. self.new.to_market.items ≡ self.old.to_market.items) }
        ensures core { IfOk result (λ u. self.new.to_core.items ≡ self.old.to_core.items ++ packets.items) }
    {
        for packet in packets {
            self.to_core.push_back(packet)?;
        }
        Ok(())
    }
}
