//! The market: the simulator, behind streams.

use crate::fault::DemoFault;
use gate_core::EnterOrder;
use market_law::{Choice, Trading};
use market_sim::{Sim, SimEvent};
use soup_packets::{Packet, Packets};
use std::alloc::Global;
use std::io::{Read, Write};
use wire_law::{FixedWire, WholeWire};

/// A market of one port, which takes each order and executes it at its limit, in one trade.
#[derive(Drop)]
pub struct Market {
    alloc: Global,
    sim: Sim,
}

impl Market {
    /// A market without orders. Takes no memory.
    pub fn new(alloc: Global) -> Market {
        Market {
            alloc,
            sim: Sim::new(alloc),
        }
    }

    /// Serves a link until the gateway has closed it. Orders and what was said of them stay for the next one.
    pub fn serve<S: Read, W: Write>(&mut self, from: &mut S, to: &mut W) -> Result<(), DemoFault> {
        let _ = self.sim.step(self.alloc, SimEvent::Up)?;
        let mut packets = Packets::new(self.alloc);
        let mut piece = [0u8; 4096];
        for _ in 0..u64::MAX {
            let count = from.read(&mut piece)?;
            if count == 0 {
                break;
            }
            self.take_all(&mut packets, &piece[..count], to)?;
        }
        let _ = self.sim.step(self.alloc, SimEvent::Gone)?;
        Ok(())
    }

    /// Answers the packets that these bytes bring.
    fn take_all<W: Write>(
        &mut self,
        packets: &mut Packets,
        bytes: &[u8],
        to: &mut W,
    ) -> Result<(), DemoFault> {
        let Ok(found) = packets.feed(self.alloc, bytes) else {
            return Err(DemoFault::NotFinished);
        };
        for packet in found {
            self.take(packet, to)?;
        }
        Ok(())
    }

    /// Answers a packet, and trades the order that it enters.
    fn take<W: Write>(&mut self, packet: Packet, to: &mut W) -> Result<(), DemoFault> {
        let trading = trading_of(&packet);
        self.step(SimEvent::Packet(packet, Choice::AcceptLive), to)?;
        match trading {
            Some(trading) => self.step(SimEvent::Act(Choice::Execute(trading)), to),
            None => Ok(()),
        }
    }

    /// Steps the market, and writes what it says.
    fn step<W: Write>(&mut self, event: SimEvent, to: &mut W) -> Result<(), DemoFault> {
        let replies = self.sim.step(self.alloc, event)?;
        say(self.alloc, replies.as_slice(), to)
    }
}

/// All shares of the order that a packet enters, at its limit.
fn trading_of(packet: &Packet) -> Option<Trading> {
    let order = EnterOrder::get(packet.payload.as_slice())?;
    let token = order.token;
    let shares = order.shares;
    let price = order.price;
    Some(Trading {
        token,
        shares,
        price,
    })
}

/// Writes packets.
fn say<W: Write>(alloc: Global, packets: &[Packet], to: &mut W) -> Result<(), DemoFault> {
    let mut bytes = Vec::new(alloc);
    for packet in packets {
        packet.put(&mut bytes)?;
    }
    to.write_all(bytes.as_slice())?;
    Ok(())
}
