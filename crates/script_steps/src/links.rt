//! The links of clients and ports, and what is read on them.

ghost use Rattle.std.specs.Prelude.{◌≡◌, ◌+◌, ◌-◌, ◌^◌, ◌++◌, ℕ, List, min, [], IfOk, IsErrOf};
ghost use Rattle.fix_framing.specs.Stream.{BytesLeave, Feeds, Over};
ghost use Rattle.soup_packets.specs.declared.packet.Packet.{Packet};
ghost use Rattle.soup_packets.specs.Stream.{Fed, EndsEmpty};

use fix_fields::Fields;
use fix_framing::{FrameFault, Framer};
use script_lines::LineFault;
use soup_packets::{Packet, PacketFault, Packets};
use std::alloc::Global;

/// A client's last link, by its number from 1 (0 before the first), and the reader of what comes on it.
#[derive(Drop)]
pub struct ClientLink {
    pub number: u64,
    pub framer: Framer,
}

/// A port's last link, by its number from 1 (0 before the first), and the reader of what comes on it.
#[derive(Drop)]
pub struct PortLink {
    pub number: u64,
    pub packets: Packets,
}

impl ClientLink {
    /// No link yet. Takes no memory.
    pub fn new(alloc: Global) -> ClientLink
        ensures number { result.number ≡ 0 }
        ensures framer { BytesLeave [] result.framer }
    {
        ClientLink {
            number: 0,
            framer: Framer::new(alloc),
        }
    }

    /// The next link, of which nothing was read. Takes no memory.
    pub fn next(&mut self, alloc: Global)
        ensures number { self.new.number ≡ min (self.old.number + 1) (2 ^ 64 - 1) }
        ensures framer { BytesLeave [] self.new.framer }
    {
        self.number = self.number.saturating_add(1);
        self.framer = Framer::new(alloc);
    }

    /// The frames that are whole with these bytes. `NotUnderstood` where the reader says that it reads no more.
    pub fn read(&mut self, alloc: Global, bytes: &[u8]) -> Result<Vec<Fields>, LineFault>
        ensures number { self.new.number ≡ self.old.number }
        ensures frames { IfOk result (λ frames. (fed : List ℕ) → BytesLeave fed self.old.framer
            → Feeds fed bytes.now frames.items self.new.framer) }
        ensures over { IsErrOf result LineFault.NotUnderstood → self.new.framer.end ≡ Over }
    {
        match self.framer.feed(alloc, bytes) {
            Ok(frames) => Ok(frames),
            Err(FrameFault::TooLong) => Err(LineFault::NotUnderstood),
            Err(FrameFault::NoMemory) => Err(LineFault::NoMemory),
        }
    }
}

impl PortLink {
    /// No link yet. Takes no memory.
    pub fn new(alloc: Global) -> PortLink
        ensures number { result.number ≡ 0 }
        ensures packets { Fed [] [] result.packets }
    {
        PortLink {
            number: 0,
            packets: Packets::new(alloc),
        }
    }

    /// The next link, of which nothing was read. Takes no memory.
    pub fn next(&mut self, alloc: Global)
        ensures number { self.new.number ≡ min (self.old.number + 1) (2 ^ 64 - 1) }
        ensures packets { Fed [] [] self.new.packets }
    {
        self.number = self.number.saturating_add(1);
        self.packets = Packets::new(alloc);
    }

    /// The packets that are whole with these bytes. `NotUnderstood` where the reader says that it reads no more.
    pub fn read(&mut self, alloc: Global, bytes: &[u8]) -> Result<Vec<Packet>, LineFault>
        ensures number { self.new.number ≡ self.old.number }
        ensures packets { IfOk result (λ packets. (fed : List ℕ) (before : List Packet)
            → Fed fed before self.old.packets → Fed (fed ++ bytes.now) (before ++ packets.items) self.new.packets) }
        ensures empty { IsErrOf result LineFault.NotUnderstood → (fed : List ℕ) (before : List Packet)
            → Fed fed before self.old.packets → EndsEmpty (fed ++ bytes.now) before }
    {
        match self.packets.feed(alloc, bytes) {
            Ok(packets) => Ok(packets),
            Err(PacketFault::Empty) => Err(LineFault::NotUnderstood),
            Err(PacketFault::NoMemory) => Err(LineFault::NoMemory),
        }
    }
}
