//! The packets of a stream that comes in pieces.

ghost use Rattle.std.specs.Prelude.{◌≡◌, ◌++◌, ◌*◌, ◌^◌, ◌<◌, ◌≤◌, ℕ, [], ◌∷◌, List, length, IfOk, IfNone, OnOk, OnErr};
ghost use Rattle.std.specs.Prelude.{Result, IsErrOf, Err, IsOk, IsTrue, true, ◌↔◌, ⊤};
ghost use Rattle.std.specs.Borrow.{sem, follows_so};
ghost use mathlib.Core.Option.{none};
ghost use Rattle.wire_streams.specs.Buffer.{Takes, Counts};
ghost use Rattle.soup_packets.specs.Stream.{Fed, ArePackets, BeginsEmpty, EndsEmpty, PassesPacket, Stops};
ghost use Rattle.soup_packets.specs.Stream.{packets_written};
ghost use Rattle.soup_packets.specs.Front.{LendsPacket};
ghost use Rattle.soup_packets.specs.Spelling.{packet_bytes};
ghost use Rattle.soup_packets.specs.declared.packet.Packet.{Packet};
ghost use Rattle.soup_packets.specs.declared.packets.PacketFault.TheVariants.{NoMemory, Empty};
ghost use Rattle.soup_packets.specs.contracts.packets.Packets.{the_row};

use crate::cut::{Cut, Head, begins_empty, cut_off, head_of};
use crate::packet::Packet;
use crate::view::PacketView;
use std::alloc::{AllocError, AllocFailed, Global};
use std::marker::Model;
use thiserror::Error;
use wire_streams::StreamBuffer;

/// Why no packets were given.
#[derive(Clone, Copy, Debug, PartialEq, Eq, Drop, Error)]
pub enum PacketFault {
    /// Memory ran out. Nothing was taken: the same piece may be fed again.
    #[error("out of memory")]
    NoMemory,
    /// A length of 0 stands where a packet should begin. It is so for good.
    #[error("a packet of no bytes")]
    Empty,
}

impl From<AllocError> for PacketFault {
    ghost from_gives = { λ _ fault. fault ≡ NoMemory };

    fn from(_error: AllocError) -> PacketFault {
        PacketFault::NoMemory
    }
}

impl<T: Drop> From<AllocFailed<T>> for PacketFault {
    ghost from_gives = { λ _ fault. fault ≡ NoMemory };

    fn from(_error: AllocFailed<T>) -> PacketFault {
        PacketFault::NoMemory
    }
}

/// Cuts a stream into packets. It holds the bytes that are part of no packet passed.
///
/// Contracts speak of the whole stream so far: `Fed stream passed reader` says that the reader has taken it, in any
/// pieces, and that these packets were passed, by `pass` or by `feed`, which passes what it gives.
#[derive(Drop)]
pub struct Packets {
    buffer: StreamBuffer,
}

impl Model for Packets {
    ghost use Rattle.std.specs.Prelude.{◌≡◌, []};
    ghost use Rattle.wire_streams.specs.Buffer.{BytesHeld};

    ghost Value = { BytesHeld };

    ghost view = { λ packets. packets.buffer.kept };

    ghost invariant = { λ packets. packets.buffer.offered ≡ [] };
}

impl Packets {
    /// Nothing of a stream. Takes no memory.
    #[tactic(auto, unfolding(crate::specs::Stream::Fed))]
    pub fn new(alloc: Global) -> Packets
        ensures { Fed [] [] result }
    {
        Packets {
            buffer: StreamBuffer::new(alloc),
        }
    }

    /// Takes the next bytes of the stream; none where a length of 0 stands in front, behind which nothing is read. One
    /// growth; `AllocError` leaves the reader as it was.
    pub fn put(&mut self, alloc: Global, piece: &[u8]) -> Result<(), AllocError>
        ensures takes { OnOk result ((BeginsEmpty self.old.held → ⊥)
            → Takes piece.now (length piece.now) self.old self.new) }
        ensures over { BeginsEmpty self.old.held → IsOk result × (self.new ≡ self.old) }
        ensures fed { OnOk result ((stream : List ℕ) (passed : List Packet)
            → Fed stream passed self.old → Fed (stream ++ piece.now) passed self.new) }
        ensures err { OnErr result (self.new ≡ self.old) }
    {
        if self.is_over() {
            return Ok(());
        }
        self.buffer.put(alloc, piece)
    }

    /// The packet that stands whole in front, lent; `None` where less than one does. It is the same until `pass`.
    /// `Empty` where a length of 0 stands in a packet's place. Takes no memory.
    ///
    /// Source: SoupBinTCP 3.00, "Logical Packets".
    pub fn front(&mut self) -> Result<Option<PacketView<'_>>, PacketFault>
        ensures* unchanged { sem 𝓛 (follows_so the_row the_row self.entry.ghost_name none
            (λ _ _. ⊤) (λ v. v ≡ self.old)) }
        ensures front { LendsPacket self.old.held result }

        // Where no packet stands whole in front, those that were passed are the stream's.
        ensures all { IfOk result (λ found. IfNone found ((stream : List ℕ) (passed : List Packet)
            → Fed stream passed self.old → ArePackets stream passed)) }
        ensures empty { IsErrOf result PacketFault.Empty → (stream : List ℕ) (passed : List Packet)
            → Fed stream passed self.old → ArePackets stream passed × EndsEmpty stream passed }
    {
        self.look()
    }

    /// The same, from a reader that is only read.
    fn look(&self) -> Result<Option<PacketView<'_>>, PacketFault>
        ensures front { LendsPacket self.now.held result }
        ensures all { IfOk result (λ found. IfNone found ((stream : List ℕ) (passed : List Packet)
            → Fed stream passed self.now → ArePackets stream passed)) }
        ensures empty { IsErrOf result PacketFault.Empty → (stream : List ℕ) (passed : List Packet)
            → Fed stream passed self.now → ArePackets stream passed × EndsEmpty stream passed }
    {
        front_of(self.buffer.held())
    }

    /// Whether it holds no byte: then those packets that were passed are the stream's. Takes no memory.
    pub fn is_idle(&self) -> bool
        ensures held { IsTrue result ↔ (self.now.held ≡ []) }
        ensures all { result ≡ true → (stream : List ℕ) (passed : List Packet) → Fed stream passed self.now
            → ArePackets stream passed }
    {
        self.holds_nothing()
    }

    /// Whether it holds no byte.
    fn holds_nothing(&self) -> bool
        ensures { IsTrue result ↔ (self.now.held ≡ []) }
    {
        self.buffer.held().is_empty()
    }

    /// Whether a length of 0 stands in front.
    fn is_over(&self) -> bool
        ensures { IsTrue result ↔ BeginsEmpty self.now.held }
    {
        begins_empty(self.buffer.held())
    }

    /// Passes the packet in front: whether one stood there whole. Takes no memory.
    pub fn pass(&mut self) -> bool
        ensures passes { PassesPacket result self.old self.new }
        ensures fed { (stream : List ℕ) (passed : List Packet) (p : Packet)
            → self.old.held ≡ packet_bytes p ++ self.new.held
            → Fed stream passed self.old → Fed stream (passed ++ p ∷ []) self.new }
    {
        let Head::Whole(size) = head_of(self.buffer.held()) else {
            return false;
        };
        self.buffer.pass(size);
        true
    }

    /// Takes the next bytes of the stream, and gives the packets that are whole now, the oldest first.
    ///
    /// However the stream is cut into pieces, all packets given so far are those of the stream so far: the longest
    /// list of packets that it begins with. `Empty` comes where a length of 0 stands in a packet's place: packets
    /// before it in the same piece are given first, and then each call answers `Empty` and takes nothing. After
    /// `NoMemory` nothing was taken.
    ///
    /// Source: SoupBinTCP 3.00, "Logical Packets".
    pub fn feed(&mut self, alloc: Global, piece: &[u8]) -> Result<Vec<Packet>, PacketFault>
        ensures fed { IfOk result (λ given. (stream : List ℕ) (before : List Packet)
            → Fed stream before self.old → Fed (stream ++ piece.now) (before ++ given.items) self.new) }
        ensures packets { IfOk result (λ given. (stream : List ℕ) (before : List Packet)
            → Fed stream before self.old → ArePackets (stream ++ piece.now) (before ++ given.items)) }
        ensures goes_on { IfOk result (λ given. given.items ≡ [] → (stream : List ℕ) (before : List Packet)
            → Fed stream before self.old → EndsEmpty (stream ++ piece.now) before → ⊥) }
        ensures empty { IsErrOf result PacketFault.Empty → (stream : List ℕ) (before : List Packet)
            → Fed stream before self.old → Fed (stream ++ piece.now) before self.new
            × EndsEmpty (stream ++ piece.now) before }
        ensures for_good { (stream : List ℕ) (before : List Packet)
            → Fed stream before self.old → EndsEmpty stream before → result ≡ Err Empty }
        ensures no_memory { IsErrOf result PacketFault.NoMemory → self.new ≡ self.old }
        ensures counts { OnOk result (Counts (length piece.now) self.old self.new) }
        ensures over { BeginsEmpty self.old.held → self.new ≡ self.old }
    {
        if self.is_over() {
            return Err(PacketFault::Empty);
        }
        let cut = self.take(alloc, piece)?;
        if cut.is_empty && cut.packets.is_empty() {
            return Err(PacketFault::Empty);
        }
        Ok(cut.packets)
    }

    /// Takes a piece, and takes out the packets that are whole then. An error leaves all as it was.
    fn take(&mut self, alloc: Global, piece: &[u8]) -> Result<Cut, AllocError>
        ensures whole { IfOk result (λ cut. self.old.held ++ piece.now
            ≡ packets_written cut.packets.items ++ self.new.held) }
        ensures stops { IfOk result (λ cut. Stops cut.is_empty self.new.held) }
        ensures counts { OnOk result (Counts (length piece.now) self.old self.new) }
        ensures err { OnErr result (self.new ≡ self.old) }
    {
        if self.buffer.held().is_empty() {
            self.take_piece(alloc, piece)
        } else {
            self.take_joined(alloc, piece)
        }
    }

    /// The same where nothing is held: only what is left of the piece is copied.
    fn take_piece(&mut self, alloc: Global, piece: &[u8]) -> Result<Cut, AllocError>
        requires { self.old.held ≡ [] }
        ensures whole { IfOk result (λ cut. self.old.held ++ piece.now
            ≡ packets_written cut.packets.items ++ self.new.held) }
        ensures stops { IfOk result (λ cut. Stops cut.is_empty self.new.held) }
        ensures counts { OnOk result (Counts (length piece.now) self.old self.new) }
        ensures err { OnErr result (self.new ≡ self.old) }
    {
        let cut = cut_off(alloc, piece)?;
        self.buffer.put_behind(alloc, piece, cut.used)?;
        Ok(cut)
    }

    /// The same where something is held: the piece is appended, so that no byte is looked at again until a packet is
    /// whole.
    fn take_joined(&mut self, alloc: Global, piece: &[u8]) -> Result<Cut, AllocError>
        ensures whole { IfOk result (λ cut. self.old.held ++ piece.now
            ≡ packets_written cut.packets.items ++ self.new.held) }
        ensures stops { IfOk result (λ cut. Stops cut.is_empty self.new.held) }
        ensures counts { OnOk result (Counts (length piece.now) self.old self.new) }
        ensures err { OnErr result (self.new ≡ self.old) }
    {
        self.buffer.offer(alloc, piece)?;
        match cut_off(alloc, self.buffer.joined()) {
            Ok(cut) => {
                self.buffer.accept();
                self.buffer.pass(cut.used);
                Ok(cut)
            }
            Err(error) => {
                self.buffer.refuse();
                Err(error)
            }
        }
    }

    /// How many bytes were written into the buffer, from a piece or when what is held is moved to its front;
    /// 2^64 - 1 stands for more. Takes no memory.
    pub fn copied(&self) -> u64
        ensures now { result ≡ self.now.copied }
        ensures most { self.now.fed < 2 ^ 62 → result ≤ 2 * self.now.fed }
    {
        self.buffer.copied()
    }

    /// How many bytes were taken; 2^64 - 1 stands for more. Takes no memory.
    pub fn fed(&self) -> u64
        ensures { result ≡ self.now.fed }
    {
        self.buffer.fed()
    }
}

/// What stands in front of these bytes, a whole packet lent.
fn front_of(bytes: &[u8]) -> Result<Option<PacketView<'_>>, PacketFault>
    ensures { LendsPacket bytes.now result }
{
    match head_of(bytes) {
        Head::Partial => Ok(None),
        Head::Empty => Err(PacketFault::Empty),
        Head::Whole(size) => Ok(Some(PacketView::of(&bytes[..size]))),
    }
}

/// There is one list of packets of a stream. It does nothing: its contract is the law.
pub fn one_list_of_packets()
    ensures { (stream : List ℕ) (packets others : List Packet) → ArePackets stream packets → ArePackets stream others
        → packets ≡ others }
{}
