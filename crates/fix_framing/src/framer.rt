//! The reader of a stream.

ghost use Rattle.std.specs.Prelude.{◌≡◌, ◌≢◌, ◌<◌, ◌≤◌, ◌*◌, ◌^◌, ◌++◌, ℕ, List, [], length};
ghost use Rattle.std.specs.Prelude.{IfOk, IfNone, IsOk, OnOk, OnErr, Err, None, IsTrue, ◌↔◌, ⊤};
ghost use Rattle.std.specs.Borrow.{sem, follows_so};
ghost use mathlib.Core.Option.{none};
ghost use Rattle.wire_streams.specs.Buffer.{Takes, Counts, LetsGo};
ghost use Rattle.fix_fields.specs.Field.{Field};
ghost use Rattle.fix_framing.specs.Stream.{ReaderStanding, Rest, Over, BytesLeave, Feeds, parts, counted_skips};
ghost use Rattle.fix_framing.specs.Stream.{Passed, PassesFrame, Sought, IsSeen, IsTaken, left, longer};
ghost use Rattle.fix_framing.specs.Front.{GivesFrame, IsFramed, LendsFrame};
ghost use Rattle.fix_framing.specs.declared.frame_fault.FrameFault.TheVariants.{TooLong, NoMemory};
ghost use Rattle.fix_framing.specs.contracts.framer.Framer.{the_row};

use crate::frame_fault::FrameFault;
use crate::place::Framed;
use crate::scan::{next_frame_of, next_of, scan_in};
use fix_fields::{Fields, FieldsView};
use std::alloc::{AllocError, Global};
use std::marker::Model;
use wire_streams::StreamBuffer;

/// The reader of a stream of bytes: it takes pieces, and gives the frames that are whole. Contracts see the bytes that
/// it still has to judge, or that no more frames come, how many bytes were skipped, and what its buffer holds.
///
/// `Passed taken passed reader` says that the reader has taken these bytes, in any pieces, and that these frames were
/// passed, by `pass` or by `feed`, which passes what it gives.
///
/// Source: FIX 4.4 Volume 1, "Message Format".
#[derive(Drop)]
pub struct Framer {
    buffer: StreamBuffer,
    // the size of the frame in front, where it was seen there
    seen: Option<usize>,
    is_over: bool,
    skipped: u64,
}

impl Model for Framer {
    ghost use Rattle.std.specs.Prelude.{◌≡◌, []};
    ghost use Rattle.fix_framing.specs.Stream.{ReaderStanding, IsRemembered, end_of};

    ghost Value = { ReaderStanding };

    ghost view = { λ f. record {
      end = end_of f.is_over f.buffer.kept.held;
      skipped = f.skipped;
      kept = f.buffer.kept;
    } };

    ghost invariant = { λ f. (f.buffer.offered ≡ []) × IsRemembered f.seen f.buffer.kept.held };
}

impl Framer {
    /// The reader of a stream of which nothing has come. Takes no memory.
    #[tactic(auto, unfolding(crate::specs::Stream::BytesLeave, crate::specs::Stream::parts_behind))]
    pub fn new(alloc: Global) -> Framer
        ensures leaves { BytesLeave [] result }
        ensures passed { Passed [] [] result }
    {
        Framer {
            buffer: StreamBuffer::new(alloc),
            seen: None,
            is_over: false,
            skipped: 0,
        }
    }

    /// Takes the next bytes of the stream; none once too long a frame was met, behind which nothing is read. One
    /// growth; `AllocError` leaves the reader as it was.
    pub fn put(&mut self, alloc: Global, piece: &[u8]) -> Result<(), AllocError>
        ensures end { OnOk result (self.new.end ≡ longer self.old.end piece.now) }
        ensures passed { OnOk result ((taken : List ℕ) (passed : List (List Field))
            → Passed taken passed self.old → Passed (taken ++ piece.now) passed self.new) }
        ensures takes { OnOk result (self.old.end ≢ Over
            → Takes piece.now (length piece.now) self.old.kept self.new.kept) }
        ensures over { self.old.end ≡ Over → IsOk result × (self.new ≡ self.old) }
        ensures err { OnErr result (self.new ≡ self.old) }
    {
        if self.is_over {
            return Ok(());
        }
        self.buffer.put(alloc, piece)
    }

    /// The frame that comes next, its fields lent; `None` where none is whole. It is the same until `pass`. Bytes
    /// before it are skipped. `TooLong` where a head announces a frame of more than 8,192 bytes. Takes no memory.
    ///
    /// Source: FIX 4.4 Volume 1, "Message Format".
    #[tactic(auto, using(crate::proofs::Passing::front_all))]
    pub fn front(&mut self) -> Result<Option<FieldsView<'_>>, FrameFault>
        ensures* sought { sem 𝓛 (follows_so the_row the_row self.entry.ghost_name none
            (λ _ _. ⊤) (λ v. Sought self.old v)) }
        ensures front { LendsFrame (left self.old.end) result }

        // Where none is whole, those that were passed are the stream's.
        ensures all { IfOk result (λ found. IfNone found ((taken : List ℕ) (passed : List (List Field))
            → Passed taken passed self.old → (parts taken).frames ≡ passed)) }
    {
        let size = self.seek();
        self.look(size)
    }

    /// Passes the frame that comes next: whether one is whole. Takes no memory.
    pub fn pass(&mut self) -> bool
        ensures { PassesFrame result self.old self.new }
    {
        let Some(size) = self.seek() else {
            return false;
        };
        self.seen = None;
        self.buffer.pass(size);
        true
    }

    /// The frame that comes next, moved out: its fields, and it is passed; `None` where none is whole. Bytes before it
    /// are skipped. What `front` and `pass` do with a copy between them, in one reading of its bytes. Two growths.
    ///
    /// `TooLong` where a head announces a frame of more than 8,192 bytes. `NoMemory` leaves the reader as it was.
    ///
    /// Source: FIX 4.4 Volume 1, "Message Format".
    pub fn next(&mut self, alloc: Global) -> Result<Option<Fields>, FrameFault>
        ensures { GivesFrame result self.old self.new }
    {
        let Some(framed) = self.seek_frame(alloc)? else {
            return self.none_is_whole();
        };
        self.seen = None;
        self.buffer.pass(framed.size);
        Ok(Some(framed.fields))
    }

    /// Skips what no frame begins with. The frame in front, where one is whole. An error leaves all as it was.
    fn seek_frame(&mut self, alloc: Global) -> Result<Option<Framed>, AllocError>
        ensures sought { OnOk result (Sought self.old self.new) }
        ensures framed { IfOk result (λ framed. IsFramed framed self.new.end) }
        ensures err { OnErr result (self.new ≡ self.old) }
    {
        if self.is_over {
            return Ok(None);
        }
        let next = next_frame_of(alloc, self.buffer.held())?;
        self.seen = None;
        let_go(&mut self.buffer, next.skipped);
        self.skipped = self.skipped.saturating_add(next.skipped as u64);
        self.is_over = next.is_over;
        Ok(next.frame)
    }

    /// What is said where no frame is whole.
    fn none_is_whole(&self) -> Result<Option<Fields>, FrameFault>
        requires { IsFramed None self.now.end }
        ensures { (old : ReaderStanding) → Sought old self.now → GivesFrame result old self.now }
    {
        if self.is_over {
            Err(FrameFault::TooLong)
        } else {
            Ok(None)
        }
    }

    /// Skips what no frame begins with. The size of the frame in front, where one is whole.
    fn seek(&mut self) -> Option<usize>
        ensures sought { Sought self.old self.new }
        ensures seen { IsSeen result self.new.end }
    {
        if self.is_over {
            return None;
        }
        if self.seen.is_some() {
            return self.seen;
        }
        let next = next_of(self.buffer.held());
        self.buffer.pass(next.skipped);
        self.skipped = self.skipped.saturating_add(next.skipped as u64);
        self.is_over = next.is_over;
        self.seen = next.size;
        next.size
    }

    /// What was seen in front.
    fn look(&self, size: Option<usize>) -> Result<Option<FieldsView<'_>>, FrameFault>
        requires { IsSeen size self.now.end }
        ensures { LendsFrame (left self.now.end) result }
    {
        if self.is_over {
            return Err(FrameFault::TooLong);
        }
        let Some(size) = size else {
            return Ok(None);
        };
        let (text, _) = self.buffer.held().split_at(size);
        Ok(Some(FieldsView::known(text)))
    }

    /// The frames that are whole with this piece of the stream, in order, each with all its fields.
    ///
    /// `TooLong` where a head announces a frame of more than 8,192 bytes: frames before it in the same piece are given
    /// first, and `TooLong` by the next feed and by all that follow, which take nothing. After `NoMemory` nothing of
    /// the piece was taken.
    pub fn feed(&mut self, alloc: Global, piece: &[u8]) -> Result<Vec<Fields>, FrameFault>
        ensures frames { IfOk result (λ given. (fed : List ℕ) → BytesLeave fed self.old
            → Feeds fed piece.now given.items self.new) }

        // Frames before too long a one are given first.
        ensures first { IfOk result (λ given. self.new.end ≡ Over → given.items ≢ []) }
        ensures too_long { result ≡ Err TooLong → (fed : List ℕ) → BytesLeave fed self.old
            → Feeds fed piece.now [] self.new }

        // From then on there are no frames.
        ensures over { result ≡ Err TooLong → self.new.end ≡ Over }
        ensures for_good { self.old.end ≡ Over → result ≡ Err TooLong }
        ensures no_memory { result ≡ Err NoMemory → self.new ≡ self.old }
        ensures counts { OnOk result (Counts (length piece.now) self.old.kept self.new.kept) }
        ensures stays { self.old.end ≡ Over → self.new ≡ self.old }
    {
        if self.is_over() {
            return Err(FrameFault::TooLong);
        }
        let frames = self.take(alloc, piece)?;
        if self.is_over() && frames.is_empty() {
            return Err(FrameFault::TooLong);
        }
        Ok(frames)
    }

    /// Takes a piece, and takes out the frames that are whole then. An error leaves all as it was.
    fn take(&mut self, alloc: Global, piece: &[u8]) -> Result<Vec<Fields>, AllocError>
        ensures taken { IfOk result (λ given. (bytes : List ℕ) → self.old.end ≡ Rest bytes
            → IsTaken (parts (bytes ++ piece.now)) given.items self.old self.new) }
        ensures counts { OnOk result (Counts (length piece.now) self.old.kept self.new.kept) }
        ensures err { OnErr result (self.new ≡ self.old) }
    {
        self.seen = None;
        let scanned = scan_in(alloc, &mut self.buffer, piece)?;
        self.skipped = self.skipped.saturating_add(scanned.skipped as u64);
        self.is_over = scanned.is_over;
        Ok(scanned.frames)
    }

    /// Whether no more frames come.
    fn is_over(&self) -> bool
        ensures { IsTrue result ↔ (self.now.end ≡ Over) }
    {
        self.is_over
    }

    /// Whether it holds no byte, and reads on: then no frame is whole. Takes no memory.
    pub fn is_idle(&self) -> bool
        ensures { IsTrue result ↔ (self.now.end ≡ Rest []) }
    {
        !self.is_over && self.buffer.held().is_empty()
    }

    /// How many bytes were written into the buffer, from a piece or when what is held is moved to its front;
    /// 2^64 - 1 stands for more. Takes no memory.
    pub fn copied(&self) -> u64
        ensures now { result ≡ self.now.kept.copied }
        ensures most { self.now.kept.fed < 2 ^ 62 → result ≤ 2 * self.now.kept.fed }
    {
        self.buffer.copied()
    }

    /// How many bytes were taken; 2^64 - 1 stands for more. Takes no memory.
    pub fn fed(&self) -> u64
        ensures { result ≡ self.now.kept.fed }
    {
        self.buffer.fed()
    }

    /// How many bytes were skipped; 2^64 - 1 stands for more. Takes no memory.
    pub fn skipped(&self) -> u64
        ensures now { result ≡ self.now.skipped }
        ensures counted { (fed : List ℕ) → BytesLeave fed self.now → result ≡ counted_skips (parts fed).skipped }
    {
        self.skipped
    }
}

/// Drops this many bytes in front: mostly 0, and then nothing is to be done.
fn let_go(buffer: &mut StreamBuffer, count: usize)
    requires none { buffer.old.offered ≡ [] }
    requires held { count ≤ length buffer.old.kept.held }
    ensures passes { LetsGo count buffer.old.kept buffer.new.kept }
    ensures none { buffer.new.offered ≡ [] }
{
    if count > 0 {
        buffer.pass(count);
    }
}
