//! The writer of a link: takes lists of output and writes what they have for the link.

ghost use Rattle.std.specs.Prelude.{◌≡◌, ◌≤◌, ◌<◌, ◌==◌, ◌+◌, ◌-◌, ◌++◌, ◌∷◌, ◌||◌, not, nat_lt, ℕ, List, [], None};
ghost use Rattle.std.specs.Prelude.{Err, true, false, IfOk, IfErr, OnOk, OnErr, MatchResult, Some, length, drop, map};
ghost use Rattle.std.specs.Io.{WritesAtMost};
ghost use Rattle.std.specs.Io.KnownBytes.{WriteAppends};
ghost use Rattle.gate_events.specs.Seen.{link_out_seen};
ghost use Rattle.link_io.specs.Limits.{refusal, limit_after};
ghost use Rattle.link_io.specs.Answered.{FailedWrite, TriesOnce};
ghost use Rattle.link_io.specs.Writing.{bytes_of_output, link_bytes, next_bytes, unwritten, HasSent, Joins, TakesList};
ghost use Rattle.link_io.specs.Writing.{IsAllOrEnough, Refills, Sends, SendsPart, Writes, WritesOnce};
ghost use Rattle.link_io.specs.declared.link_fault.LinkFault.{LinkFault as Fault};

use crate::gate::Gate;
use crate::limit::Limit;
use crate::link_fault::LinkFault;
use crate::sent_notes::SentNotes;
use crate::streams::{Prompt, Sink};
use gate_events::{LinkOut, ShortList, closes_link};
use std::alloc::{AllocError, Global};
use std::io::{self, ErrorKind};
use std::marker::Model;

/// The most lists that are joined before they are written.
const MOST_LISTS: u32 = 64;

/// With this many bytes joined no further item is joined, and no further list is taken, before they are written.
const ENOUGH_BYTES: usize = 16_384;

/// So many bytes of memory are kept for what is written next, at most.
const MOST_KEPT: usize = 131_072;

/// How often a write is tried that only took too long, where the link holds up nobody.
const MOST_WRITES: u32 = 20;

/// What a step of a writer did.
#[derive(Clone, Copy, Debug, PartialEq, Eq)]
pub struct Wrote {
    /// How many bytes went out.
    pub bytes: u64,
    /// Whether a list was taken, in this step or in earlier ones that ran out of memory.
    pub taken: bool,
    /// Whether this link's `Close` was in one of these lists.
    pub closed: bool,
}

/// Writes a link's output onto its stream, and ignores that of other links.
///
/// Contracts see the bytes that were taken and not yet written, and what is still to be reported of the lists taken.
pub struct BatchWriter {
    number: u16,
    link: u64,
    /// A list that was taken, and how many of its items are joined.
    held: ShortList<LinkOut>,
    joined: usize,
    /// What is joined and to be written, in front of the rest of that list: up to 16,384 bytes and an item.
    pending: Vec<u8>,
    is_taken: bool,
    is_closing: bool,
    limit: Limit,
    sent: SentNotes,
}

// Not derived: then each way out drops it in one call (docs/DECISIONS.md, "Drops").
impl Drop for BatchWriter {
    fn drop(self) {
        let BatchWriter {
            number: _,
            link: _,
            held: _,
            joined: _,
            pending: _,
            is_taken: _,
            is_closing: _,
            limit: _,
            sent: _,
        } = self;
    }
}

impl Model for BatchWriter {
    ghost use Rattle.std.specs.Prelude.{◌≤◌, length, map, drop};
    ghost use Rattle.gate_events.specs.Seen.{link_out_seen};
    ghost use Rattle.link_io.specs.Writing.{WriterState};

    ghost Value = { WriterState };

    ghost view = { λ w. record {
      number = w.number;
      link = w.link;
      bytes = w.pending.items;
      held = map link_out_seen (drop w.joined w.held.items);
      is_taken = w.is_taken;
      is_closing = w.is_closing;
      limit = w.limit;
    } };

    ghost invariant = { λ w. w.joined ≤ length w.held.items };
}

impl BatchWriter {
    /// The writer of a link of the client or port of this number. Its step number `steps`, 1 or more, answers
    /// `StepLimit`. Takes no memory.
    pub fn new(alloc: Global, number: u16, link: u64, steps: u64) -> BatchWriter
        requires from_one { 1 ≤ steps }
        ensures { result ≡ record {
          number = number;
          link = link;
          bytes = [];
          held = [];
          is_taken = false;
          is_closing = false;
          limit = record { left = steps - 1; over = None };
        } }
    {
        BatchWriter {
            number,
            link,
            held: ShortList::new(),
            joined: 0,
            pending: Vec::new(alloc),
            is_taken: false,
            is_closing: false,
            limit: Limit::new(steps),
            sent: SentNotes::new(),
        }
    }

    /// The number of its client or port. Takes no memory.
    pub fn number(&self) -> u16
        ensures { result ≡ self.now.number }
    {
        self.number
    }

    /// Takes the lists that are queued, and writes what they have for this link. Up to 64 are taken, none behind 16,384
    /// bytes or behind one that closes this link.
    ///
    /// `WriteFailed` if a write fails or takes no byte: of what was to be written the first bytes went out. One that
    /// only took too long is tried again, up to twenty times, unless the link holds up others
    /// (`Gate::holds_up_others`).
    /// `StepLimit` at the last step, which writes nothing. After `NoMemory` nothing was written in the step: what was
    /// taken is kept, and the next step goes on with it. After any other fault each step answers the same and does
    /// nothing.
    pub fn step<W: Sink, G: Gate>(
        &mut self,
        alloc: Global,
        stream: &mut W,
        gate: &mut G,
    ) -> Result<Wrote, LinkFault>
        ensures writes { refusal self.old.limit ≡ None → Writes result self.old self.new
            (G.was_taken gate.old) (G.was_taken gate.new) (W.contents stream.old) (W.contents stream.new) }
        ensures failed { refusal self.old.limit ≡ None → IfErr result (λ fault.
            fault ≡ LinkFault.WriteFailed → FailedWrite W.did_write stream.new) }
        ensures refused { (fault : Fault) → refusal self.old.limit ≡ Some fault
            → (result ≡ Err fault) × (stream.new ≡ stream.old) × (gate.new ≡ gate.old) }
        ensures limit { self.new.limit ≡ limit_after self.old.limit result }
        ensures none_put { G.was_put gate.new ≡ G.was_put gate.old }
    {
        self.limit.begin()?;
        match self.write_lists(alloc, stream, gate) {
            Ok(wrote) => Ok(wrote),
            Err(fault) => {
                self.limit.fail(fault);
                Err(fault)
            }
        }
    }

    /// Takes queued lists as a step does, and writes what they have for this link by one prompt write. `true` if that
    /// was all: no list was left, the stream took each byte, and none of the lists closes this link.
    ///
    /// Else the rest is left to the next step: what the stream didn't take, the stream's failure, which it meets again,
    /// what was taken when memory ran out, and the end of a link that is closed. It isn't counted as a step, and does
    /// nothing if these are used up or the link is over.
    pub fn step_once<W: Prompt, G: Gate>(
        &mut self,
        alloc: Global,
        stream: &mut W,
        gate: &mut G,
    ) -> bool
        ensures writes { refusal self.old.limit ≡ None → WritesOnce self.old self.new
            (G.was_taken gate.old) (G.was_taken gate.new) (W.contents stream.old) (W.contents stream.new) }
        ensures all { result ≡ true → (unwritten self.new ≡ []) × (self.new.is_closing ≡ false) }
        ensures tries { TriesOnce W.did_try stream.old stream.new }
        ensures refused { (fault : Fault) → refusal self.old.limit ≡ Some fault → (result ≡ false)
            × (self.new ≡ self.old) × (stream.new ≡ stream.old) × (gate.new ≡ gate.old) }
        ensures limit { self.new.limit ≡ self.old.limit }
        ensures none_put { G.was_put gate.new ≡ G.was_put gate.old }
    {
        if self.limit.is_over() {
            return false;
        }
        self.try_lists(alloc, stream, gate)
    }

    /// A prompt step of a link that isn't over.
    fn try_lists<W: Prompt, G: Gate>(&mut self, alloc: Global, stream: &mut W, gate: &mut G) -> bool
        ensures writes { WritesOnce self.old self.new
            (G.was_taken gate.old) (G.was_taken gate.new) (W.contents stream.old) (W.contents stream.new) }
        ensures all { result ≡ true → (unwritten self.new ≡ []) × (self.new.is_closing ≡ false) }
        ensures tries { TriesOnce W.did_try stream.old stream.new }
        ensures limit { self.new.limit ≡ self.old.limit }
        ensures none_put { G.was_put gate.new ≡ G.was_put gate.old }
    {
        let Ok(is_more) = self.refill(alloc, gate) else {
            return false;
        };
        let is_written = self.try_pending(stream, gate);
        is_written && !is_more && !self.is_closing
    }

    /// Writes what is pending by one prompt write, and drops what the stream took. Whether that was all. Reports the
    /// frames that went out.
    fn try_pending<W: Prompt, G: Gate>(&mut self, stream: &mut W, gate: &G) -> bool
        ensures sent { HasSent self.old.bytes self.new.bytes (W.contents stream.old) (W.contents stream.new) }
        ensures left { self.new ≡ record self.old { bytes = self.new.bytes } }
        ensures all { result ≡ true → self.new.bytes ≡ [] }
        ensures tries { TriesOnce W.did_try stream.old stream.new }
    {
        if self.pending.is_empty() {
            return true;
        }
        match stream.write_promptly(self.pending.as_slice()) {
            Ok(count) if count == self.pending.len() => {
                self.sent.tell(gate, self.pending.as_slice(), 0);
                empty(&mut self.pending);
                true
            }
            Ok(count) => {
                self.tell_part(gate, count);
                self.pending.drain(..count);
                false
            }
            Err(_) => false,
        }
    }

    /// Reports what the stream has begun to take; it took this many bytes.
    fn tell_part<G: Gate>(&mut self, gate: &G, count: usize)
        requires { count ≤ length self.old.bytes }
        ensures { self.new ≡ self.old }
    {
        if count != 0 {
            let left = self.pending.len() - count;
            self.sent.tell(gate, self.pending.as_slice(), left);
        }
    }

    /// A step of a link that isn't over.
    fn write_lists<W: Sink, G: Gate>(
        &mut self,
        alloc: Global,
        stream: &mut W,
        gate: &mut G,
    ) -> Result<Wrote, LinkFault>
        ensures writes { Writes result self.old self.new
            (G.was_taken gate.old) (G.was_taken gate.new) (W.contents stream.old) (W.contents stream.new) }
        ensures failed { IfErr result (λ fault. fault ≡ LinkFault.WriteFailed → FailedWrite W.did_write stream.new) }
        ensures limit { self.new.limit ≡ self.old.limit }
        ensures none_put { G.was_put gate.new ≡ G.was_put gate.old }
    {
        self.refill(alloc, gate)?;
        let bytes = self.size()?;
        self.write_held(alloc, stream, gate)?;
        Ok(self.wrote(bytes))
    }

    /// How many bytes there are to be written. `AllocError` where a `u64` can't say it: no memory has so many.
    fn size(&self) -> Result<u64, AllocError>
        ensures { IfOk result (λ size. size ≡ length (unwritten self.now)) }
    {
        size_behind(self.link, self.pending.len() as u64, self.rest())
    }

    /// The rest of the list that is held: its items that aren't joined.
    fn rest(&self) -> &[LinkOut]
        ensures { map link_out_seen result.now ≡ self.now.held }
    {
        let (_, rest) = self.held.as_slice().split_at(self.joined);
        rest
    }

    /// Writes all there is: what is joined, and then, piece by piece, the rest of the list that is held.
    fn write_held<W: Sink, G: Gate>(
        &mut self,
        alloc: Global,
        stream: &mut W,
        gate: &mut G,
    ) -> Result<(), LinkFault>
        ensures sends { Sends result (unwritten self.old) (W.contents stream.old) (W.contents stream.new) }
        ensures all { OnOk result ((self.new.bytes ≡ []) × (self.new.held ≡ [])) }
        ensures left { self.new ≡ record self.old { bytes = self.new.bytes; held = self.new.held } }
        ensures failed { OnErr result (FailedWrite W.did_write stream.new) }
        ensures none_put { G.was_put gate.new ≡ G.was_put gate.old }
        ensures none_taken { G.was_taken gate.new ≡ G.was_taken gate.old }
    {
        self.write_joined(stream, gate)?;
        while self.joined < self.held.len() {
            self.write_piece(alloc, stream, gate)?;
        }
        Ok(())
    }

    /// Writes what is joined, and reports the frames that went out.
    fn write_joined<W: Sink, G: Gate>(
        &mut self,
        stream: &mut W,
        gate: &mut G,
    ) -> Result<(), LinkFault>
        ensures sends { Sends result self.old.bytes (W.contents stream.old) (W.contents stream.new) }
        ensures all { OnOk result (self.new ≡ record self.old { bytes = [] }) }
        ensures kept { OnErr result (self.new ≡ self.old) }
        ensures failed { OnErr result (FailedWrite W.did_write stream.new) }
        ensures none_put { G.was_put gate.new ≡ G.was_put gate.old }
        ensures none_taken { G.was_taken gate.new ≡ G.was_taken gate.old }
    {
        write_out(stream, self.pending.as_slice(), gate)?;
        self.sent.tell(gate, self.pending.as_slice(), 0);
        empty(&mut self.pending);
        Ok(())
    }

    /// Joins and writes a piece of the list that is held. Where memory for its first item is refused, that is written
    /// from where it stands.
    fn write_piece<W: Sink, G: Gate>(
        &mut self,
        alloc: Global,
        stream: &mut W,
        gate: &mut G,
    ) -> Result<(), LinkFault>
        requires written { self.old.bytes ≡ [] }
        requires some { 0 < length self.old.held }
        ensures sends { SendsPart result (unwritten self.old) (unwritten self.new)
            (W.contents stream.old) (W.contents stream.new) }
        ensures next { OnOk result ((self.new.bytes ≡ []) × (length self.new.held < length self.old.held)) }
        ensures left { self.new ≡ record self.old { bytes = self.new.bytes; held = self.new.held } }
        ensures failed { OnErr result (FailedWrite W.did_write stream.new) }
        ensures none_put { G.was_put gate.new ≡ G.was_put gate.old }
        ensures none_taken { G.was_taken gate.new ≡ G.was_taken gate.old }
    {
        if self.join_next(alloc).is_err() {
            return self.write_next(stream, gate);
        }
        // What memory is refused for now is joined next.
        let _ = self.join(alloc);
        self.write_joined(stream, gate)
    }

    /// Writes the next item of the list that is held from where it stands. Takes no memory.
    fn write_next<W: Sink, G: Gate>(
        &mut self,
        stream: &mut W,
        gate: &mut G,
    ) -> Result<(), LinkFault>
        requires some { 0 < length self.old.held }
        ensures sends { Sends result (next_bytes self.old.link self.old.held)
            (W.contents stream.old) (W.contents stream.new) }
        ensures next { OnOk result (self.new ≡ record self.old { held = drop 1 self.old.held }) }
        ensures kept { OnErr result (self.new ≡ self.old) }
        ensures failed { OnErr result (FailedWrite W.did_write stream.new) }
        ensures none_put { G.was_put gate.new ≡ G.was_put gate.old }
        ensures none_taken { G.was_taken gate.new ≡ G.was_taken gate.old }
    {
        let bytes = next_output(self.link, self.held.as_slice(), self.joined);
        write_out(stream, bytes, gate)?;
        self.sent.look(bytes);
        self.sent.tell(gate, bytes, 0);
        self.pass();
        Ok(())
    }

    /// What is reported of a step that wrote so many bytes: everything.
    fn wrote(&mut self, bytes: u64) -> Wrote
        ensures wrote { result ≡ record {
          bytes = bytes;
          taken = self.old.is_taken;
          closed = self.old.is_closing;
        } }
        ensures left { self.new ≡ record self.old { is_taken = false; is_closing = false } }
    {
        let wrote = Wrote {
            bytes,
            taken: self.is_taken,
            closed: self.is_closing,
        };
        self.is_taken = false;
        self.is_closing = false;
        wrote
    }

    /// Takes lists, and joins what they have for this link until it is enough. Whether there may be more: in the list
    /// that is held, or in the queue.
    fn refill<G: Gate>(&mut self, alloc: Global, gate: &mut G) -> Result<bool, AllocError>
        ensures refills { Refills self.old self.new (G.was_taken gate.old) (G.was_taken gate.new) }
        ensures all { IfOk result (λ more. more ≡ false → self.new.held ≡ []) }
        ensures none_put { G.was_put gate.new ≡ G.was_put gate.old }
    {
        self.join(alloc)?;
        for _ in 0..MOST_LISTS {
            if self.has_enough() {
                return Ok(true);
            }
            if !self.take_list(gate) {
                return Ok(false);
            }
            self.join(alloc)?;
        }
        Ok(true)
    }

    /// Whether what is joined is written before a further list is taken.
    fn has_enough(&self) -> bool
        requires until { IsAllOrEnough self.now }
        ensures closing { self.now.is_closing ≡ true → result ≡ true }
        ensures all { result ≡ false → self.now.held ≡ [] }
    {
        self.is_closing || self.pending.len() >= ENOUGH_BYTES
    }

    /// Takes a list, if there is one.
    fn take_list<G: Gate>(&mut self, gate: &mut G) -> bool
        requires { self.old.held ≡ [] }
        ensures takes { TakesList result self.old self.new (G.was_taken gate.old) (G.was_taken gate.new) }
        ensures none_put { G.was_put gate.new ≡ G.was_put gate.old }
    {
        let Some(outs) = gate.take() else {
            return false;
        };
        self.is_taken = true;
        self.is_closing = self.is_closing || closes_link(Some(self.link), outs.as_slice());
        self.held = outs;
        self.joined = 0;
        true
    }

    /// Joins the rest of the list that is held, where there is some, until there are enough bytes to be written. If
    /// memory runs out the rest is kept.
    fn join(&mut self, alloc: Global) -> Result<(), AllocError>
        ensures joins { Joins self.old self.new }
        ensures fewer { length self.new.held ≤ length self.old.held }
        ensures until { OnOk result (IsAllOrEnough self.new) }
    {
        if self.joined == self.held.len() {
            return Ok(());
        }
        while self.pending.len() < ENOUGH_BYTES {
            if !self.join_next(alloc)? {
                return Ok(());
            }
        }
        Ok(())
    }

    /// Joins the next item of that list. One growth. Whether there is a further one.
    fn join_next(&mut self, _alloc: Global) -> Result<bool, AllocError>
        requires some { 0 < length self.old.held }
        ensures joins { Joins self.old self.new }
        ensures next { OnOk result (length self.old.held ≡ length self.new.held + 1) }
        ensures more { IfOk result (λ more. more ≡ not (length self.new.held == 0)) }
        ensures kept { OnErr result (self.new ≡ self.old) }
    {
        let bytes = next_output(self.link, self.held.as_slice(), self.joined);
        self.pending.extend_from_slice(bytes)?;
        self.sent.look(bytes);
        Ok(self.pass())
    }

    /// Goes on behind the next item of that list, and behind the last one gives the list's memory back. Whether there
    /// is a further one.
    fn pass(&mut self) -> bool
        requires some { 0 < length self.old.held }
        ensures next { self.new ≡ record self.old { held = drop 1 self.old.held } }
        ensures more { result ≡ not (length self.new.held == 0) }
    {
        let count = self.held.len();
        self.joined += 1;
        if self.joined < count {
            return true;
        }
        self.held = ShortList::new();
        self.joined = 0;
        false
    }
}

/// Drops these bytes. Their memory is kept for the next ones, unless it is that of a long answer.
fn empty(bytes: &mut Vec<u8>)
    ensures { bytes.new.items ≡ [] }
{
    if bytes.capacity() > MOST_KEPT {
        *bytes = Vec::new(*bytes.allocator());
    } else {
        bytes.clear();
    }
}

/// What the next item says is to be written onto this link, where so many are joined.
fn next_output(link: u64, held: &[LinkOut], joined: usize) -> &[u8]
    requires { joined ≤ length held.now }
    ensures { result.now ≡ next_bytes link (map link_out_seen (drop joined held.now)) }
{
    let (_, rest) = held.split_at(joined);
    match rest.split_first() {
        Some((out, _)) => output_bytes(link, out),
        None => &[],
    }
}

/// What an item says is to be written onto this link.
fn output_bytes(link: u64, out: &LinkOut) -> &[u8]
    ensures { result.now ≡ bytes_of_output link (link_out_seen out.now) }
{
    match out {
        LinkOut::Write { link: to, bytes } => {
            if *to == link {
                return bytes.as_slice();
            }
            &[]
        }
        LinkOut::Close { .. } => &[],
    }
}

/// So many bytes, and those that these items say are to be written onto this link. `AllocError` where a `u64` can't say
/// how many.
fn size_behind(link: u64, front: u64, outs: &[LinkOut]) -> Result<u64, AllocError>
    ensures { IfOk result (λ size. size ≡ front + length (link_bytes link (map link_out_seen outs.now))) }
{
    let mut size = front;
    let mut rest = outs;
    while let Some((out, behind)) = rest.split_first() {
        let count = output_bytes(link, out).len() as u64;
        size = size.checked_add(count).ok_or(AllocError)?;
        rest = behind;
    }
    Ok(size)
}

/// Writes all of these bytes. A write that takes none of some has failed.
fn write_out<W: Sink, G: Gate>(stream: &mut W, bytes: &[u8], gate: &mut G) -> Result<(), LinkFault>
    ensures sends { Sends result bytes.now (W.contents stream.old) (W.contents stream.new) }
    ensures failed { OnErr result (FailedWrite W.did_write stream.new) }
    ensures none_put { G.was_put gate.new ≡ G.was_put gate.old }
    ensures none_taken { G.was_taken gate.new ≡ G.was_taken gate.old }
{
    let mut rest = bytes;
    while !rest.is_empty() {
        match write_patiently(stream, rest, gate) {
            Ok(0) | Err(_) => return Err(LinkFault::WriteFailed),
            Ok(count) => {
                let (_, left) = rest.split_at(count);
                rest = left;
            }
        }
    }
    Ok(())
}

#[tactic(auto, using(crate::proofs::Sending::kept_writes))]
/// Writes once. A write that only took too long is tried again, unless the link holds up others.
fn write_patiently<W: Sink, G: Gate>(
    stream: &mut W,
    bytes: &[u8],
    gate: &mut G,
) -> io::Result<usize>
    ensures bound { WritesAtMost result bytes.now }
    ensures bytes { WriteAppends (W.contents stream.old) (W.contents stream.new) result bytes.now }
    ensures took { IfOk result (λ count. (old : W) × W.did_write old bytes.now (Some count) stream.new) }
    ensures failed { OnErr result ((old : W) × W.did_write old bytes.now None stream.new) }
    ensures none_put { G.was_put gate.new ≡ G.was_put gate.old }
    ensures none_taken { G.was_taken gate.new ≡ G.was_taken gate.old }
{
    for _ in 1..MOST_WRITES {
        match stream.write_once(bytes) {
            Ok(count) => return Ok(count),
            Err(error) => {
                if !took_long(error.kind()) || gate.holds_up_others() {
                    return Err(error);
                }
            }
        }
    }
    stream.write_once(bytes)
}

/// Whether a write that failed so only took too long.
fn took_long(kind: ErrorKind) -> bool {
    matches!(kind, ErrorKind::WouldBlock | ErrorKind::TimedOut)
}
