//! What a shared writer's lock guards.

ghost use Rattle.std.specs.Prelude.{◌≡◌, ◌≤◌, ◌+◌, [], None, Some, true, false, IfOk, IfErr, OnOk};
ghost use Rattle.gate_workers.specs.WritersWork.{LineWritten};
ghost use Rattle.gate_workers.specs.Steps.{step_end};
ghost use Rattle.gate_workers.specs.SharedWriters.{WriterKept, SameLink, LinkTried, NothingHeld, Opens, OpensAs};
ghost use Rattle.gate_workers.specs.SharedWriters.{StepsWriter};

use crate::ending::ends_link;
use crate::link::Link;
use crate::stepped::Stepped;
use crate::writer::WriterEnd;
use link_io::{BatchWriter, Gate, LinkFault, Prompt, Wrote};
use std::alloc::{AllocError, Global};
use std::snapshot::Snapshot;
use std::sync::Wait;

/// A handle to the core, and the link that is being written.
///
/// It holds, whoever wrote: of the link's bytes in the lists taken since it was opened, in order, the first ones are on
/// its stream, behind what was there, and the rest is kept.
#[derive(Drop)]
pub struct Work<W: Prompt + Drop, G: Gate + Drop> {
    gate: G,
    /// How many links were opened.
    links: u64,
    link: Option<Link<W, G>>,
    ghost kept: { ∥ WriterKept W.contents G.was_taken links link gate ∥₁ },
}

impl<W: Prompt + Drop, G: Gate + Drop> Work<W, G> {
    /// Over this handle, from which nothing was taken.
    pub fn new(gate: G) -> Work<W, G>
        requires fresh { G.was_taken gate ≡ [] }
        ensures gate { result.gate ≡ gate }
        ensures link { (result.link ≡ None) × (result.links ≡ 0) }
    {
        Work {
            gate,
            links: 0,
            link: None,
        }
    }

    /// Opens link number `link` of the client or port `number` on this stream, with this many steps, 1 or more. The
    /// stream comes back if a link is open already, or this isn't the next one: links are numbered from 1.
    pub fn open(
        &mut self,
        alloc: Global,
        number: u16,
        link: u64,
        steps: u64,
        stream: W,
    ) -> Result<(), W>
        requires from_one { 1 ≤ steps }
        ensures opens { OnOk result (Opens self.old.gate stream self.new.link) }
        ensures writer { OnOk result (OpensAs number link steps self.new.link) }
        ensures links { OnOk result ((self.new.links ≡ self.old.links + 1) × (self.new.links ≡ link)) }
        ensures back { IfErr result (λ back. (back ≡ stream) × (self.new.link ≡ self.old.link)
            × (self.new.links ≡ self.old.links)) }
        ensures gate { self.new.gate ≡ self.old.gate }
    {
        match &self.link {
            Some(_) => return Err(stream),
            None => {}
        }
        let Some(links) = self.links.checked_add(1) else {
            return Err(stream);
        };
        if links != link {
            return Err(stream);
        }
        let gate_then = Snapshot::of(&self.gate);
        let stream_then = Snapshot::of(&stream);
        let writer = BatchWriter::new(alloc, number, links, steps);
        self.links = links;
        self.link = Some(Link {
            writer,
            stream,
            gate_then,
            stream_then,
        });
        Ok(())
    }

    /// Takes queued lists, and writes what they have for the link by one prompt write. `true` if that was all and none
    /// of them closes the link; else the rest is left to the next step (`BatchWriter::step_once`).
    pub fn write(&mut self, alloc: Global) -> bool
        ensures same { SameLink self.old.link self.new.link }
        ensures tries { LinkTried W.did_try self.old.link self.new.link }
        ensures all { result ≡ true → NothingHeld self.new.link }
        ensures links { self.new.links ≡ self.old.links }
        ensures none_put { G.was_put self.new.gate ≡ G.was_put self.old.gate }
    {
        match &mut self.link {
            Some(link) => link
                .writer
                .step_once(alloc, &mut link.stream, &mut self.gate),
            None => false,
        }
    }

    /// A step of the link's writer. If it ends the link (closed, stopped or a fault), the stream comes back.
    pub fn step(&mut self, alloc: Global, is_stopped: bool) -> Stepped<W>
        ensures steps { StepsWriter W.contents G.was_taken result self.old.links self.old.link self.new.link
            self.new.gate }
        ensures links { self.new.links ≡ self.old.links }
        ensures none_put { G.was_put self.new.gate ≡ G.was_put self.old.gate }
    {
        let Some(mut link) = self.link.take() else {
            return Stepped::NoLink;
        };
        let wrote = link.writer.step(alloc, &mut link.stream, &mut self.gate);
        if let Some(end) = ended(wrote, is_stopped) {
            let Link {
                writer: _,
                stream,
                gate_then: _,
                stream_then: _,
            } = link;
            return Stepped::Over(end, stream);
        }
        self.link = Some(link);
        if has_taken(wrote) {
            Stepped::Taken
        } else {
            Stepped::Nothing
        }
    }

    /// Drops one queued list, if no link is open and one was: it is for links that are over. Whether there was one.
    pub fn let_go(&mut self) -> bool
        ensures link { (self.new.link ≡ self.old.link) × (self.new.links ≡ self.old.links) }
        ensures none_put { G.was_put self.new.gate ≡ G.was_put self.old.gate }
    {
        match &self.link {
            Some(_) => return false,
            None => {}
        }
        if self.links == 0 {
            return false;
        }
        self.gate.take().is_some()
    }

    /// Steps the core, as the handle does.
    pub fn turn<R: Wait>(&mut self, rt: &R, alloc: Global) -> Result<u32, AllocError>
        ensures link { (self.new.link ≡ self.old.link) × (self.new.links ≡ self.old.links) }
        ensures none_put { G.was_put self.new.gate ≡ G.was_put self.old.gate }
        ensures none_taken { G.was_taken self.new.gate ≡ G.was_taken self.old.gate }
    {
        self.gate.turn(rt, alloc)
    }

    /// The handle, if no link is open; else all as it was.
    pub fn into_gate(self) -> Result<G, Work<W, G>>
        ensures gate { IfOk result (λ gate. gate ≡ self.gate) }
        ensures written { IfOk result (λ gate. ∥ LineWritten [] (G.was_taken gate) ∥₁) }
    {
        match &self.link {
            Some(_) => return Err(self),
            None => {}
        }
        let Work {
            gate,
            links: _,
            link: _,
        } = self;
        Ok(gate)
    }
}

/// How a link ended by such a step, if it did.
fn ended(wrote: Result<Wrote, LinkFault>, is_stopped: bool) -> Option<Result<WriterEnd, LinkFault>>
    ensures { result ≡ step_end wrote is_stopped }
{
    match wrote {
        Ok(wrote) => {
            if wrote.closed {
                return Some(Ok(WriterEnd::Closed));
            }
            if is_stopped && !wrote.taken {
                return Some(Ok(WriterEnd::Stopped));
            }
            None
        }
        Err(fault) => {
            if ends_link(fault) {
                return Some(Err(fault));
            }
            None
        }
    }
}

/// Whether a step took a list.
fn has_taken(wrote: Result<Wrote, LinkFault>) -> bool {
    match wrote {
        Ok(wrote) => wrote.taken,
        Err(_) => false,
    }
}
