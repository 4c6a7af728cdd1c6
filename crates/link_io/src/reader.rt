//! The reader of a link: reads its stream and puts the events that the bytes make.

ghost use Rattle.std.specs.Prelude.{◌≡◌, ◌≤◌, ◌-◌, None, Some, Err, true, false, [], ◌++◌, OnOk, OnErr, IfOk};
ghost use Rattle.gate_events.specs.Seen.{event_seen};
ghost use Rattle.link_io.specs.Limits.{refusal, limit_after};
ghost use Rattle.link_io.specs.Reading.{FeedsPiece, Gave, HasNothing, Offers, Puts, PutsNext, Reads};
ghost use Rattle.link_io.specs.Answered.{ReadsBy};
ghost use Rattle.link_decoders.specs.Decoding.{MadeOfFrames, MadeOfPackets};
ghost use Rattle.link_io.specs.declared.link_fault.LinkFault.{LinkFault as Fault};

use crate::gate::Gate;
use crate::limit::Limit;
use crate::link_fault::LinkFault;
use crate::next::Next;
use crate::piece::Piece;
use crate::progress::Progress;
use crate::streams::Source;
use gate_events::{ClientNumber, Event, PortNumber};
use link_decoders::{ClientFrames, Decoder, PortPackets};
use std::alloc::{AllocError, Global};
use std::marker::Model;

/// Reads a link's stream, and puts the events that its decoder makes of the bytes.
///
/// Contracts see the decoder, bytes that were read and not decoded because memory ran out, and an event that was given
/// back.
#[derive(Drop)]
pub struct Reader<D> {
    decoder: D,
    piece: Piece,
    offered: Option<Event>,
    limit: Limit,
}

/// The reader of a client's link.
pub type ClientReader = Reader<ClientFrames>;

/// The reader of a port's link.
pub type PortReader = Reader<PortPackets>;

impl<D> Model for Reader<D> {
    ghost use Rattle.std.specs.Option.{option_map};
    ghost use Rattle.gate_events.specs.Seen.{event_seen};
    ghost use Rattle.link_io.specs.Reading.{Reading};

    ghost Value = { Reading D };

    ghost view = { λ r. record {
      decoder = r.decoder;
      piece = r.piece;
      offered = option_map event_seen r.offered;
      limit = r.limit;
    } };
}

impl Reader<ClientFrames> {
    /// The reader of a client's link. Its step number `steps`, 1 or more, answers `StepLimit`. Takes no memory.
    pub fn new(alloc: Global, client: ClientNumber, link: u64, steps: u64) -> ClientReader
        requires from_one { 1 ≤ steps }
        ensures begins { Gave MadeOfFrames [] [] result }
        ensures fresh { result.offered ≡ None }
        ensures source { (result.decoder.client ≡ client) × (result.decoder.link ≡ link) }
        ensures limit { result.limit ≡ record { left = steps - 1; over = None } }
    {
        Reader::with(ClientFrames::new(alloc, client, link), steps)
    }
}

impl Reader<PortPackets> {
    /// The reader of a port's link. Its step number `steps`, 1 or more, answers `StepLimit`. Takes no memory.
    pub fn new(alloc: Global, port: PortNumber, link: u64, steps: u64) -> PortReader
        requires from_one { 1 ≤ steps }
        ensures begins { Gave MadeOfPackets [] [] result }
        ensures fresh { result.offered ≡ None }
        ensures source { (result.decoder.port ≡ port) × (result.decoder.link ≡ link) }
        ensures limit { result.limit ≡ record { left = steps - 1; over = None } }
    {
        Reader::with(PortPackets::new(alloc, port, link), steps)
    }
}

impl<D: Decoder> Reader<D> {
    /// The reader of a link, over the decoder that makes its events.
    pub(crate) fn with(decoder: D, steps: u64) -> Reader<D>
        requires from_one { 1 ≤ steps }
        ensures { result ≡ record {
          decoder = decoder;
          piece = [];
          offered = None;
          limit = record { left = steps - 1; over = None };
        } }
    {
        Reader {
            decoder,
            piece: Piece::new(),
            offered: None,
            limit: Limit::new(steps),
        }
    }

    /// Puts what was given back and what is still to be made of earlier bytes; then reads once, at most 4,096 bytes,
    /// and puts an event for each message that is whole now, with this moment (milliseconds since 1970).
    ///
    /// `ReadFailed` if the read failed; `Malformed` if too long a frame or an empty packet follows: the events before
    /// it are put. `StepLimit` at the last step, which reads nothing. After `NoMemory` what was read is kept, and the
    /// next step goes on with it. After any other fault each step answers the same and does nothing.
    pub fn step<R: Source, G: Gate>(
        &mut self,
        alloc: Global,
        stream: &mut R,
        gate: &mut G,
        at: u64,
    ) -> Result<Progress, LinkFault>
        ensures reads { refusal self.old.limit ≡ None → Reads D.made D.are_all at result self.old self.new
            (G.was_put gate.old) (G.was_put gate.new) (R.remaining stream.old) (R.remaining stream.new) }
        ensures answered { refusal self.old.limit ≡ None → ReadsBy R.did_read result stream.old stream.new }
        ensures refused { (fault : Fault) → refusal self.old.limit ≡ Some fault
            → (result ≡ Err fault) × (stream.new ≡ stream.old) × (gate.new ≡ gate.old) }
        ensures limit { self.new.limit ≡ limit_after self.old.limit result }
        ensures source { D.source self.new.decoder ≡ D.source self.old.decoder }
        ensures none_taken { G.was_taken gate.new ≡ G.was_taken gate.old }
    {
        self.limit.begin()?;
        match self.read_on(alloc, stream, gate, at) {
            Ok(progress) => Ok(progress),
            Err(fault) => {
                self.limit.fail(fault);
                Err(fault)
            }
        }
    }

    /// How many bytes were skipped because they are part of no message; on a port's link none are. Takes no memory.
    pub fn skipped(&self) -> u64
        ensures { result ≡ D.skips self.now.decoder }
    {
        self.decoder.skipped()
    }

    /// A step of a link that isn't over.
    fn read_on<R: Source, G: Gate>(
        &mut self,
        alloc: Global,
        stream: &mut R,
        gate: &mut G,
        at: u64,
    ) -> Result<Progress, LinkFault>
        ensures reads { Reads D.made D.are_all at result self.old self.new
            (G.was_put gate.old) (G.was_put gate.new) (R.remaining stream.old) (R.remaining stream.new) }
        ensures answered { ReadsBy R.did_read result stream.old stream.new }
        ensures limit { self.new.limit ≡ self.old.limit }
        ensures source { D.source self.new.decoder ≡ D.source self.old.decoder }
        ensures none_taken { G.was_taken gate.new ≡ G.was_taken gate.old }
    {
        if !self.put_rest(alloc, gate, at)? {
            return Ok(Progress::Held);
        }
        let count = self.piece.fill(stream)?;
        if count == 0 {
            return Ok(Progress::Ended);
        }
        if !self.put_all(alloc, gate, at)? {
            return Ok(Progress::Held);
        }
        Ok(Progress::Read(count))
    }

    /// Puts what is left of earlier steps: mostly nothing is. Whether all was put.
    fn put_rest<G: Gate>(&mut self, alloc: Global, gate: &mut G, at: u64) -> Result<bool, LinkFault>
        ensures puts { Puts D.made D.are_all at result self.old self.new (G.was_put gate.old) (G.was_put gate.new) }
        ensures limit { self.new.limit ≡ self.old.limit }
        ensures source { D.source self.new.decoder ≡ D.source self.old.decoder }
        ensures none_taken { G.was_taken gate.new ≡ G.was_taken gate.old }
    {
        if self.has_nothing() {
            return Ok(true);
        }
        self.put_all(alloc, gate, at)
    }

    /// Whether no event was given back, and no byte lies there of which one could be made.
    fn has_nothing(&self) -> bool
        ensures { result ≡ true → HasNothing D.made D.are_all D.to_make self.now }
    {
        self.offered.is_none() && self.piece.as_slice().is_empty() && self.decoder.is_idle()
    }

    /// Puts what was given back and what can be made of what was read. Whether all was put.
    fn put_all<G: Gate>(&mut self, alloc: Global, gate: &mut G, at: u64) -> Result<bool, LinkFault>
        ensures puts { Puts D.made D.are_all at result self.old self.new (G.was_put gate.old) (G.was_put gate.new) }
        ensures limit { self.new.limit ≡ self.old.limit }
        ensures source { D.source self.new.decoder ≡ D.source self.old.decoder }
        ensures none_taken { G.was_taken gate.new ≡ G.was_taken gate.old }
    {
        if !self.offer(gate) {
            return Ok(false);
        }
        self.feed(alloc)?;
        loop {
            let next = self.put_next(alloc, gate, at)?;
            match next {
                Next::Put => {}
                Next::GivenBack => return Ok(false),
                Next::Nothing => return Ok(true),
            }
        }
    }

    /// Puts the event that was given back, if there is one. Whether it is gone.
    fn offer<G: Gate>(&mut self, gate: &mut G) -> bool
        ensures offers { Offers result self.old self.new (G.was_put gate.old) (G.was_put gate.new) }
        ensures none_taken { G.was_taken gate.new ≡ G.was_taken gate.old }
    {
        if self.offered.is_none() {
            return true;
        }
        self.offer_again(gate)
    }

    /// The same where there is one: in a function of its own, since each that holds an event pays for its size.
    fn offer_again<G: Gate>(&mut self, gate: &mut G) -> bool
        ensures offers { Offers result self.old self.new (G.was_put gate.old) (G.was_put gate.new) }
        ensures none_taken { G.was_taken gate.new ≡ G.was_taken gate.old }
    {
        match self.offered.take() {
            Some(event) => self.put_event(gate, event),
            None => true,
        }
    }

    /// Puts an event, and keeps it where it is given back. Whether it is gone.
    fn put_event<G: Gate>(&mut self, gate: &mut G, event: Event) -> bool
        requires { self.old.offered ≡ None }
        ensures offers { Offers result (record self.old { offered = Some (event_seen event) }) self.new
            (G.was_put gate.old) (G.was_put gate.new) }
        ensures none_taken { G.was_taken gate.new ≡ G.was_taken gate.old }
    {
        match gate.put(event) {
            Ok(()) => true,
            Err(back) => {
                self.offered = Some(back);
                false
            }
        }
    }

    /// Hands the decoder what was read. If memory runs out it is kept.
    fn feed(&mut self, alloc: Global) -> Result<(), AllocError>
        ensures ok { OnOk result (FeedsPiece D.made self.old self.new) }
        ensures err { OnErr result (self.new ≡ self.old) }
        ensures limit { self.new.limit ≡ self.old.limit }
        ensures source { D.source self.new.decoder ≡ D.source self.old.decoder }
    {
        self.decoder.feed(alloc, self.piece.as_slice())?;
        self.piece.clear();
        Ok(())
    }

    /// Makes the next event, and puts it.
    fn put_next<G: Gate>(&mut self, alloc: Global, gate: &mut G, at: u64) -> Result<Next, LinkFault>
        requires put { self.old.offered ≡ None }
        requires fed { self.old.piece ≡ [] }
        ensures puts { PutsNext D.made D.are_all D.to_make at result self.old self.new
            (G.was_put gate.old) (G.was_put gate.new) }
        ensures limit { self.new.limit ≡ self.old.limit }
        ensures source { D.source self.new.decoder ≡ D.source self.old.decoder }
        ensures none_taken { G.was_taken gate.new ≡ G.was_taken gate.old }
    {
        if self.decoder.is_idle() {
            return Ok(Next::Nothing);
        }
        self.put_made(alloc, gate, at)
    }

    /// The same where there may be one: in a function of its own, since each that holds an event pays for its size.
    fn put_made<G: Gate>(&mut self, alloc: Global, gate: &mut G, at: u64) -> Result<Next, LinkFault>
        requires put { self.old.offered ≡ None }
        requires fed { self.old.piece ≡ [] }
        ensures puts { PutsNext D.made D.are_all D.to_make at result self.old self.new
            (G.was_put gate.old) (G.was_put gate.new) }
        ensures limit { self.new.limit ≡ self.old.limit }
        ensures source { D.source self.new.decoder ≡ D.source self.old.decoder }
        ensures none_taken { G.was_taken gate.new ≡ G.was_taken gate.old }
    {
        match self.decoder.make(alloc, at) {
            Ok(made) => match made {
                Some(event) => {
                    if self.put_event(gate, event) {
                        Ok(Next::Put)
                    } else {
                        Ok(Next::GivenBack)
                    }
                }
                None => Ok(Next::Nothing),
            },
            Err(fault) => Err(LinkFault::from(fault)),
        }
    }
}
