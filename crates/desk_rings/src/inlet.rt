//! The end by which one thread puts events.

use crate::finished::{Finished, FinishedEnd};
use crate::name::DeskName;
use gate_events::{Event, Source};
use rtrb::Producer;
use std::marker::{Model, PhantomData};

/// The producer's end of a queue of events, all of one source. Contracts see its position, its source, what was put,
/// and for how many more events it knows room.
pub struct Inlet<K: DeskName> {
    at: usize,
    source: Source,
    producer: Producer<Event>,
    of: PhantomData<K>,
}

// Not derived: then each way out drops it in one call (docs/DECISIONS.md, "Drops").
impl<K: DeskName> Drop for Inlet<K> {
    fn drop(self) {
        let Inlet {
            at: _,
            source: _,
            producer: _,
            of: _,
        } = self;
    }
}

impl<K: DeskName> Model for Inlet<K> {
    ghost use Rattle.std.specs.Prelude.{◌≡◌, Some, slice_get};
    ghost use Rattle.rtrb.specs.Ring.{sent, known_free};
    ghost use Rattle.gate_events.specs.Sources.{events_from};
    ghost use Rattle.desk_rings.specs.Rings.{Putting, producer_ring};

    ghost Value = { Putting };

    ghost view = { λ s. record {
      at = s.at;
      source = s.source;
      put = sent s.producer;
      free = known_free s.producer;
    } };

    ghost invariant = { λ s. (slice_get K.inlets s.at ≡ Some (record {
      source = s.source;
      ring = producer_ring s.producer;
    })) × (events_from s.source (sent s.producer) ≡ sent s.producer) };
}

impl<K: DeskName> Inlet<K> {
    ghost use Rattle.std.specs.Prelude.{◌≡◌, ◌<◌, ◌+◌, ◌≤◌, ◌++◌, [], ◌∷◌, Some, true, IfSome, IfErr, IsOk, OnOk};
    ghost use Rattle.std.specs.Prelude.{slice_get};
    ghost use Rattle.rtrb.specs.Ring.{sent, known_free};
    ghost use Rattle.gate_events.specs.Sources.{is_from};
    ghost use Rattle.desk_rings.specs.Rings.{NamedInlet, producer_ring, put_at};

    /// The end of a queue through which nothing went yet, at its position.
    pub fn new(at: usize, source: Source, producer: Producer<Event>) -> Inlet<K>
        requires named { slice_get K.inlets at ≡ Some (record { source = source; ring = producer_ring producer }) }
        requires empty { sent producer ≡ [] }
        ensures { (result.at ≡ at) × (result.source ≡ source) × (result.put ≡ [])
            × (result.free ≡ known_free producer) }
    {
        Inlet {
            at,
            source,
            producer,
            of: PhantomData,
        }
    }

    /// Its position among the desk's inlets.
    pub fn position(&self) -> usize
        ensures { result ≡ self.now.at }
    {
        self.at
    }

    /// Whose events it puts.
    pub fn source(&self) -> Source
        ensures value { result ≡ self.now.source }
        ensures named { (name : NamedInlet) → slice_get K.inlets self.now.at ≡ Some name → result ≡ name.source }
    {
        self.source
    }

    /// Puts an event of its source, or gives it back if it knows of no free place.
    pub fn put(&mut self, event: Event) -> Result<(), Event>
        requires own { is_from self.old.source event ≡ true }
        ensures same { (self.new.at ≡ self.old.at) × (self.new.source ≡ self.old.source) }
        ensures ok { OnOk result ((self.new.put ≡ self.old.put ++ event ∷ []) × (self.old.free ≤ self.new.free + 1)) }
        ensures full { IfErr result (λ e. (e ≡ event) × (self.new.put ≡ self.old.put) × (self.new.free ≡ 0)) }
        ensures succeeds { 0 < self.old.free → IsOk result }
    {
        // Not by `push`: an event is large, and is moved once where no answer may have it.
        if self.producer.is_full() {
            return Err(event);
        }
        self.producer.push_reserved(event);
        Ok(())
    }

    /// Ends the inlet, and says what was put. `None` if the desk is gone.
    pub fn finish(self) -> Option<Finished<K>>
        ensures { IfSome result (λ f. f ≡ put_at self.at self.source self.put) }
    {
        let Inlet {
            at,
            source,
            producer,
            of: _,
        } = self;
        let put = producer.finish()?;
        Some(Finished::new(at, FinishedEnd::Put(source, put)))
    }
}
