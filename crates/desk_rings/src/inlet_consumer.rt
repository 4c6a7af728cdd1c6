//! The desk's end of an inlet's queue.

use gate_events::{Event, Source};
use rtrb::{Consumer, Finished};
use std::marker::Model;

/// The desk's end of an inlet's queue, from which events come. Contracts see its queue and source, what it gave, and
/// what it knows to be in the queue.
#[derive(Drop)]
pub struct InletConsumer {
    source: Source,
    consumer: Consumer<Event>,
}

impl Model for InletConsumer {
    ghost use Rattle.rtrb.specs.Ring.{received, known_items};
    ghost use Rattle.desk_rings.specs.Rings.{consumer_ring};
    ghost use Rattle.desk_rings.specs.CoreEnds.{InletConsumerState};

    ghost Value = { InletConsumerState };

    ghost view = { λ s. record {
      name = record { source = s.source; ring = consumer_ring s.consumer };
      gave = received s.consumer;
      known = known_items s.consumer;
    } };
}

impl InletConsumer {
    ghost use Rattle.std.specs.Prelude.{◌≡◌, ◌<◌, ◌↔◌, ◌++◌, Some, IsTrue, length, slice_get};
    ghost use Rattle.rtrb.specs.Ring.{all_sent, received, known_items};
    ghost use Rattle.desk_rings.specs.Rings.{consumer_ring, finished_ring};
    ghost use Rattle.desk_rings.specs.CoreEnds.{ConsumerGave, ConsumerLooked};

    /// The end of a queue of a source's events.
    pub fn new(source: Source, consumer: Consumer<Event>) -> InletConsumer
        ensures name { result.name ≡ record { source = source; ring = consumer_ring consumer } }
        ensures events { (result.gave ≡ received consumer) × (result.known ≡ known_items consumer) }
    {
        InletConsumer { source, consumer }
    }

    /// Whose events it gives.
    pub fn source(&self) -> Source
        ensures { result ≡ self.now.name.source }
    {
        self.source
    }

    /// Whether it knows of no event, after a look into the queue if it knew of none.
    pub fn is_empty(&mut self) -> bool
        ensures looked { ConsumerLooked self.old self.new }
        ensures value { IsTrue result ↔ (length self.new.known ≡ 0) }
    {
        self.consumer.is_empty()
    }

    /// How many events it knows to be in the queue, without a look.
    pub fn known(&self) -> usize
        ensures { result ≡ length self.now.known }
    {
        self.consumer.cached_slots()
    }

    /// The first event that it knows of.
    pub fn front(&self) -> &Event
        requires some { 0 < length self.now.known }
        ensures { slice_get self.now.known 0 ≡ Some result.now }
    {
        self.consumer.peek_known()
    }

    /// Gives the first event that it knows of.
    pub fn pop(&mut self) -> Event
        requires some { 0 < length self.old.known }
        ensures { ConsumerGave result self.old self.new }
    {
        self.consumer.pop_known()
    }

    /// Looks into the queue of an inlet that has finished: what it knows of then is all that is left.
    pub(crate) fn look_after(&mut self, finished: &mut Finished<Event>)
        requires own { finished_ring finished.old ≡ self.old.name.ring }
        ensures looked { ConsumerLooked self.old self.new }
        ensures finished { (finished_ring finished.new ≡ finished_ring finished.old)
            × (all_sent finished.new ≡ all_sent finished.old) }
        ensures all { self.new.gave ++ self.new.known ≡ all_sent finished.old }
    {
        self.consumer.slots_after(finished);
    }
}
