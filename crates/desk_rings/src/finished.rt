//! What remains of a queue's end that has finished.

ghost use Rattle.std.specs.Prelude.{◌≡◌, ◌<◌, ◌++◌, Some, slice_get, length};
ghost use mathlib.Core.List.{IsPrefix};
ghost use Rattle.rtrb.specs.Ring.{all_sent, received};
ghost use Rattle.desk_rings.specs.Rings.{consumer_ring, finished_ring};
ghost use Rattle.desk_rings.specs.CoreEnds.{InletConsumerState, ConsumersLooked, ConsumersStayBut, OutletProducerState};
ghost use Rattle.desk_rings.specs.CoreEnds.{ProducersLooked};

use crate::inlet_consumer::InletConsumer;
use crate::name::DeskName;
use crate::outlet_producer::OutletProducer;
use gate_events::{Event, Output, Recipient, Source};
use rtrb::Consumer;
use std::marker::{Model, PhantomData};

/// What remains of an end that has finished. Contracts see its position, and what was put or taken.
#[derive(Drop)]
pub struct Finished<K: DeskName> {
    at: usize,
    end: FinishedEnd,
    of: PhantomData<K>,
}

/// The queue's end itself.
#[derive(Drop)]
pub enum FinishedEnd {
    /// An inlet's, of this source.
    Put(Source, rtrb::Finished<Event>),
    /// An outlet's, for this client or port.
    Took(Recipient, Consumer<Output>),
}

impl<K: DeskName> Model for Finished<K> {
    ghost use Rattle.desk_rings.specs.Rings.{Done};

    ghost Value = { Done };

    ghost use Rattle.desk_rings.specs.Ends.{done_of, IsNamedEnd};

    ghost view = { λ s. done_of s.at s.end };

    ghost invariant = { λ s. IsNamedEnd K.inlets K.outlets s.at s.end };
}

impl<K: DeskName> Finished<K> {
    ghost use Rattle.std.specs.Prelude.{◌≡◌, map};
    ghost use Rattle.desk_rings.specs.Ends.{done_of, inlet_of, position_of, IsNamedEnd};
    ghost use Rattle.desk_rings.specs.CoreEnds.{consumer_name, producer_name, IsBorneOut, ConsumersLooked};
    ghost use Rattle.desk_rings.specs.CoreEnds.{ConsumersStayBut, ProducersLooked};

    /// What remains of the end of the queue at a position.
    pub fn new(at: usize, end: FinishedEnd) -> Finished<K>
        requires named { IsNamedEnd K.inlets K.outlets at end }
        ensures { result ≡ done_of at end }
    {
        Finished {
            at,
            end,
            of: PhantomData,
        }
    }

    /// Its position among the desk's inlets or outlets.
    pub fn position(&self) -> usize
        ensures { result ≡ position_of self.now }
    {
        self.at
    }

    /// Its position among the desk's inlets, if it is an inlet's.
    pub fn inlet(&self) -> Option<usize>
        ensures { result ≡ inlet_of self.now }
    {
        match &self.end {
            FinishedEnd::Put(_, _) => Some(self.at),
            FinishedEnd::Took(_, _) => None,
        }
    }

    /// Compares it with the desk's own end of its queue: a consumer then knows all that is left of what an inlet put,
    /// and what an outlet took is a beginning of what went in.
    pub fn compare(
        &mut self,
        consumers: &mut Vec<InletConsumer>,
        producers: &mut Vec<OutletProducer>,
    )
        requires consumers { map consumer_name consumers.old.items ≡ K.inlets }
        requires producers { map producer_name producers.old.items ≡ K.outlets }
        ensures same { self.new ≡ self.old }
        ensures consumers { ConsumersLooked consumers.old.items consumers.new.items }
        ensures others { ConsumersStayBut (inlet_of self.old) consumers.old.items consumers.new.items }
        ensures producers { ProducersLooked producers.old.items producers.new.items }
        ensures borne_out { IsBorneOut self.old consumers.new.items producers.new.items }
    {
        let at = self.at;
        match &mut self.end {
            FinishedEnd::Put(_, put) => look_after(consumers, at, put),
            FinishedEnd::Took(_, took) => look_beside(producers, at, took),
        }
    }
}

/// The consumer of an inlet that has finished looks into its ring.
fn look_after(consumers: &mut Vec<InletConsumer>, at: usize, put: &mut rtrb::Finished<Event>)
    requires inside { at < length consumers.old.items }
    requires own { (a : InletConsumerState) → slice_get consumers.old.items at ≡ Some a
        → finished_ring put.old ≡ a.name.ring }
    ensures looked { ConsumersLooked consumers.old.items consumers.new.items }
    ensures others { ConsumersStayBut (Some at) consumers.old.items consumers.new.items }
    ensures put { (finished_ring put.new ≡ finished_ring put.old) × (all_sent put.new ≡ all_sent put.old) }
    ensures all { (a : InletConsumerState) → slice_get consumers.new.items at ≡ Some a
        → a.gave ++ a.known ≡ all_sent put.old }
{
    consumers[at].look_after(put);
}

/// The producer of an outlet that has finished is compared with it.
fn look_beside(producers: &mut Vec<OutletProducer>, at: usize, took: &mut Consumer<Output>)
    requires inside { at < length producers.old.items }
    requires own { (w : OutletProducerState) → slice_get producers.old.items at ≡ Some w
        → consumer_ring took.old ≡ w.name.ring }
    ensures looked { ProducersLooked producers.old.items producers.new.items }
    ensures took { (consumer_ring took.new ≡ consumer_ring took.old) × (received took.new ≡ received took.old) }
    ensures prefix { (w : OutletProducerState) → slice_get producers.new.items at ≡ Some w
        → IsPrefix (received took.old) w.sent }
    ensures released { (w : OutletProducerState) → slice_get producers.new.items at ≡ Some w
        → IsPrefix (received took.old) w.released }
{
    producers[at].look_beside(took);
}
