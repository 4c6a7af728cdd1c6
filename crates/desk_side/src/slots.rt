//! Calls on the consumer or producer at a place.

ghost use Rattle.std.specs.Prelude.{◌≡◌, ◌<◌, ◌≤◌, ◌⊎◌, ℕ, true, false, Some, None, length, slice_get, IfSome, OnOk};
ghost use Rattle.gate_events.specs.Sources.{unless_empty};
ghost use Rattle.desk_rings.specs.CoreEnds.{AllReleased, AllStage, InletConsumerState, ConsumerGave, ConsumerLooked};
ghost use Rattle.desk_rings.specs.CoreEnds.{OutletProducerState, ProducerSent};
ghost use Rattle.desk_rings.specs.CoreEnds.{ProducersLooked, ProducersMayRelease, ProducersMayStage, producer_room};
ghost use Rattle.desk_side.specs.Side.{AllKnowRoom, ChangesAt};

use desk_rings::{InletConsumer, OutletProducer};
use gate_events::{Event, Output};
use std::alloc::AllocError;

/// Whether the consumer knows of no event, after a look.
pub(crate) fn is_empty_at(consumers: &mut Vec<InletConsumer>, place: usize) -> bool
    requires inside { place < length consumers.old.items }
    ensures looked { ChangesAt place ConsumerLooked consumers.old.items consumers.new.items }
    ensures none { result ≡ true → (a : InletConsumerState) → slice_get consumers.new.items place ≡ Some a
        → length a.known ≡ 0 }
    ensures some { result ≡ false → (a : InletConsumerState) → slice_get consumers.new.items place ≡ Some a
        → 0 < length a.known }
{
    consumers[place].is_empty()
}

/// The consumer gives its first event.
pub(crate) fn pop_at(consumers: &mut Vec<InletConsumer>, place: usize) -> Event
    requires inside { place < length consumers.old.items }
    requires some { (a : InletConsumerState) → slice_get consumers.old.items place ≡ Some a → 0 < length a.known }
    ensures { ChangesAt place (ConsumerGave result) consumers.old.items consumers.new.items }
{
    consumers[place].pop()
}

/// Whether the producer at this place, if there is one, hasn't overflowed and has no room beside `reserved` places,
/// after a look.
pub(crate) fn is_full_at(
    producers: &mut Vec<OutletProducer>,
    place: Option<usize>,
    reserved: usize,
) -> bool
    requires inside { IfSome place (λ d. d < length producers.old.items) }
    ensures looked { ProducersLooked producers.old.items producers.new.items }
    ensures full { result ≡ true → (d : ℕ) × (w : OutletProducerState) × (place ≡ Some d)
        × (slice_get producers.new.items d ≡ Some w)
        × (w.overflowed ≡ false) × (producer_room w ≤ reserved) }
    ensures room { result ≡ false → (d : ℕ) (w : OutletProducerState) → place ≡ Some d
        → slice_get producers.new.items d ≡ Some w
        → (w.overflowed ≡ true) ⊎ (reserved < producer_room w) }
{
    let Some(place) = place else {
        return false;
    };
    producers[place].is_full(reserved)
}

/// For how many lists each producer that hasn't overflowed has room at least, after a look into each queue.
pub(crate) fn least_room(producers: &mut Vec<OutletProducer>) -> usize
    ensures looked { ProducersLooked producers.old.items producers.new.items }
    ensures room { AllKnowRoom result producers.new.items }
{
    let mut least = usize::MAX;
    for place in 0..producers.len() {
        least = least.min(producers[place].room());
    }
    least
}

/// Puts a list into the queue of the producer at this place, if there is one.
pub(crate) fn send_at(producers: &mut Vec<OutletProducer>, place: Option<usize>, output: Output)
    requires inside { IfSome place (λ d. d < length producers.old.items) }
    ensures at { (d : ℕ) → place ≡ Some d → ChangesAt d
        (ProducerSent (unless_empty output)) producers.old.items producers.new.items }
    ensures nowhere { place ≡ None → producers.new.items ≡ producers.old.items }
{
    let Some(place) = place else {
        return;
    };
    producers[place].send(output);
}

/// From now on each producer stages what it is sent. `AllocError` leaves some of them as they were, and none changed in
/// what it has.
pub(crate) fn stage_each(producers: &mut Vec<OutletProducer>) -> Result<(), AllocError>
    ensures same { ProducersMayStage producers.old.items producers.new.items }
    ensures stages { OnOk result (AllStage producers.new.items) }
{
    for place in 0..producers.len() {
        producers[place].stage()?;
    }
    Ok(())
}

/// Moves what is staged for each producer into its queue. Takes no memory.
pub(crate) fn release_each(producers: &mut Vec<OutletProducer>)
    ensures same { ProducersMayRelease producers.old.items producers.new.items }
    ensures all { AllReleased producers.new.items }
{
    for place in 0..producers.len() {
        producers[place].release();
    }
}
