//! What is left to do once ends have finished.

ghost use Rattle.std.specs.Prelude.{◌≡◌, ◌<◌, ◌⊎◌, ◌≤◌, ℕ, List, true, Some, length, map, slice_get, OnOk, OnErr};
ghost use Rattle.gate_events.specs.Sources.{is_from};
ghost use Rattle.gate_events.specs.declared.event.Event.{Event};
ghost use Rattle.desk_side.specs.desk_rings.Rings.{NamedInlet, NamedOutlet};
ghost use Rattle.desk_side.specs.desk_rings.Ends.{inlet_of};
ghost use Rattle.desk_side.specs.desk_rings.CoreEnds.{InletConsumerState, ConsumersLooked, ProducersLooked};
ghost use Rattle.desk_side.specs.desk_rings.CoreEnds.{consumer_name, producer_name};
ghost use Rattle.desk_steps.specs.Agreeing.{Agrees};
ghost use Rattle.desk_steps.specs.Settling.{AreBegun, AreDrained, AreSettled, AreBorneOut, HistoryGoesOn, KnowsNone};
ghost use Rattle.desk_steps.specs.Settling.{AreReleased, Shrinks, ProducersHold};
ghost use Rattle.desk_steps.specs.Turning.{Drops, StepsFirst};

use crate::recorded::RecordedCore;
use crate::turning::step_front;
use desk_rings::{DeskName, Finished};
use desk_side::Side;
use std::alloc::{AllocError, Global};
use std::hash::BuildHasher;

/// Compares each end that has finished with the desk's own end of its ring.
///
/// Two ends of one inlet would have to say the same. After one go over all of them the consumer knows of all that each
/// says; so after another each says just what the consumer knows.
fn compare_all<K: DeskName>(side: &mut Side, finished: &mut Vec<Finished<K>>)
    requires consumers { map consumer_name side.old.consumers ≡ K.inlets }
    requires producers { map producer_name side.old.producers ≡ K.outlets }
    ensures same { finished.new.items ≡ finished.old.items }
    ensures consumers { ConsumersLooked side.old.consumers side.new.consumers }
    ensures producers { ProducersLooked side.old.producers side.new.producers }
    ensures counts { (side.new.clients ≡ side.old.clients) × (side.new.ports ≡ side.old.ports) }
    ensures begun { AreBegun finished.old.items side.new.consumers }
    ensures borne_out { AreBegun finished.old.items side.old.consumers
        → AreBorneOut finished.old.items side.new.consumers side.new.producers }
{
    for i in 0..finished.len() {
        side.compare(&mut finished[i]);
    }
}

/// Steps the first event of an inlet's ring, or drops it where it isn't of the inlet's source. No outlet is waited for.
fn drain_one<S: BuildHasher + Drop>(
    recorded: &mut RecordedCore<S>,
    side: &mut Side,
    alloc: Global,
    place: usize,
) -> Result<(), AllocError>
    requires inside { place < length side.old.consumers }
    requires some { (a : InletConsumerState) → slice_get side.old.consumers place ≡ Some a → 0 < length a.known }
    ensures ok { OnOk result (StepsFirst place (record { recorded = recorded.old; side = side.old })
        (record { recorded = recorded.new; side = side.new })
        ⊎ Drops place (record { recorded = recorded.old; side = side.old })
        (record { recorded = recorded.new; side = side.new })) }
    ensures err { OnErr result ((recorded.new ≡ recorded.old) × (side.new ≡ side.old)) }
{
    let event = side.front(place);
    if !event.is_from(&side.source(place)) {
        let _ = side.pop(place);
        return Ok(());
    }
    step_front(recorded, side, alloc, place)
}

/// Steps all that is known in an inlet's ring. `AllocError` leaves the steps before it standing.
fn drain<S: BuildHasher + Drop>(
    recorded: &mut RecordedCore<S>,
    side: &mut Side,
    alloc: Global,
    place: usize,
) -> Result<(), AllocError>
    requires inside { place < length side.old.consumers }
    ensures agrees { (inlets : List NamedInlet) (outlets : List NamedOutlet)
        → Agrees inlets outlets (record { recorded = recorded.old; side = side.old })
        → Agrees inlets outlets (record { recorded = recorded.new; side = side.new }) }
    ensures goes_on { HistoryGoesOn recorded.old recorded.new }
    ensures holds { ProducersHold side.old.producers side.new.producers }
    ensures shrinks { Shrinks side.old.consumers side.new.consumers }
    ensures none { OnOk result (KnowsNone place side.new.consumers) }
{
    let left = side.known(place);
    for _ in 0..left {
        drain_one(recorded, side, alloc, place)?;
    }
    Ok(())
}

/// Steps all that is known in the ring of an inlet that has finished. For an outlet there is nothing to step.
fn drain_end<K: DeskName, S: BuildHasher + Drop>(
    recorded: &mut RecordedCore<S>,
    side: &mut Side,
    alloc: Global,
    finished: &Finished<K>,
) -> Result<(), AllocError>
    requires inside { (k : ℕ) → inlet_of finished.now ≡ Some k → k < length side.old.consumers }
    ensures agrees { (inlets : List NamedInlet) (outlets : List NamedOutlet)
        → Agrees inlets outlets (record { recorded = recorded.old; side = side.old })
        → Agrees inlets outlets (record { recorded = recorded.new; side = side.new }) }
    ensures goes_on { HistoryGoesOn recorded.old recorded.new }
    ensures holds { ProducersHold side.old.producers side.new.producers }
    ensures shrinks { Shrinks side.old.consumers side.new.consumers }
    ensures none { OnOk result ((k : ℕ) → inlet_of finished.now ≡ Some k → KnowsNone k side.new.consumers) }
{
    match finished.inlet() {
        Some(place) => drain(recorded, side, alloc, place),
        None => Ok(()),
    }
}

/// Steps all that is known in the rings of inlets that have finished.
fn drain_all<K: DeskName, S: BuildHasher + Drop>(
    recorded: &mut RecordedCore<S>,
    side: &mut Side,
    alloc: Global,
    finished: &Vec<Finished<K>>,
) -> Result<(), AllocError>
    requires borne_out { AreBorneOut finished.now.items side.old.consumers side.old.producers }
    ensures agrees { (inlets : List NamedInlet) (outlets : List NamedOutlet)
        → Agrees inlets outlets (record { recorded = recorded.old; side = side.old })
        → Agrees inlets outlets (record { recorded = recorded.new; side = side.new }) }
    ensures goes_on { HistoryGoesOn recorded.old recorded.new }
    ensures holds { ProducersHold side.old.producers side.new.producers }
    ensures shrinks { Shrinks side.old.consumers side.new.consumers }
    ensures none { OnOk result (AreDrained finished.now.items side.new.consumers) }
{
    for i in 0..finished.len() {
        drain_end(recorded, side, alloc, &finished[i])?;
    }
    Ok(())
}

/// Steps what is left of what finished inlets put, and compares what finished outlets took. No outlet is waited for: a
/// list that finds no room stands in the history alone. `AllocError` leaves the steps before it standing, and the call
/// may be made again.
pub fn settle<K: DeskName, S: BuildHasher + Drop>(
    recorded: &mut RecordedCore<S>,
    side: &mut Side,
    alloc: Global,
    finished: &mut Vec<Finished<K>>,
) -> Result<(), AllocError>
    requires agrees { Agrees K.inlets K.outlets (record { recorded = recorded.old; side = side.old }) }
    ensures agrees { Agrees K.inlets K.outlets (record { recorded = recorded.new; side = side.new }) }
    ensures same { finished.new.items ≡ finished.old.items }
    ensures goes_on { HistoryGoesOn recorded.old recorded.new }
    ensures holds { ProducersHold side.old.producers side.new.producers }
    ensures released { AreReleased finished.old.items side.new.producers }
    ensures settled { OnOk result (AreSettled finished.old.items recorded.new.kept) }
{
    compare_all(side, finished);
    compare_all(side, finished);
    drain_all(recorded, side, alloc, finished)
}
