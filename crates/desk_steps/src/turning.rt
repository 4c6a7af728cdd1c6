//! Turns of inlets, one event each.

ghost use Rattle.std.specs.Prelude.{◌≡◌, ◌<◌, ◌^◌, true, false, Some, length, slice_get, IfOk, OnOk, OnErr};
ghost use Rattle.gate_events.specs.Sources.{is_from};
ghost use Rattle.gate_events.specs.declared.event.Event.{Event};
ghost use Rattle.desk_side.specs.desk_rings.CoreEnds.{InletConsumerState, ProducersLooked};
ghost use Rattle.desk_steps.specs.Agreeing.{DeskState};
ghost use Rattle.desk_steps.specs.Turning.{Does, HasRoom, RoundIsRefused, Rounds, SameCounts, SameOverflows};
ghost use Rattle.desk_steps.specs.Turning.{StepsFirst, Waits};

use crate::recorded::RecordedCore;
use crate::reserving::places_reserved;
use crate::turned::{Did, Turned};
use desk_side::Side;
use std::alloc::{AllocError, Global};
use std::hash::BuildHasher;

/// Steps the first event of an inlet's ring. All that takes memory is done while the event lies there still:
/// `AllocError` leaves all as it was.
pub(crate) fn step_front<S: BuildHasher + Drop>(
    recorded: &mut RecordedCore<S>,
    side: &mut Side,
    alloc: Global,
    place: usize,
) -> Result<(), AllocError>
    requires inside { place < length side.old.consumers }
    requires own { (a : InletConsumerState) → slice_get side.old.consumers place ≡ Some a
        → (e : Event) × (slice_get a.known 0 ≡ Some e) × (is_from a.name.source e ≡ true) }
    ensures ok { OnOk result (StepsFirst place (record { recorded = recorded.old; side = side.old })
        (record { recorded = recorded.new; side = side.new })) }
    ensures err { OnErr result ((recorded.new ≡ recorded.old) × (side.new ≡ side.old)) }
{
    let output = recorded.step(alloc, side.front(place))?;
    let _ = side.pop(place);
    side.send(output);
    Ok(())
}

/// Whether the first event of an inlet's ring has room: more places than it leaves free in the ring of each to whom its
/// batch may tell something. Whom that is is asked only where some ring has no room: a market's packet is read for it.
fn first_has_room<S: BuildHasher + Drop>(
    recorded: &RecordedCore<S>,
    side: &mut Side,
    place: usize,
) -> bool
    requires inside { place < length side.old.consumers }
    requires own { (a : InletConsumerState) → slice_get side.old.consumers place ≡ Some a
        → (e : Event) × (slice_get a.known 0 ≡ Some e) × (is_from a.name.source e ≡ true) }
    ensures consumers { side.new.consumers ≡ side.old.consumers }
    ensures producers { ProducersLooked side.old.producers side.new.producers }
    ensures counts { SameCounts side.old side.new }
    ensures room { result ≡ true → HasRoom place (record { recorded = recorded.now; side = side.new }) }
    ensures overflows { result ≡ true → (t : DeskState)
        → StepsFirst place (record { recorded = recorded.now; side = side.new }) t
        → SameOverflows side.new.producers t.side.producers }
    ensures held { result ≡ false → Waits place (record { recorded = recorded.now; side = side.new }) }
{
    let reserved = places_reserved(side.front(place));
    if side.has_room_everywhere(reserved) {
        return true;
    }
    let targets = recorded.targets(side.front(place));
    side.has_room(targets.client, targets.port, reserved)
}

/// The turn of an inlet: its first event is stepped, unless it has to wait, or memory is refused for it: then it stays
/// where it is.
pub(crate) fn turn_at<S: BuildHasher + Drop>(
    recorded: &mut RecordedCore<S>,
    side: &mut Side,
    alloc: Global,
    place: usize,
) -> Did
    requires inside { place < length side.old.consumers }
    ensures does { Does place result (record { recorded = recorded.old; side = side.old })
        (record { recorded = recorded.new; side = side.new }) }
    ensures count { length side.new.consumers ≡ length side.old.consumers }
{
    if side.is_empty(place) {
        return Did::Idle;
    }
    let event = side.front(place);
    if !event.is_from(&side.source(place)) {
        let _ = side.pop(place);
        return Did::Dropped;
    }
    if !first_has_room(recorded, side, place) {
        return Did::Held;
    }
    match step_front(recorded, side, alloc, place) {
        Ok(()) => Did::Stepped,
        Err(_) => Did::Refused,
    }
}

/// Once round the inlets, in order: each has its turn, also where memory is refused for the event of another.
/// `AllocError` comes where it is refused for one at least, and no step is made.
pub fn round<S: BuildHasher + Drop>(
    recorded: &mut RecordedCore<S>,
    side: &mut Side,
    alloc: Global,
) -> Result<Turned, AllocError>
    requires few { length side.old.consumers < 2 ^ 32 }
    ensures ok { IfOk result (λ turned. Rounds turned (record { recorded = recorded.old; side = side.old })
        (record { recorded = recorded.new; side = side.new })) }
    ensures err { OnErr result (RoundIsRefused (record { recorded = recorded.old; side = side.old })
        (record { recorded = recorded.new; side = side.new })) }
{
    let mut turned = Turned {
        steps: 0,
        held: 0,
        refused: 0,
    };
    for place in 0..side.inlets() {
        turned.count(turn_at(recorded, side, alloc, place));
    }
    if turned.steps == 0 && turned.refused != 0 {
        return Err(AllocError);
    }
    Ok(turned)
}
