//! How much of an outlet's ring an event leaves free.

ghost use Rattle.std.specs.Prelude.{◌≡◌};
ghost use Rattle.gate_events.specs.Seen.{event_seen};
ghost use Rattle.desk_steps.specs.Reserved.{reserved};

use desk_rings::FOR_MARKETS_AND_TIME;
use gate_events::Event;

/// Of the places of an outlet's ring, those for time alone.
const FOR_TIME: usize = 64;

/// How many places of its recipients' rings an event leaves free.
pub(crate) fn places_reserved(event: &Event) -> usize
    ensures { result ≡ reserved (event_seen event.now) }
{
    match event {
        Event::ClientUp { .. } | Event::ClientMessage { .. } | Event::ClientGone { .. } => {
            FOR_MARKETS_AND_TIME
        }
        Event::PortUp { .. } | Event::PortPacket { .. } | Event::PortGone { .. } => FOR_TIME,
        Event::ClientTick { .. } | Event::PortTick { .. } => 0,
    }
}
