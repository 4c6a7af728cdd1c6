//! Which events are steps of their own, and when they come.

ghost use Rattle.std.specs.Prelude.{◌≡◌};
ghost use Rattle.gate_core.specs.soup_session.Table as session;
ghost use Rattle.gate_events.specs.Seen.{event_seen};
ghost use Rattle.world_law.specs.World as world;

use gate_events::Event;

/// Whether this is a client's event, or a tick: what a step may bring from without.
pub fn is_from_without(event: &Event) -> bool
    ensures { result ≡ world.is_clients (event_seen event.now) }
{
    match event {
        Event::ClientUp { .. }
        | Event::ClientMessage { .. }
        | Event::ClientGone { .. }
        | Event::ClientTick { .. }
        | Event::PortTick { .. } => true,
        Event::PortUp { .. } | Event::PortPacket { .. } | Event::PortGone { .. } => false,
    }
}

/// When it comes, in milliseconds since 1970.
pub fn moment_of(event: &Event) -> u64
    ensures { result ≡ world.moment_of (event_seen event.now) }
{
    match event {
        Event::ClientUp { at, .. }
        | Event::ClientMessage { at, .. }
        | Event::ClientGone { at, .. }
        | Event::ClientTick { at, .. }
        | Event::PortUp { at, .. }
        | Event::PortPacket { at, .. }
        | Event::PortGone { at, .. }
        | Event::PortTick { at, .. } => *at,
    }
}

/// The later of two moments.
pub fn later(now: u64, at: u64) -> u64
    ensures { result ≡ session.later now at }
{
    if now < at { at } else { now }
}
