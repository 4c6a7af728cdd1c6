//! The loop of the thread that makes time pass.

ghost use Rattle.std.specs.Prelude.{◌≡◌, ◌∷◌, []};
ghost use Rattle.link_io.specs.Seen.{event_seen};
ghost use Rattle.gate_workers.specs.TickersWork.{PutsBehind, PutsTicks, client_ticks, port_ticks};

use crate::clock::Clock;
use gate_events::{ClientNumber, Event, PortNumber};
use link_io::Gate;
use std::alloc::Global;
use std::sync::Wait;
use std::sync::atomic::{AtomicBool, Ordering};

/// Puts a tick for each client and each port, numbered from 1, steps the core after each, and pauses; again and again
/// until `stop` is set. A tick that is given back is dropped: the next round brings a later one.
pub fn ticker<R: Wait, G: Gate, C: Clock>(
    rt: &R,
    alloc: Global,
    clients: u16,
    ports: u16,
    gate: &mut G,
    clock: &mut C,
    stop: &AtomicBool,
)
    ensures ticks { PutsTicks G.gave_back clients ports (C.reported clock.old) (C.reported clock.new)
        (G.was_put gate.old) (G.was_put gate.new) }
    ensures none_taken { G.was_taken gate.new ≡ G.was_taken gate.old }
{
    for _ in rt.forever() {
        if stop.load(Ordering::SeqCst) {
            return;
        }
        let at = clock.now_ms();
        tick_clients(rt, alloc, clients, at, gate);
        tick_ports(rt, alloc, ports, at, gate);
        clock.pause();
    }
    unreachable!()
}

/// Puts a tick of this moment for each client.
fn tick_clients<R: Wait, G: Gate>(rt: &R, alloc: Global, clients: u16, at: u64, gate: &mut G)
    ensures ticks { PutsBehind G.gave_back (client_ticks at clients) (G.was_put gate.old) (G.was_put gate.new) }
    ensures none_taken { G.was_taken gate.new ≡ G.was_taken gate.old }
{
    for i in 0..clients {
        let client = ClientNumber::new(i + 1);
        tick(rt, alloc, Event::ClientTick { client, at }, gate);
    }
}

/// Puts a tick of this moment for each port.
fn tick_ports<R: Wait, G: Gate>(rt: &R, alloc: Global, ports: u16, at: u64, gate: &mut G)
    ensures ticks { PutsBehind G.gave_back (port_ticks at ports) (G.was_put gate.old) (G.was_put gate.new) }
    ensures none_taken { G.was_taken gate.new ≡ G.was_taken gate.old }
{
    for i in 0..ports {
        let port = PortNumber::new(i + 1);
        tick(rt, alloc, Event::PortTick { port, at }, gate);
    }
}

/// Puts an event if there is room for it, and steps the core.
fn tick<R: Wait, G: Gate>(rt: &R, alloc: Global, event: Event, gate: &mut G)
    ensures put { PutsBehind G.gave_back (event_seen event ∷ []) (G.was_put gate.old) (G.was_put gate.new) }
    ensures none_taken { G.was_taken gate.new ≡ G.was_taken gate.old }
{
    let _ = gate.put(event);
    let _ = gate.turn(rt, alloc);
}
