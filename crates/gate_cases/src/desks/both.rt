//! Two threads that put events and have the desk turned, each without waiting for the other.

ghost use Rattle.std.specs.Prelude.{◌≡◌};

use desk::{DeskName, Inlet, Parts, Shared, open_desk};
use gate_core::{ClientNumber, Event};
use gate_events::Source;
use script_steps::fixed_settings;
use std::alloc::{AllocError, Global};
use std::marker::Brand;
use std::sync::Wait;
use std::thread;
use std::thread::Threads;

/// So many desks are opened, one after the other.
const DESKS: u32 = 400;

/// So many events each of the two puts.
const EACH: u32 = 100;

/// How many steps were left, once both had gone: what one puts while the other turns, that one steps.
pub fn left_by_both<R: Threads + Wait + Sync>(rt: &R, alloc: Global) -> Result<String, AllocError> {
    let mut left = 0_u64;
    for _ in 0..DESKS {
        let parts = Parts::new(alloc, fixed_settings(alloc)?)?;
        left = left.saturating_add(left_in::<Brand, _>(rt, alloc, parts)?);
    }
    format!(in alloc; "left {left}\n")
}

/// How many steps and events that wait are left of a desk of these parts; as many as there can be where a thread
/// can't be had.
fn left_in<K: DeskName + Send + Sync, R: Threads + Wait + Sync>(
    rt: &R,
    alloc: Global,
    parts: Parts,
) -> Result<u64, AllocError>
    requires named { (parts.inlets ≡ K.inlets) × (parts.outlets ≡ K.outlets) }
{
    let (shared, inlets, _outlets) = open_desk::<K, _>(alloc, parts)?;
    if !have_put(rt, alloc, &shared, inlets) {
        return Ok(u64::MAX);
    }
    let turned = shared.turn(rt, alloc)?;
    let left = turned.steps.saturating_add(turned.held);
    Ok(u64::from(left.saturating_add(turned.refused)))
}

/// Whether the first client's inlet and the clock's, which is the last, were put at, each in a thread of its own.
fn have_put<K: DeskName + Send + Sync, R: Threads + Wait + Sync>(
    rt: &R,
    alloc: Global,
    shared: &Shared<K>,
    inlets: Vec<Inlet<K>>,
) -> bool {
    let mut inlets = inlets;
    let clock = inlets.pop();
    inlets.truncate(1);
    match (clock, inlets.pop()) {
        (Some(clock), Some(client)) => turn_both(rt, alloc, shared, clock, client),
        _ => false,
    }
}

/// The two threads; whether both could be had.
fn turn_both<K: DeskName + Send + Sync, R: Threads + Wait + Sync>(
    rt: &R,
    alloc: Global,
    shared: &Shared<K>,
    clock: Inlet<K>,
    client: Inlet<K>,
) -> bool {
    thread::scope(thread::scope_env(), rt, |scope| {
        let Ok(ticks) = scope.spawn(move || put_all(alloc, shared, clock)) else {
            return false;
        };
        let Ok(goes) = scope.spawn(move || put_all(alloc, shared, client)) else {
            return false;
        };
        let (_ticks, _goes) = (ticks.join(rt), goes.join(rt));
        true
    })
}

/// Puts events of the inlet's source, for which there is room, and has the desk turned behind each.
fn put_all<K: DeskName>(alloc: Global, shared: &Shared<K>, inlet: Inlet<K>) -> Inlet<K> {
    let mut inlet = inlet;
    for number in 0..EACH {
        let event = event_from(inlet.source(), u64::from(number));
        if event.is_from(&inlet.source()) {
            let _ = inlet.put(event);
        }
        let _ = shared.turns(alloc, 1, |with_output| shared.wake_each(with_output));
    }
    inlet
}

/// Of the clock that time passes for the first client, else that its link of this number is gone.
fn event_from(source: Source, link: u64) -> Event {
    let client = ClientNumber::new(1);
    match source {
        Source::Clock => Event::ClientTick { client, at: 0 },
        _ => Event::ClientGone {
            client,
            link,
            at: 0,
        },
    }
}
