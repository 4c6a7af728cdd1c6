//! Time while lines are served.

ghost use Rattle.gate_serving.specs.Passed.{TicksDid};

use crate::job::Job;
use gate_workers::{Clock, ticker};
use link_io::Gate;
use std::alloc::Global;
use std::sync::Wait;
use std::sync::atomic::AtomicBool;

/// For how many clients and ports time passes, until which flag is set, and the handle that takes the ticks.
#[derive(Drop)]
pub struct Ticks<'a, G, C> {
    pub clients: u16,
    pub ports: u16,
    pub is_over: &'a AtomicBool,
    pub gate: G,
    pub clock: C,
}

impl<'a, G: Gate, C: Clock> Job for Ticks<'a, G, C> {
    ghost did = { TicksDid G.gave_back G.was_put G.was_taken C.reported };

    /// Makes time pass until its own flag is set.
    fn run<R: Wait>(self, rt: &R, alloc: Global, _flag: &AtomicBool) -> Self {
        let Ticks {
            clients,
            ports,
            is_over,
            mut gate,
            mut clock,
        } = self;
        ticker(rt, alloc, clients, ports, &mut gate, &mut clock, is_over);
        Ticks {
            clients,
            ports,
            is_over,
            gate,
            clock,
        }
    }
}
