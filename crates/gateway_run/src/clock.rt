//! The clocks of readers, and of the worker that has time pass.

use crate::context::Context;
use desk::Shared;
use desk_rings::DeskName;
use gate_workers::Clock;
use gateway_log::{ClientCounts, MemoryWatch, SyncTimer};
use gateway_watch::{OrderWatch, StatusBoard};
use journal_log::LaterSync;
use link_sockets::SystemClock;
use std::alloc::Global;
use std::hash::RandomState;
use std::sync::Wait;
use std::sync::atomic::{AtomicBool, Ordering};
use std::time;
use std::time::Duration;

/// How often it pauses, in a row, while no client waits for a link or has one, before the day is over.
const PATIENCE: u32 = 100;

/// So many milliseconds, and as many looks at most, lie between two rounds of ticks.
const BETWEEN_TICKS: u32 = 100;

/// So many milliseconds lie between two statuses on the board.
const BETWEEN_STATUSES: u64 = 1_000;

/// How long a worker pauses where nothing moves, and for how long what may wait is left.
fn pause() -> Duration {
    Duration::from_millis(1)
}

/// The system's time, which never goes back, and pauses of a millisecond. That of the worker that has time pass pauses
/// between two rounds of ticks, and meanwhile has what may wait written, and rounds made that others left, each
/// millisecond. Where there is a journal it has the history's older pages leave memory, until the day is over. Once a
/// second it puts how all stand onto the board. It has a journal synced whose syncs are left for
/// later, and watches the clients: it ends the day where they are left alone, where a thread could not be had, say.
#[derive(Drop)]
pub(crate) struct RunClock<'a, K: DeskName, R> {
    clock: SystemClock<'a, R>,
    watch: Option<Watch<'a, K, R>>,
}

impl<'a, K: DeskName, R: Wait + time::Clock + Eprint> RunClock<'a, K, R> {
    /// Of a reader. Takes no memory.
    pub(crate) fn new(rt: &'a R) -> RunClock<'a, K, R> {
        RunClock {
            clock: SystemClock::new(rt, pause()),
            watch: None,
        }
    }

    /// Of the worker that has time pass: once the clients have been left alone for a hundred pauses the day is over,
    /// also once the journal is lost, and how all stand goes onto the board. It is told of orders that wait at ports
    /// that aren't up. Takes no memory.
    pub(crate) fn watching(
        context: &Context<'a, K, R>,
        syncs: Option<SyncTimer<LaterSync>>,
    ) -> RunClock<'a, K, R> {
        let rt = context.rt;
        RunClock {
            clock: SystemClock::new(rt, pause()),
            watch: Some(Watch {
                rt,
                alloc: context.alloc,
                shared: context.shared,
                counts: &context.states.clients,
                is_over: context.is_over,
                board: context.board,
                idle: 0,
                memory: MemoryWatch::new(rt),
                next_status: 0,
                orders: OrderWatch::new(rt, context.layout.ports_of.as_slice()),
                syncs,
            }),
        }
    }
}

impl<'a, K: DeskName, R: Wait + time::Clock + Eprint> Clock for RunClock<'a, K, R> {
    ghost use Rattle.std.specs.Prelude.{None};

    ghost reported = { λ _. None };

    fn now_ms(&mut self) -> u64 {
        self.clock.now_ms()
    }

    fn pause(&mut self) {
        match &mut self.watch {
            Some(watch) => watch.pause(&mut self.clock),
            None => self.clock.pause(),
        }
    }
}

/// Who looks for what waits to be written or synced, whether clients are left alone, and whether memory is refused.
#[derive(Drop)]
struct Watch<'a, K: DeskName, R> {
    rt: &'a R,
    alloc: Global,
    shared: &'a Shared<K, RandomState>,
    counts: &'a ClientCounts,
    is_over: &'a AtomicBool,
    board: &'a StatusBoard,
    /// The pauses since one of the clients waited for a link or had one.
    idle: u32,
    memory: MemoryWatch<'a, R>,
    /// When the next status goes onto the board, by the clock.
    next_status: u64,
    orders: OrderWatch<'a, R>,
    /// What has the journal synced, where that is left for later.
    syncs: Option<SyncTimer<LaterSync>>,
}

impl<'a, K: DeskName, R: Wait + time::Clock + Eprint> Watch<'a, K, R> {
    /// Pauses until the next round of ticks, and wakes the writers for whom something waits.
    fn pause(&mut self, clock: &mut SystemClock<'a, R>) {
        let end = clock.now_ms().saturating_add(u64::from(BETWEEN_TICKS));
        for _ in 0..BETWEEN_TICKS {
            clock.pause();
            self.shared.wake_waiting(self.rt);
            self.shared.turns_wanted(self.alloc);
            let now = clock.now_ms();
            self.show(now);
            self.sync(now);
            if now >= end {
                break;
            }
        }
        self.memory
            .look(self.shared.is_memory_refused(), clock.now_ms());
        if self.shared.is_journal_lost() {
            self.is_over.store(true, Ordering::SeqCst);
        }
        self.look();
        self.shared.drop_older(self.rt);
    }

    /// Puts how all stand onto the board, where a second has passed since it last was, and has it told of orders that
    /// wait. While somebody reads the board it is tried again with the next pause; where memory is refused, a second
    /// later.
    fn show(&mut self, now: u64) {
        if now < self.next_status {
            return;
        }
        let is_done = match self.shared.status(self.rt, self.alloc) {
            Ok(status) => {
                self.orders.look(&status, now);
                self.board.put(status, now)
            }
            Err(_) => true,
        };
        if is_done {
            self.next_status = now.saturating_add(BETWEEN_STATUSES);
        }
    }

    /// Has the journal synced, where that is due, and ends the day where it failed: its file takes nothing any more, so
    /// nobody is told anything.
    fn sync(&mut self, now: u64) {
        if let Some(syncs) = &mut self.syncs {
            if syncs.look(now) {
                self.is_over.store(true, Ordering::SeqCst);
            }
        }
    }

    /// Ends the day where the clients have been left alone for so long.
    fn look(&mut self) {
        if !self.counts.are_idle() {
            self.idle = 0;
            return;
        }
        self.idle = self.idle.saturating_add(1);
        if self.idle >= PATIENCE {
            self.is_over.store(true, Ordering::SeqCst);
        }
    }
}
