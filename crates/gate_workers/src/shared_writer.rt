//! A writer that several threads share.

ghost use Rattle.std.specs.Prelude.{◌≡◌, ◌≤◌, [], true, IfOk, IfErr, IfSome};
ghost use Rattle.gate_workers.specs.WritersWork.{LineWritten};
ghost use Rattle.gate_workers.specs.SharedWriters.{IsAllWritten, IsWritten, WasWritten};

use crate::clock::Clock;
use crate::stepped::Stepped;
use crate::work::Work;
use crate::writer::WriterEnd;
use link_io::{Gate, LinkFault, Prompt};
use std::alloc::Global;
use std::snapshot::Snapshot;
use std::sync::atomic::{AtomicBool, Ordering};
use std::sync::{Mutex, Wait};

/// How many lists are dropped at most in one call.
const LET_GO: u32 = 4_096;

/// Writes the output of a line's links, one link after the other, by whichever thread holds its lock: the line's own
/// writer, or for a moment another thread while that one is idle.
///
/// Under the lock it holds, whoever wrote: of a link's bytes in the lists taken since the link was opened, in order,
/// the first ones are on its stream, and the rest is kept.
#[derive(Drop)]
pub struct SharedWriter<W: Prompt + Drop, G: Gate + Drop> {
    work: Mutex<Work<W, G>>,
    /// The gate as it came: for contracts alone.
    first: Snapshot<G>,
}

impl<W: Prompt + Drop, G: Gate + Drop> SharedWriter<W, G> {
    /// Over a handle from which nothing was taken. Takes no memory.
    pub fn new(gate: G) -> SharedWriter<W, G>
        requires fresh { G.was_taken gate ≡ [] }
        ensures first { result.first.value ≡ gate }
    {
        let first = Snapshot::of(&gate);
        SharedWriter {
            work: Mutex::new(Work::new(gate)),
            first,
        }
    }

    /// Opens link number `link` of the client or port `number` on this stream; its writer makes `steps` steps, 1 or
    /// more. Waits for the lock. The stream comes back if a link is open already, or this isn't the next one: links are
    /// numbered from 1.
    pub fn open<R: Wait>(
        &self,
        rt: &R,
        alloc: Global,
        number: u16,
        link: u64,
        steps: u64,
        stream: W,
    ) -> Result<(), W>
        requires from_one { 1 ≤ steps }
        ensures back { IfErr result (λ back. back ≡ stream) }
    {
        self.work.lock(rt).open(alloc, number, link, steps, stream)
    }

    /// Writes what is queued for the link by one prompt write, if nobody else holds the lock. Waits for nothing but the
    /// stream, as long as a prompt write does. `true` if nothing is left; else the line's writer has to be woken, and
    /// goes on with it.
    pub fn write(&self, alloc: Global) -> bool
        ensures all { result ≡ true → ∥ IsAllWritten W.contents G.was_taken ∥₁ }
    {
        match self.work.try_lock() {
            Some(mut work) => work.write(alloc),
            None => false,
        }
    }

    /// The loop of the line's writer: writes the link's output until the link is closed, or `stop` is set and nothing
    /// is queued, or a fault ends it. How it ended, and its stream; `None` if no link is open. It waits for the lock,
    /// pauses if nothing was queued or memory ran out, and steps the core if it took a list.
    ///
    /// `WriteFailed` if a write failed or took no byte, `StepLimit` at the last of the link's steps: of the link's
    /// output the first bytes went out.
    pub fn write_all<R: Wait, C: Clock>(
        &self,
        rt: &R,
        alloc: Global,
        clock: &mut C,
        stop: &AtomicBool,
    ) -> Option<(Result<WriterEnd, LinkFault>, W)>
        ensures written { IfSome result (λ e. ∥ WasWritten W.contents e.0 e.1 ∥₁) }
    {
        for _ in rt.forever() {
            let is_stopped = stop.load(Ordering::SeqCst);
            match self.step(rt, alloc, is_stopped) {
                Stepped::Taken => {}
                Stepped::Nothing => clock.pause(),
                Stepped::Over(end, stream) => return Some((end, stream)),
                Stepped::NoLink => return None,
            }
        }
        unreachable!()
    }

    /// A step of the line's writer; if it took a list, the core is stepped.
    fn step<R: Wait>(&self, rt: &R, alloc: Global, is_stopped: bool) -> Stepped<W>
        ensures { IsWritten W.contents result }
    {
        let mut work = self.work.lock(rt);
        let stepped = work.step(alloc, is_stopped);
        if let Stepped::Taken = &stepped {
            let _ = work.turn(rt, alloc);
        }
        stepped
    }

    /// Drops output that is queued between two links: it is for links that are over. Waits for the lock. Steps the
    /// core, since an event may have waited for the room. Before the first link nothing is dropped.
    pub fn let_go<R: Wait>(&self, rt: &R, alloc: Global) {
        let mut work = self.work.lock(rt);
        for _ in 0..LET_GO {
            if !work.let_go() {
                return;
            }
            let _ = work.turn(rt, alloc);
        }
    }

    /// The handle, if no link is open; else the shared writer as it is.
    pub fn into_gate(self) -> Result<G, SharedWriter<W, G>>
        ensures written { IfOk result (λ gate. ∥ LineWritten [] (G.was_taken gate) ∥₁) }
    {
        let SharedWriter { work, first } = self;
        match work.into_inner().into_gate() {
            Ok(gate) => Ok(gate),
            Err(work) => Err(SharedWriter {
                work: Mutex::new(work),
                first,
            }),
        }
    }
}
