//! Serving all lines at once.

ghost use Rattle.std.specs.Prelude.{◌≡◌, true, false, IfOk, IfErr};
ghost use Rattle.std.specs.List.{AllZip};
ghost use Rattle.gate_workers.specs.SharedWriters.{HasEnded};
ghost use Rattle.gate_serving.specs.Lines.{LineServed, log_of};
ghost use Rattle.gate_serving.specs.Passed.{TicksDid, WasDone};
ghost use Rattle.gate_serving.specs.declared.serving.ServeFault.TheVariants.{NoMemory, NoThread};

use crate::job::run_all;
use crate::line::{Line, Worker};
use crate::opener::{Closer, Opener};
use crate::splitting::{joined, slots_of, split};
use crate::ticks::Ticks;
use crate::writer_worker::WriterWorker;
use gate_workers::Clock;
use link_io::{Gate, Prompt};
use std::alloc::Global;
use std::io::Read;
use std::sync::Wait;
use std::sync::atomic::{AtomicBool, Ordering};
use std::thread::Threads;

/// Why lines were not served to their end.
#[derive(Clone, Copy, Debug, PartialEq, Eq)]
pub enum ServeFault {
    /// Memory ran out before the first link was opened.
    NoMemory,
    /// No thread could be started for a line, or for a link. The links that were open were served to their end.
    NoThread,
}

/// The lines of clients and ports: openers, gates and clocks of readers, shared writers and the clocks of those who
/// write.
type Lines<'p, O, G, C, W, H, D> = Vec<Line<O, Worker<G, C>, WriterWorker<'p, W, H, D>>>;

/// Serves all lines at once, each in two threads of its own, and hands them back in their order once all have ended.
/// `Ok` if the links of each were read to the last that its opener had. Meanwhile the calling thread makes time pass,
/// if there are ticks, until their flag is set.
///
/// `NoMemory` before any thread starts: lines and ticks are as they were. `NoThread` once one can't be started: from
/// then on no further link is opened.
pub fn serve<'p, 't, R, O, G, C, H, D>(
    rt: &R,
    alloc: Global,
    lines: Lines<'p, O, G, C, O::Writer, H, D>,
    ticks: Option<Ticks<'t, G, C>>,
) -> Result<
    (Lines<'p, O, G, C, O::Writer, H, D>, Option<Ticks<'t, G, C>>),
    (
        ServeFault,
        Lines<'p, O, G, C, O::Writer, H, D>,
        Option<Ticks<'t, G, C>>,
    ),
>
where
    R: Threads + Wait + Sync,
    O: Opener + Send + Drop,
    O::Reader: Read + Send + Drop,
    O::Writer: Prompt + Send + Drop,
    O::Closer: Closer + Send + Drop,
    G: Gate + Send + Drop,
    C: Clock + Send + Drop,
    H: Gate + Send + Drop,
    D: Clock + Send + Drop,
    ensures served { IfOk result (λ back. AllZip
        (LineServed O.has_ended O.opened (log_of G.was_put C.reported) G.was_taken
        (HasEnded O.Writer.contents) true)
        lines.entry.items back.0.items) }
    ensures ticked { IfOk result (λ back. WasDone
        (TicksDid G.gave_back G.was_put G.was_taken C.reported) ticks.entry back.1) }
    ensures no_thread { IfErr result (λ e. e.0 ≡ NoThread → AllZip
        (LineServed O.has_ended O.opened (log_of G.was_put C.reported) G.was_taken
        (HasEnded O.Writer.contents) false)
        lines.entry.items e.1.items × WasDone (TicksDid G.gave_back G.was_put G.was_taken C.reported) ticks.entry e.2) }
    ensures no_memory { IfErr result (λ e. e.0 ≡ NoMemory
        → (e.1.items ≡ lines.entry.items) × (e.2 ≡ ticks.entry)) }
{
    let count = lines.len();
    let Ok(slots) = slots_of(alloc, count) else {
        return Err((ServeFault::NoMemory, lines, ticks));
    };
    let Ok(halves) = Vec::with_capacity(alloc, count) else {
        return Err((ServeFault::NoMemory, lines, ticks));
    };
    let Ok(back) = Vec::with_capacity(alloc, count) else {
        return Err((ServeFault::NoMemory, lines, ticks));
    };
    let halves = split(lines, slots.as_slice(), halves);
    let halt = AtomicBool::new(false);
    let (halves, ticks) = run_all(rt, alloc, &halt, halves, ticks);
    let (back, all_over) = joined(halves, back);
    if all_over && !halt.load(Ordering::SeqCst) {
        Ok((back, ticks))
    } else {
        Err((ServeFault::NoThread, back, ticks))
    }
}
