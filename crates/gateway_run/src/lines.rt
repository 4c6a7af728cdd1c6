//! The lines of a gateway, over the ends of its desk.

ghost use Rattle.std.specs.Prelude.{◌≡◌, All, [], None, IfSome};
ghost use Rattle.gate_events.specs.declared.source.Source.TheVariants as sources;

use crate::clock::RunClock;
use crate::context::Context;
use crate::run_gate::RunGate;
use desk::Shared;
use desk_gates::{InletGate, OutletGate, OutletWriter, WakerClock};
use desk_rings::{DeskName, Finished, Inlet, Outlet};
use gate_events::{Recipient, Source};
use gate_serving::{Line, Ticks, Worker, WriterWorker};
use gateway_log::{LinkLog, LoggedGate, SyncTimer, Whose};
use journal_log::LaterSync;
use link_io::{Gate, LinkFault, Prompt};
use std::alloc::{AllocError, Global};
use std::hash::RandomState;
use std::sync::Wait;
use std::time::{Clock, Duration};

/// How many steps a worker makes of one link at most.
const STEPS: u64 = 1_000_000_000_000;

/// How long a writer sleeps at most where nobody wakes its outlet: then it looks whether there is memory again.
fn longest_sleep() -> Duration {
    Duration::from_millis(10)
}

/// The gate of a writer over an outlet.
pub(crate) type WritingGate<'a, K, R> = LoggedGate<'a, OutletGate<'a, K, RandomState>, R>;

/// The writer of an outlet.
pub(crate) type RunWriter<'a, W, K, R> = OutletWriter<W, WritingGate<'a, K, R>>;

/// The gate of a reader, or of the ticker, over an inlet.
pub(crate) type ReadingGate<'p, 'a, W, G, K, R> = RunGate<
    'a,
    InletGate<'p, 'a, W, G, K, RandomState>,
    K,
    R,
>;

/// A line of a gateway, whose links come from an opener.
pub(crate) type RunLine<'p, 'a, W, G, O, K, R> = Line<
    O,
    Worker<ReadingGate<'p, 'a, W, G, K, R>, RunClock<'a, K, R>>,
    WriterWorker<'p, W, G, WakerClock<'a, K, R, RandomState>>,
>;

/// The ticks of a gateway.
pub(crate) type RunTicks<'p, 'a, W, G, K, R> = Ticks<
    'a,
    ReadingGate<'p, 'a, W, G, K, R>,
    RunClock<'a, K, R>,
>;

/// The line of a client or port over the gate of its inlet and the writer of its outlet, both at this position.
pub(crate) fn line_of<'p, 'a, W: Prompt + Drop, G: Gate + Drop, O, K, R>(
    context: &Context<'a, K, R>,
    peer: Recipient,
    opener: O,
    gate: ReadingGate<'p, 'a, W, G, K, R>,
    at: usize,
    outlet_writer: &'p OutletWriter<W, G>,
) -> RunLine<'p, 'a, W, G, O, K, R>
where
    K: DeskName,
    R: Wait + Clock + Eprint,
    ensures peer { result.peer ≡ peer }
    ensures gate { result.reader.gate ≡ gate.entry }
    ensures shared_writer { G.output_for result.writer.shared_writer.now.first.value ≡ outlet_writer.now.to }
    ensures fault { result.fault ≡ None }
{
    Line {
        peer,
        steps: STEPS,
        fault: None,
        opener,
        reader: Worker {
            gate,
            clock: RunClock::new(context.rt),
        },
        writer: WriterWorker::new(
            outlet_writer.shared_writer(),
            WakerClock::new(context.rt, context.shared, at, longest_sleep()),
        ),
    }
}

/// Ticks for each client and port through the clock's inlet, where they are due, until the day is over, how all stand
/// onto the board, and a journal's later syncs. None through another's inlet.
pub(crate) fn ticks_of<'p, 'a, W: Prompt + Drop, G: Gate + Drop, K, R>(
    context: &Context<'a, K, R>,
    inlet: Inlet<K>,
    outlet_writers: &'p [OutletWriter<W, G>],
    syncs: Option<SyncTimer<LaterSync>>,
) -> Option<RunTicks<'p, 'a, W, G, K, R>>
where
    K: DeskName,
    R: Wait + Clock + Eprint,
    ensures own { IfSome result (λ ticks. ticks.gate.gate.inlet.source ≡ sources.Clock) }
{
    if inlet.source() == Source::Clock {
        let own = InletGate::new(context.shared, outlet_writers, inlet);
        return Some(Ticks {
            clients: context.layout.clients,
            ports: context.layout.ports,
            is_over: context.is_over,
            gate: RunGate::new(context, own, None, None),
            clock: RunClock::watching(context, syncs),
        });
    }
    None
}

/// What is left of lines that were served.
#[derive(Drop)]
pub(crate) struct Left<K: DeskName> {
    /// What was put through their inlets, and what was taken from their outlets.
    pub(crate) finished: Vec<Finished<K>>,
    /// The first fault of a link.
    pub(crate) fault: Option<LinkFault>,
}

impl<K: DeskName> Left<K> {
    /// Nothing yet, with room for what is left of so many inlets and outlets: so that no memory is wanted once all was
    /// served.
    pub(crate) fn with_room(
        alloc: Global,
        inlets: usize,
        outlets: usize,
    ) -> Result<Left<K>, AllocError> {
        Ok(Left {
            finished: Vec::with_capacity(alloc, inlets.saturating_add(outlets))?,
            fault: None,
        })
    }

    /// Ends the inlets of lines, and keeps what was put, and the first fault.
    pub(crate) fn end_lines<'p, 'a, W: Prompt + Drop, G: Gate + Drop, O: Drop, R>(
        &mut self,
        lines: Vec<RunLine<'p, 'a, W, G, O, K, R>>,
    ) -> Result<(), AllocError> {
        for line in lines {
            let Line { fault, reader, .. } = line;
            self.end_inlet(reader.gate.into_gate())?;
            self.fault = self.fault.or(fault);
        }
        Ok(())
    }

    /// Ends the inlet of ticks, and keeps what was put.
    pub(crate) fn end_ticks<'p, 'a, W: Prompt + Drop, G: Gate + Drop, R>(
        &mut self,
        ticks: Option<RunTicks<'p, 'a, W, G, K, R>>,
    ) -> Result<(), AllocError> {
        let Some(ticks) = ticks else {
            return Ok(());
        };
        let Ticks { gate, .. } = ticks;
        self.end_inlet(gate.into_gate())
    }

    /// Ends the inlet of a gate, and keeps what was put.
    fn end_inlet<W: Prompt + Drop, G: Gate + Drop>(
        &mut self,
        gate: InletGate<'_, '_, W, G, K, RandomState>,
    ) -> Result<(), AllocError> {
        if let Some(put) = gate.finish() {
            self.finished.push(put)?;
        }
        Ok(())
    }

    /// Ends the outlets of writers, and keeps what was taken. One whose link isn't over is let go.
    pub(crate) fn end_outlets<'a, W: Prompt + Drop, R: Clock + Eprint>(
        &mut self,
        outlet_writers: Vec<RunWriter<'a, W, K, R>>,
    ) -> Result<(), AllocError> {
        for outlet_writer in outlet_writers {
            if let Some(gate) = outlet_writer.into_gate() {
                self.finished.push(gate.into_gate().finish())?;
            }
        }
        Ok(())
    }
}

/// The writers of a desk's outlets, by position.
pub(crate) fn outlet_writers_of<'a, W: Prompt + Drop, K: DeskName, R: Clock + Eprint>(
    rt: &'a R,
    alloc: Global,
    shared: &'a Shared<K, RandomState>,
    outlets: Vec<Outlet<K>>,
    logs_frames: bool,
) -> Result<Vec<RunWriter<'a, W, K, R>>, AllocError> {
    let mut outlet_writers = Vec::with_capacity(alloc, outlets.len())?;
    for outlet in outlets {
        let link_log = frame_log_of(rt, logs_frames, &outlet.recipient());
        let gate = LoggedGate::new(alloc, OutletGate::new(shared, outlet), link_log);
        outlet_writers.push(OutletWriter::new(gate))?;
    }
    Ok(outlet_writers)
}

/// Who tells of the frames that a client is sent, where that is told of; of what a port is sent nobody does.
fn frame_log_of<'a, R: Clock + Eprint>(
    rt: &'a R,
    logs_frames: bool,
    whose: &Recipient,
) -> Option<LinkLog<'a, R>> {
    match whose {
        Recipient::Client(client) if logs_frames => {
            Some(LinkLog::new(rt, Whose::Client(usize::from(client.number()))))
        }
        _ => None,
    }
}

/// Who tells of what a client's or port's links bring, where that is told of.
pub(crate) fn link_log_of<'a, R: Clock + Eprint>(
    rt: &'a R,
    logs_frames: bool,
    whose: &Recipient,
) -> Option<LinkLog<'a, R>> {
    if !logs_frames {
        return None;
    }
    Some(LinkLog::new(
        rt,
        match whose {
            Recipient::Client(client) => Whose::Client(usize::from(client.number())),
            Recipient::Port(port) => Whose::Port(usize::from(port.number())),
        },
    ))
}
