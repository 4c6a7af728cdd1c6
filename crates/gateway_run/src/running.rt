//! A desk, served by threads.

ghost use Rattle.std.specs.Prelude.{◌≡◌, ◌<◌, length, IfOk, None};
ghost use Rattle.gate_law.specs.Holds.{Holds};
ghost use Rattle.gate_lines.specs.gate_audit.gate_journal.Kept.{turns};
ghost use Rattle.desk_gates.specs.desk.Ahead.{IsEnded};
ghost use Rattle.desk_gates.specs.desk.Settling.{AreSettled};

use crate::context::{Context, Layout};
use crate::ends::{Ends, LinkRules, RunPlan, ends_of};
use crate::lines::{Left, outlet_writers_of, ticks_of};
use crate::port_faults::PortLinks;
use crate::resuming::go_on;
use desk::{Parts, Shared, open_desk};
use desk_gates::OutletWriter;
use desk_rings::{DeskName, Finished, Inlet};
use desk_steps::Closed;
use gate_serving::{Closer, Opener, serve};
use gate_settings::Settings;
use gateway_day::{Day, DayJournal, RunFault};
use gateway_log::{CountedLinks, LinkStates, RunOpener, SyncTimer};
use gateway_watch::{StatusBoard, ports_of_clients};
use journal_log::LaterSync;
use link_io::{Gate, Prompt};
use std::alloc::{AllocError, Global};
use std::hash::RandomState;
use std::io::Read;
use std::marker::Brand;
use std::sync::Wait;
use std::sync::atomic::AtomicBool;
use std::thread;
use std::thread::Threads;
use std::time::{Clock, Duration};

/// How often a desk whose day is over is closed at most, where memory is refused: for ten seconds.
const CLOSES: u32 = 100;

/// How long lies between two tries of it.
fn between_closes() -> Duration {
    Duration::from_millis(100)
}

/// Serves a gateway of these settings, with its core's indexes over a hasher, until each client's links have been
/// served, then sets `is_over`, has the ports' links end, and gives the day. Where `is_over` is set before, by somebody
/// else, it ends the same way.
///
/// `NoMemory` and `NoThread` come once all that was begun has ended; the day is lost with them. Where memory is refused
/// as the day is closed, that is tried again for ten seconds.
pub fn run<R, A, C>(
    rt: &R,
    alloc: Global,
    hasher: RandomState,
    settings: Settings,
    plan: RunPlan<A, C>,
    is_over: &AtomicBool,
) -> Result<Day, RunFault>
where
    R: Threads + Wait + Sync + Clock + Eprint,
    A: Opener + Send + Drop,
    A::Reader: Read + Send + Drop,
    A::Writer: Prompt + Send + Drop,
    A::Closer: Closer + Send + Drop,
    C: Opener<Reader = A::Reader, Writer = A::Writer, Closer = A::Closer> + Send + Drop,
{
    let board = StatusBoard::new();
    run_shown(rt, alloc, hasher, settings, None, plan, is_over, &board)
}

/// The same, with how all stand on this board, once a second, for whoever looks at it. Where there is a journal the day
/// goes on behind what it has, and all that is stepped is in it, durably, before anybody is told; it ends with the day.
pub fn run_shown<R, A, C>(
    rt: &R,
    alloc: Global,
    hasher: RandomState,
    settings: Settings,
    journal: Option<DayJournal>,
    plan: RunPlan<A, C>,
    is_over: &AtomicBool,
    board: &StatusBoard,
) -> Result<Day, RunFault>
where
    R: Threads + Wait + Sync + Clock + Eprint,
    A: Opener + Send + Drop,
    A::Reader: Read + Send + Drop,
    A::Writer: Prompt + Send + Drop,
    A::Closer: Closer + Send + Drop,
    C: Opener<Reader = A::Reader, Writer = A::Writer, Closer = A::Closer> + Send + Drop,
{
    let layout = Layout {
        clients: settings.clients().len() as u16,
        ports: settings.ports().len() as u16,
        ports_of: ports_of_clients(alloc, &settings)?,
    };
    let parts = Parts::with_hasher(alloc, hasher, settings)?;
    run_desk::<Brand, R, A, C>(rt, alloc, parts, journal, &layout, plan, is_over, board)
}

/// Opens the desk of these parts, serves it and closes it.
fn run_desk<K, R, A, C>(
    rt: &R,
    alloc: Global,
    parts: Parts<RandomState>,
    journal: Option<DayJournal>,
    layout: &Layout,
    plan: RunPlan<A, C>,
    is_over: &AtomicBool,
    board: &StatusBoard,
) -> Result<Day, RunFault>
where
    K: DeskName + Send + Sync,
    R: Threads + Wait + Sync + Clock + Eprint,
    A: Opener + Send + Drop,
    A::Reader: Read + Send + Drop,
    A::Writer: Prompt + Send + Drop,
    A::Closer: Closer + Send + Drop,
    C: Opener<Reader = A::Reader, Writer = A::Writer, Closer = A::Closer> + Send + Drop,
    requires named { (parts.inlets ≡ K.inlets) × (parts.outlets ≡ K.outlets) }
    requires clock { 0 < length parts.inlets }
{
    let clients = plan.clients.len().min(usize::from(layout.clients)) as u32;
    let states = LinkStates::of(alloc, clients, plan.ports.len())?;
    let (shared, mut inlets, mut outlets) = open_desk::<K, RandomState>(alloc, parts)?;
    let syncs = go_on(rt, alloc, &shared, &mut inlets, &mut outlets, journal)?;
    let outlet_writers = outlet_writers_of::<A::Writer, K, R>(
        rt,
        alloc,
        &shared,
        outlets,
        plan.rules.logs_frames,
    )?;
    let context = Context {
        rt,
        alloc,
        shared: &shared,
        layout,
        states: &states,
        is_over,
        board,
    };
    let mut left = serve_desk(&context, inlets, outlet_writers.as_slice(), plan, syncs)?;
    left.end_outlets(outlet_writers)?;
    let closed = close_desk(rt, alloc, shared, left.finished)?;
    Ok(Day::of(closed, left.fault))
}

/// Closes a desk whose ends have finished: of each inlet that is handed in the history has just what was put. Where
/// memory is refused it is tried again, and `NoMemory` comes once it was for ten seconds.
fn close_desk<K: DeskName, R: Clock>(
    rt: &R,
    alloc: Global,
    shared: Shared<K, RandomState>,
    finished: Vec<Finished<K>>,
) -> Result<Closed, RunFault>
    ensures holds { IfOk result (λ closed. Holds closed.settings (turns closed.history)) }
    ensures settled { IfOk result (λ closed. AreSettled finished.items closed.history) }
    ensures ended { IfOk result (λ closed. closed.lost ≡ None → IsEnded closed.history closed.journal) }
{
    let mut shared = shared;
    let mut finished = finished;
    for _ in 0..CLOSES {
        match shared.close(alloc, finished) {
            Ok(closed) => return Ok(closed),
            Err((_, same, ends)) => {
                shared = same;
                finished = ends;
            }
        }
        thread::sleep(rt, between_closes());
    }
    Err(RunFault::NoMemory)
}

/// Serves the ends of a desk, the last inlet being the clock's, until the clients' links have been served, and ends
/// them. Time passes in the calling thread, which has the journal synced where that is left for later.
fn serve_desk<'p, 'a, K, R, A, C, G>(
    context: &Context<'a, K, R>,
    inlets: Vec<Inlet<K>>,
    outlet_writers: &'p [OutletWriter<A::Writer, G>],
    plan: RunPlan<A, C>,
    syncs: Option<SyncTimer<LaterSync>>,
) -> Result<Left<K>, RunFault>
where
    K: DeskName + Send + Sync,
    R: Threads + Wait + Sync + Clock + Eprint,
    A: Opener + Send + Drop,
    A::Reader: Read + Send + Drop,
    A::Writer: Prompt + Send + Drop,
    A::Closer: Closer + Send + Drop,
    C: Opener<Reader = A::Reader, Writer = A::Writer, Closer = A::Closer> + Send + Drop,
    G: Gate + Send + Drop,
    requires clock { 0 < length inlets.items }
{
    let mut left = Left::with_room(context.alloc, inlets.len(), outlet_writers.len())?;
    let mut inlets = inlets;
    let Some(clock) = inlets.pop() else {
        unreachable!()
    };
    let RunPlan {
        clients,
        ports,
        rules,
    } = plan;
    let clients = counted::<A, C, K, R>(context, clients)?;
    let ports = left_alone::<A, C, K, R>(context, ports, rules)?;
    let ends = ends_of(context, inlets, outlet_writers, clients, ports, rules)?;
    let Ends { lines, .. } = ends;
    let ticks = ticks_of(context, clock, outlet_writers, syncs);
    match serve(context.rt, context.alloc, lines, ticks) {
        Ok((lines, ticks)) => {
            left.end_lines(lines)?;
            left.end_ticks(ticks)?;
        }
        Err((fault, _, _)) => return Err(RunFault::from(fault)),
    }
    Ok(left)
}

/// Where the links of a line come from: those of a client, or of a port.
type Links<'a, A, C, K, R> = RunOpener<CountedLinks<'a, A>, PortLinks<'a, C, K, R>>;

/// The links of clients, counted.
fn counted<'a, A: Drop, C: Drop, K: DeskName, R>(
    context: &Context<'a, K, R>,
    openers: Vec<A>,
) -> Result<Vec<Links<'a, A, C, K, R>>, AllocError> {
    let counts = &context.states.clients;
    let mut links = Vec::with_capacity(context.alloc, openers.len())?;
    for opener in openers {
        let counted = CountedLinks::new(opener, counts, context.is_over);
        links.push(RunOpener::Client(counted))?;
    }
    Ok(links)
}

/// The links of ports, which are left alone where these rules say so.
fn left_alone<'a, A: Drop, C: Drop, K: DeskName, R: Wait + Clock + Eprint>(
    context: &Context<'a, K, R>,
    openers: Vec<C>,
    rules: LinkRules,
) -> Result<Vec<Links<'a, A, C, K, R>>, AllocError> {
    let mut links = Vec::with_capacity(context.alloc, openers.len())?;
    for opener in openers {
        let number = u16::try_from(links.len().saturating_add(1)).unwrap_or(u16::MAX);
        let port_links = PortLinks::new(context, number, opener, rules.leaves_alone);
        links.push(RunOpener::Port(port_links))?;
    }
    Ok(links)
}
