//! A day.

use crate::binding::Bound;
use crate::day_flags::DayFlags;
use crate::ending::end_in_time;
use crate::naming::names_of;
use crate::served_port::ServedPort;
use crate::waiting_room::WaitingRoom;
use control_guard::Rules;
use gateway_control::{DayControl, Endpoint, serve_endpoint};
use gateway_log::{LinkLog, Whose};
use gateway_run::{Day, DayJournal, LinkRules, RunFault, RunPlan, SettingsFile, run_shown};
use operator_settings::{AddressRange, DaySettings, OperatorSettings};
use std::alloc::{AllocError, Global};
use std::hash::RandomState;
use std::net::{Net, TcpListener, TcpStream};
use std::random::RandomSource;
use std::sync::{Arc, Wait};
use std::thread::{JoinHandle, Threads};
use std::time::Clock;
use stderr_queue::{LineQueue, Queued};

/// Serves the gateway of a settings file over these listeners until it is told to end, by its control endpoint or by
/// its time of day, and gives its day. Tells of each link that comes and goes, in lines of this queue.
///
/// `NoMemory` and `NoThread` come as `run` has them.
pub fn serve_day<R>(
    rt: &R,
    alloc: Global,
    hasher: RandomState,
    file: SettingsFile,
    operator: OperatorSettings,
    bound: Bound,
    lines: Arc<LineQueue>,
    journal: Option<DayJournal>,
) -> Result<Day, RunFault>
where
    R: Threads
        + Wait
        + Sync
        + Clock
        + RandomSource
        + Net<Listener = TcpListener, Stream = TcpStream>
        + Copy
        + Send
        + Drop
        + 'static,
{
    let Bound { clients, control } = bound;
    let OperatorSettings { day, from, .. } = operator;
    let begun = begin(rt, alloc, &file, day, clients.len(), control, &lines)?;
    let SettingsFile {
        settings,
        addresses,
        ..
    } = file;
    let queued = Queued::new(*rt, &lines);
    let (flags, asked) = (&begun.flags, &begun.asked);
    let ran = match plan_of(&queued, alloc, clients, &from, &addresses, flags, asked) {
        Ok(plan) => run_shown(
            &queued,
            alloc,
            hasher,
            settings,
            journal,
            plan,
            flags.ports(),
            asked.board(),
        ),
        Err(_) => Err(RunFault::NoMemory),
    };
    begun.end(rt);
    ran
}

/// A day that has begun, but for its links: what is asked of it, its flags, the thread that ends it, and those of its
/// endpoint, where there is one.
#[derive(Drop)]
struct Begun {
    asked: Arc<DayControl>,
    flags: Arc<DayFlags>,
    ender: JoinHandle<()>,
    endpoint: Option<Endpoint>,
}

impl Begun {
    /// Says that the day is over, and waits for its threads.
    fn end<R: Threads + Wait>(self, rt: &R) {
        let Begun {
            asked,
            ender,
            endpoint,
            ..
        } = self;
        asked.close();
        ender.join(rt);
        if let Some(endpoint) = endpoint {
            endpoint.join(rt);
        }
    }
}

/// Begins a day with so many clients. What its endpoint shows it by is in its settings file.
fn begin<R>(
    rt: &R,
    alloc: Global,
    file: &SettingsFile,
    day: DaySettings,
    clients: usize,
    control: Option<(TcpListener, Rules)>,
    lines: &Arc<LineQueue>,
) -> Result<Begun, RunFault>
where
    R: Threads + Wait + Clock + RandomSource + Copy + Send + Drop + 'static,
{
    let asked = control_of(alloc, clients)?;
    let flags = flags_of(alloc)?;
    let endpoint = match control {
        Some((listener, rules)) => {
            let names = names_of(rt, alloc, &file.settings, &file.addresses, day)?;
            serve_endpoint(rt, alloc, listener, rules, names, &asked)?
        }
        None => None,
    };
    let ender = ender_of(rt, day, &asked, &flags, lines)?;
    Ok(Begun {
        asked,
        flags,
        ender,
        endpoint,
    })
}

/// The thread that ends a day. Where it can't be had the endpoint's threads are told that the day is over.
fn ender_of<R>(
    rt: &R,
    day: DaySettings,
    asked: &Arc<DayControl>,
    flags: &Arc<DayFlags>,
    lines: &Arc<LineQueue>,
) -> Result<JoinHandle<()>, RunFault>
where
    R: Threads + Wait + Clock + Copy + Send + Drop + 'static,
{
    let theirs = Arc::try_clone(asked)?;
    let told = Arc::try_clone(lines)?;
    match end_in_time(rt, day, theirs, Arc::try_clone(flags)?, told) {
        Some(thread) => Ok(thread),
        None => {
            asked.close();
            Err(RunFault::NoThread)
        }
    }
}

/// What is asked of a day with so many clients, for whoever asks and whoever looks.
fn control_of(alloc: Global, clients: usize) -> Result<Arc<DayControl>, AllocError> {
    Ok(Arc::new(alloc, DayControl::new(alloc, clients)?)?)
}

/// The flags of a day, for whoever sets and whoever looks.
fn flags_of(alloc: Global) -> Result<Arc<DayFlags>, AllocError> {
    Ok(Arc::new(alloc, DayFlags::new())?)
}

/// Where the links of a day come from.
type DayPlan<'a, R> = RunPlan<WaitingRoom<'a, R>, ServedPort<'a, R>>;

/// The links of clients by their listeners, from these addresses, and those of ports by theirs.
fn plan_of<'a, R: Clock + Eprint>(
    rt: &'a R,
    alloc: Global,
    listeners: Vec<TcpListener>,
    from: &'a [Vec<AddressRange>],
    addresses: &'a [String],
    flags: &'a DayFlags,
    asked: &'a DayControl,
) -> Result<DayPlan<'a, R>, AllocError> {
    let clients = rooms_of(rt, alloc, listeners, from, flags, asked)?;
    let ports = ports_of(rt, alloc, addresses, flags)?;
    Ok(RunPlan {
        clients,
        ports,
        rules: LinkRules {
            logs_frames: true,
            leaves_alone: true,
        },
    })
}

/// The links of clients, by their listeners, in their order.
fn rooms_of<'a, R: Clock + Eprint>(
    rt: &'a R,
    alloc: Global,
    listeners: Vec<TcpListener>,
    from: &'a [Vec<AddressRange>],
    flags: &'a DayFlags,
    asked: &'a DayControl,
) -> Result<Vec<WaitingRoom<'a, R>>, AllocError> {
    let mut rooms = Vec::with_capacity(alloc, listeners.len())?;
    for listener in listeners {
        let at = rooms.len();
        rooms.push(room_of(rt, alloc, listener, at, from, flags, asked))?;
    }
    Ok(rooms)
}

/// The links of the client at this place, from 0, by its listener.
fn room_of<'a, R: Clock + Eprint>(
    rt: &'a R,
    alloc: Global,
    listener: TcpListener,
    at: usize,
    from: &'a [Vec<AddressRange>],
    flags: &'a DayFlags,
    asked: &'a DayControl,
) -> WaitingRoom<'a, R> {
    let ranges = match from.get(at) {
        Some(ranges) => ranges.as_slice(),
        None => &[],
    };
    let link_log = LinkLog::new(rt, Whose::Client(at.saturating_add(1)));
    let ends = match asked.link(at) {
        Some(flag) => flag,
        None => flags.clients(),
    };
    WaitingRoom::new(rt, alloc, listener, ranges, link_log, flags, ends)
}

/// The links of ports, by their addresses, in their order.
fn ports_of<'a, R: Clock + Eprint>(
    rt: &'a R,
    alloc: Global,
    addresses: &'a [String],
    flags: &'a DayFlags,
) -> Result<Vec<ServedPort<'a, R>>, AllocError> {
    let mut ports = Vec::with_capacity(alloc, addresses.len())?;
    for address in addresses {
        let link_log = LinkLog::new(rt, Whose::Port(ports.len().saturating_add(1)));
        ports.push(ServedPort::new(rt, address.as_str(), link_log, flags))?;
    }
    Ok(ports)
}
