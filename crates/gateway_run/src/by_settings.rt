//! A gateway by its settings file.

ghost use Rattle.std.specs.Prelude.{IfOk};

use crate::ends::{LinkRules, RunPlan};
use crate::running::run_shown;
use gateway_day::{Day, DayJournal, RunFault};
use gateway_log::{LinkLog, LoggedOpener, Whose};
use gateway_watch::StatusBoard;
use link_sockets::{Acceptor, Connector};
use settings_file::SettingsFile;
use std::alloc::{AllocError, Global};
use std::hash::RandomState;
use std::net::{Net, TcpListener, TcpStream};
use std::sync::Wait;
use std::sync::atomic::AtomicBool;
use std::thread::Threads;
use std::time::Clock;

/// Runs the gateway of a settings file, with its core's indexes over a hasher, with so many links of each client, one
/// after the other, and as many of each port at most, and gives its day. Tells on standard error of each link that
/// comes and goes.
///
/// `NoMemory` and `NoThread` come as `run` has them.
pub fn run_settings<R>(
    rt: &R,
    alloc: Global,
    hasher: RandomState,
    file: SettingsFile,
    links: u32,
    journal: Option<DayJournal>,
) -> Result<Day, RunFault>
where
    R: Threads + Wait + Sync + Clock + Eprint + Net<Listener = TcpListener, Stream = TcpStream>,
{
    let SettingsFile {
        settings,
        addresses,
        listens,
    } = file;
    let is_over = AtomicBool::new(false);
    let plan = plan_of(rt, alloc, &listens, &addresses, links, &is_over)?;
    let board = StatusBoard::new();
    run_shown(rt, alloc, hasher, settings, journal, plan, &is_over, &board)
}

/// Ends the day of a gateway that stopped, by its settings file and its journal, and gives it: what the journal has is
/// stepped again and compared, then that each link that was up is gone; nobody is served; the journal gets its end.
///
/// `OtherDay` where another batch comes of an event: then the journal is as it was. `NoMemory` and `NoThread` come as
/// `run` has them; the journal may go on then.
pub fn end_stopped<R>(
    rt: &R,
    alloc: Global,
    hasher: RandomState,
    file: SettingsFile,
    journal: DayJournal,
) -> Result<Day, RunFault>
where
    R: Threads + Wait + Sync + Clock + Eprint + Net<Listener = TcpListener, Stream = TcpStream>,
{
    let SettingsFile { settings, .. } = file;
    let is_over = AtomicBool::new(true);
    let plan = plan_of(rt, alloc, &[], &[], 0, &is_over)?;
    let board = StatusBoard::new();
    run_shown(
        rt,
        alloc,
        hasher,
        settings,
        Some(journal),
        plan,
        &is_over,
        &board,
    )
}

/// The openers of a gateway: of its clients' links, and of its ports'.
type Openers<'a, R> = RunPlan<
    LoggedOpener<'a, Acceptor<'a, R>, R>,
    LoggedOpener<'a, Connector<'a, R>, R>,
>;

/// So many links of each client and port, by their addresses.
fn plan_of<'a, R: Clock + Eprint>(
    rt: &'a R,
    alloc: Global,
    listens: &'a [String],
    addresses: &'a [String],
    links: u32,
    is_over: &'a AtomicBool,
) -> Result<Openers<'a, R>, AllocError> {
    let mut clients = Vec::with_capacity(alloc, listens.len())?;
    for address in listens {
        let opener = Acceptor::new(rt, address, links, is_over);
        let link_log = LinkLog::new(rt, Whose::Client(clients.len().saturating_add(1)));
        clients.push(LoggedOpener::new(link_log, opener))?;
    }
    let mut ports = Vec::with_capacity(alloc, addresses.len())?;
    for address in addresses {
        let opener = Connector::new(rt, address, links, is_over);
        let link_log = LinkLog::new(rt, Whose::Port(ports.len().saturating_add(1)));
        ports.push(LoggedOpener::new(link_log, opener))?;
    }
    Ok(RunPlan {
        clients,
        ports,
        rules: LinkRules {
            logs_frames: true,
            leaves_alone: false,
        },
    })
}
