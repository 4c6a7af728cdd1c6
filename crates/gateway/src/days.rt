//! Days that are asked for, and how they end.

use super::no_seed;
use gateway_run::{
    AuditedDay, Day, DayJournal, RunFault, SettingsFile, end_day, end_stopped, end_stopped_day,
    run_settings, write_fault,
};
use gateway_serve::{Bound, serve_day, write_open_orders};
use operator_settings::OperatorSettings;
use std::alloc::Global;
use std::fs::{File, Files};
use std::hash::RandomState;
use std::io::{self, BufWriter, Write};
use std::net::{Net, TcpListener, TcpStream};
use std::process::ExitCode;
use std::random::RandomSource;
use std::sync::{Arc, Wait};
use std::thread::Threads;
use std::time::Clock;
use stderr_queue::{LineQueue, Queued, start_writer};

/// A day that is asked for: its settings, and its journal, where it has one.
pub(crate) enum AskedDay {
    /// It is run, with so many links of each client.
    Run {
        file: SettingsFile,
        journal: Option<DayJournal>,
        links: u16,
    },
    /// It is served over these listeners until it is told to end.
    Serve {
        file: SettingsFile,
        journal: Option<DayJournal>,
        operator: OperatorSettings,
        bound: Bound,
    },
    /// It stopped, and is ended.
    End {
        file: SettingsFile,
        journal: DayJournal,
    },
}

/// How a day ends: one that was run; one that was served, whose orders that aren't over are named; and one that
/// stopped, of which that is told too, and which has no link up at its end.
#[derive(Clone, Copy, PartialEq, Eq)]
enum DayEnd {
    Run,
    Served,
    Stopped,
}

// Not derived: then each way out drops it in one call (docs/DECISIONS.md, "Drops").
impl Drop for AskedDay {
    fn drop(self) {
        match self {
            AskedDay::Run {
                file: _,
                journal: _,
                links: _,
            } => {}
            AskedDay::Serve {
                file: _,
                journal: _,
                operator: _,
                bound: _,
            } => {}
            AskedDay::End {
                file: _,
                journal: _,
            } => {}
        }
    }
}

impl AskedDay {
    /// How it ends.
    fn end(&self) -> DayEnd {
        match self {
            AskedDay::Run { .. } => DayEnd::Run,
            AskedDay::Serve { .. } => DayEnd::Served,
            AskedDay::End { .. } => DayEnd::Stopped,
        }
    }

    /// Has it, and gives it once it is over.
    fn have<R>(self, rt: &R, alloc: Global, hasher: RandomState) -> Result<Day, RunFault>
    where
        R: Threads
            + Wait
            + Sync
            + Clock
            + Net<Listener = TcpListener, Stream = TcpStream>
            + RandomSource
            + Eprint
            + Copy
            + Send
            + Drop
            + 'static,
    {
        match self {
            AskedDay::Run {
                file,
                journal,
                links,
            } => {
                let lines = lines_of(rt, alloc)?;
                let queued = Queued::new(*rt, &lines);
                let ran = run_settings(&queued, alloc, hasher, file, u32::from(links), journal);
                lines.end(rt);
                ran
            }
            AskedDay::Serve {
                file,
                journal,
                operator,
                bound,
            } => {
                let lines = lines_of(rt, alloc)?;
                let theirs = Arc::try_clone(&lines)?;
                let ran = serve_day(rt, alloc, hasher, file, operator, bound, theirs, journal);
                lines.end(rt);
                ran
            }
            AskedDay::End { file, journal } => end_stopped(rt, alloc, hasher, file, journal),
        }
    }
}

/// Has a day that is asked for, and ends it: writes its audit, looks whether the journal at this path has it, where
/// there is one, and names the orders that aren't over, but for a day that is run.
pub(crate) fn have_day<R, F: Write>(
    rt: &R,
    alloc: Global,
    asked: AskedDay,
    path: Option<&str>,
    faults: &mut F,
) -> ExitCode
where
    R: Threads
        + Wait
        + Sync
        + Clock
        + Net<Listener = TcpListener, Stream = TcpStream>
        + RandomSource
        + Files<File = File>
        + Print
        + Eprint
        + Copy
        + Send
        + Drop
        + 'static,
{
    let Ok(hasher) = RandomState::new(rt) else {
        return no_seed(faults);
    };
    let Ok(mut output) = BufWriter::new(alloc, io::writer(rt)) else {
        return ExitCode::from(write_fault(RunFault::NoMemory, faults));
    };
    let end = asked.end();
    let status = match asked.have(rt, alloc, hasher) {
        Ok(day) => status_of(rt, alloc, day, path, end, &mut output, faults),
        Err(fault) => write_fault(fault, faults),
    };
    ExitCode::from(status)
}

/// A queue for what is told while links are served, so that no reader of standard error holds up anybody.
fn lines_of<R>(rt: &R, alloc: Global) -> Result<Arc<LineQueue>, RunFault>
where
    R: Threads + Wait + Clock + Eprint + Copy + Send + Drop + 'static,
{
    match start_writer(rt, alloc) {
        Ok(Some(lines)) => Ok(lines),
        Ok(None) => Err(RunFault::NoThread),
        Err(_) => Err(RunFault::NoMemory),
    }
}

/// Ends a day. The status is 0 where all orders agree, its journal has it, where there is one, all of the orders that
/// aren't over could be named, where they are to be, and no link is up at the end of one that stopped.
fn status_of<R: Files<File = File>, W: Write, F: Write>(
    rt: &R,
    alloc: Global,
    day: Day,
    path: Option<&str>,
    end: DayEnd,
    output: &mut W,
    faults: &mut F,
) -> u8 {
    let audited = match path {
        Some(path) => match written_at(rt, path) {
            Ok(mut file) => day.audited_by(alloc, &mut file),
            Err(_) => {
                let _ = writeln!(faults, "gateway: cannot read {path}");
                day.audited(alloc).map(unwritten)
            }
        },
        None => day.audited(alloc),
    };
    let day = match audited {
        Ok(day) => day,
        Err(fault) => return write_fault(fault, faults),
    };
    let status = match end {
        DayEnd::Run | DayEnd::Served => end_day(alloc, &day, output, faults),
        DayEnd::Stopped => end_stopped_day(alloc, &day, output, faults),
    };
    if end != DayEnd::Run && !write_open_orders(alloc, &day.pairs, &day.settings, faults) {
        return status.max(1);
    }
    status
}

/// The same day, which its journal doesn't have.
fn unwritten(day: AuditedDay) -> AuditedDay {
    let mut day = day;
    day.has_day = false;
    day
}

/// The file of a journal, all of it on the disk: also where syncing it was left for later.
fn written_at<R: Files<File = File>>(rt: &R, path: &str) -> io::Result<File> {
    let file = File::open(rt, path)?;
    file.sync_all()?;
    Ok(file)
}
