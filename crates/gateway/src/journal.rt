//! The journal of a day that is served, or that stopped and is ended.

use super::{out_of_memory, refused};
use command_lines::{Syncs, syncs_of};
use gateway_run::{DayJournal, StoppedDay, StoppedFault};
use journal_log::{FoundLog, OpenFault, StoppedLog, find_log, open_log};
use std::process::ExitCode;

/// The journal at a path, where one is named, synced as was said; or the status where it can't be had.
pub(crate) fn journal_asked(
    rt: &HostRuntime,
    path: Option<&str>,
    said: Option<&str>,
) -> Result<Option<DayJournal>, ExitCode> {
    let Some(syncs) = syncs_of(said) else {
        return Err(refused(
            rt,
            "--sync is each, never, or milliseconds from 1ms to 60000ms",
        ));
    };
    match path {
        Some(path) => Ok(Some(journal_at(rt, path, syncs)?)),
        None if said.is_some() => Err(refused(rt, "--sync is of a journal: --journal FILE")),
        None => Ok(None),
    }
}

/// The journal at a path: made new, or a day that stopped and goes on. It is locked as long as the gateway runs. The
/// status where it can't be had: it is in use, is of a day that is over, or is damaged.
fn journal_at(rt: &HostRuntime, path: &str, syncs: Syncs) -> Result<DayJournal, ExitCode> {
    match open_log(rt, path) {
        Ok(FoundLog::New(file)) => Ok(synced(DayJournal::begun(file), syncs)),
        Ok(FoundLog::There(stopped)) => {
            let journal = stopped_day(rt, path, stopped, "goes on")?;
            Ok(synced(journal, syncs))
        }
        Err(fault) => Err(unopened(rt, path, fault)),
    }
}

/// The journal of a day that stopped and is ended: one that is there. The status as above.
pub(crate) fn stopped_at(rt: &HostRuntime, path: &str) -> Result<DayJournal, ExitCode> {
    match find_log(rt, path) {
        Ok(stopped) => stopped_day(rt, path, stopped, "ends"),
        Err(fault) => Err(unopened(rt, path, fault)),
    }
}

/// A journal that is synced so.
fn synced(journal: DayJournal, syncs: Syncs) -> DayJournal {
    match syncs {
        Syncs::Each => journal,
        Syncs::Every(milliseconds) => journal.synced_later(Some(u64::from(milliseconds))),
        Syncs::Never => journal.synced_later(None),
    }
}

/// The journal of a day that stopped, behind what its file has of it. Tells what becomes of it, and what was cut off.
fn stopped_day(
    rt: &HostRuntime,
    path: &str,
    stopped: StoppedLog,
    becomes: &str,
) -> Result<DayJournal, ExitCode> {
    let StoppedDay {
        journal,
        events,
        torn,
    } = match DayJournal::of_stopped(rt.alloc(), stopped) {
        Ok(day) => day,
        Err(StoppedFault::NoMemory) => return Err(out_of_memory(rt)),
        Err(StoppedFault::File(fault)) => return Err(unopened(rt, path, fault)),
        Err(fault) => {
            let _ = eprintln!(rt; "gateway: journal: {path}: {fault}");
            return Err(ExitCode::from(2));
        }
    };
    let _ = eprintln!(rt; "gateway: journal: {path} {becomes} behind {events} events");
    if torn > 0 {
        let _ = eprintln!(rt;
            "gateway: journal: {torn} bytes of a write that was cut short are cut off"
        );
    }
    Ok(journal)
}

/// Tells why a journal can't be had.
fn unopened(rt: &HostRuntime, path: &str, fault: OpenFault) -> ExitCode {
    if fault == OpenFault::NoMemory {
        return out_of_memory(rt);
    }
    let _ = eprintln!(rt; "gateway: journal: {path}: {fault}");
    ExitCode::from(2)
}
