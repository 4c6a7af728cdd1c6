//! A day's journal, begun or gone on with, before anybody is served.

ghost use Rattle.std.specs.Prelude.{◌≡◌, length};

use desk::{Replayed, Shared};
use desk_rings::{DeskName, Inlet, Outlet};
use gate_journal::OpenLink;
use gate_workers::Clock as _;
use gateway_day::{DayJournal, JournalFile, NewFile, RunFault, Syncs};
use gateway_log::SyncTimer;
use journal_log::LaterSync;
use link_sockets::SystemClock;
use std::alloc::{AllocError, Global};
use std::hash::RandomState;
use std::sync::Wait;
use std::time::{Clock, Duration};

/// Has a desk that was opened just now write what it steps into a day's journal, where there is one. Of a day that
/// stopped what the journal has is stepped again first and compared (`Shared::replay`), and then it is stepped that
/// each link that was up is gone. Gives what has the journal synced, where that is left for later.
///
/// `OtherDay` where other events or batches come of it, `Unread` where its file can't be read, `NoMemory` where memory
/// ran out: then nothing was written. `Journal` where the file can't be cut or synced.
pub(crate) fn go_on<K: DeskName, R: Wait + Clock>(
    rt: &R,
    alloc: Global,
    shared: &Shared<K, RandomState>,
    inlets: &mut Vec<Inlet<K>>,
    outlets: &mut Vec<Outlet<K>>,
    journal: Option<DayJournal>,
) -> Result<Option<SyncTimer<LaterSync>>, RunFault>
    ensures { length inlets.new.items ≡ length inlets.old.items }
{
    let Some(DayJournal { file, syncs }) = journal else {
        return Ok(None);
    };
    let later = match file {
        JournalFile::New(file) => begin(rt, alloc, shared, file, syncs)?,
        JournalFile::Stopped(stopped) => {
            let is_later = syncs != Syncs::Each;
            let Replayed { links, later } = shared.replay(
                rt, alloc, stopped, is_later, inlets, outlets,
            )?;
            end_links(rt, alloc, shared, links, inlets, outlets)?;
            later
        }
    };
    Ok(timer_of(later, syncs))
}

/// Begins a journal in a file that was made.
fn begin<K: DeskName, R: Wait>(
    rt: &R,
    alloc: Global,
    shared: &Shared<K, RandomState>,
    file: NewFile,
    syncs: Syncs,
) -> Result<Option<LaterSync>, RunFault> {
    let file = file.into_file();
    let (file, later) = match syncs {
        Syncs::Each => (file, None),
        Syncs::Every(_) | Syncs::Never => {
            let (file, later) = file.synced_later(alloc)?;
            (file, Some(later))
        }
    };
    if !shared.begin_journal(rt, alloc, file)? {
        return Err(RunFault::OtherDay(0));
    }
    Ok(later)
}

/// Steps that each of these links is gone.
fn end_links<K: DeskName, R: Wait + Clock>(
    rt: &R,
    alloc: Global,
    shared: &Shared<K, RandomState>,
    links: Vec<OpenLink>,
    inlets: &mut Vec<Inlet<K>>,
    outlets: &mut Vec<Outlet<K>>,
) -> Result<(), AllocError>
    ensures { length inlets.new.items ≡ length inlets.old.items }
{
    let at = SystemClock::new(rt, Duration::ZERO).now_ms();
    for link in links {
        if !shared.step_alone(rt, alloc, link.gone(at), inlets, outlets)? {
            return Err(AllocError);
        }
    }
    Ok(())
}

/// What has a journal synced each so many milliseconds; none where that isn't asked for.
fn timer_of(later: Option<LaterSync>, syncs: Syncs) -> Option<SyncTimer<LaterSync>> {
    match (later, syncs) {
        (Some(later), Syncs::Every(every)) => Some(SyncTimer::each(later, every)),
        _ => None,
    }
}
