//! A day that stopped, stepped again.

ghost use Rattle.std.specs.Prelude.{◌≡◌, ◌++◌, [], length, true, IfErr, IfOk, OnOk};
ghost use Rattle.journal_log.specs.Whole.{HasJust, IsSameFile};
ghost use Rattle.journal_pages.specs.declared.version.Version.TheVariants.{Two};
ghost use Rattle.desk_steps.specs.gate_journal.Day.{day_records};
ghost use Rattle.desk_steps.specs.Settling.{HistoryGoesOn};
ghost use Rattle.desk_steps.specs.gate_journal.Kept.{kept_in};
ghost use Rattle.desk_steps.specs.gate_journal.Cut.{texts};
ghost use Rattle.journal_file.specs.File.{sized_pages};
ghost use Rattle.journal_file.specs.Said.{Says};
ghost use Rattle.desk.specs.Replayed.{IsOtherPart, IsSamePart};
ghost use Rattle.desk.specs.declared.replaying.ReplayFault.TheVariants.{NoMemory};

use crate::outlet_set::OutletSet;
use desk_rings::{DeskName, Inlet, Outlet};
use desk_steps::Desk;
use gate_events::Event;
use gate_journal::{GrowingHistory, OpenLink, RecentPages, TurnPages, Turns, follow};
use journal_file::{DayReader, Ending, NextTurns, ReadFault, SizedBytes, TooManyBytes};
use journal_log::{
    Compared, DayLog, HostFile, LaterSync, OpenFault, StoppedLog, compare_since, mark_of,
};
use std::alloc::{AllocError, Global};
use std::hash::BuildHasher;
use std::io::Read;
use thiserror::Error;

/// So many lists lie at an outlet at most.
const MOST_LISTS: u32 = 4_096;

/// Why a day that stopped isn't stepped again to its end.
#[derive(Clone, Copy, Debug, PartialEq, Eq, Drop, Error)]
pub enum ReplayFault {
    /// Other events or batches come of it than its file has: so many whole batches are the same before the first that
    /// differs.
    #[error("event {0} isn't what these settings give")]
    OtherDay(u64),
    /// Its file can't be read, or is damaged, though it wasn't before.
    #[error("it can't be read")]
    Unread,
    /// What was cut short can't be cut off, or the rest not be made durable.
    #[error("{0}")]
    File(OpenFault),
    /// Memory ran out.
    #[error("out of memory")]
    NoMemory,
}

impl From<TooManyBytes> for ReplayFault {
    fn from(_fault: TooManyBytes) -> ReplayFault {
        ReplayFault::Unread
    }
}

impl From<OpenFault> for ReplayFault {
    fn from(fault: OpenFault) -> ReplayFault {
        match fault {
            OpenFault::NoMemory => ReplayFault::NoMemory,
            fault => ReplayFault::File(fault),
        }
    }
}

impl From<AllocError> for ReplayFault {
    ghost from_gives = { λ _ fault. fault ≡ NoMemory };

    fn from(_error: AllocError) -> ReplayFault {
        ReplayFault::NoMemory
    }
}

impl From<ReadFault> for ReplayFault {
    fn from(fault: ReadFault) -> ReplayFault {
        match fault {
            ReadFault::NoMemory => ReplayFault::NoMemory,
            ReadFault::NoFile(..) | ReadFault::Read(_) => ReplayFault::Unread,
        }
    }
}

/// A day that was stepped again, and goes on.
#[derive(Drop)]
pub struct Replayed {
    /// The links that were up when it stopped.
    pub links: Vec<OpenLink>,
    /// What syncs its journal's file, where that was left for later.
    pub later: Option<LaterSync>,
}

/// Begins a journal in a file that has nothing, where nothing came yet; else nothing is done.
pub(crate) fn begin<K: DeskName, S: BuildHasher + Drop>(
    desk: &mut Desk<K, S>,
    alloc: Global,
    file: HostFile,
) -> Result<bool, AllocError>
    requires { HasJust [] file }
    ensures { desk.new.recorded ≡ desk.old.recorded }
{
    if !has_nothing(desk.history()) {
        return Ok(false);
    }
    desk.begin_journal(DayLog::over(alloc, file))?;
    Ok(true)
}

/// Whether a history has nothing.
fn has_nothing(history: &GrowingHistory) -> bool
    ensures { result ≡ true → history.now.pages ≡ [] }
{
    let RecentPages { left, pages } = history.recent();
    left == 0 && pages.is_empty()
}

/// Steps what the journal of a day has again, by a desk to which nothing came yet, and has it go on in the file. The
/// contract of `begin_journal` and that of the steps say what this does.
pub(crate) fn replay<K: DeskName, S: BuildHasher + Drop>(
    desk: &mut Desk<K, S>,
    alloc: Global,
    stopped: StoppedLog,
    is_later: bool,
    inlets: &mut Vec<Inlet<K>>,
    outlets: &mut Vec<Outlet<K>>,
) -> Result<Replayed, ReplayFault>
    ensures { length inlets.new.items ≡ length inlets.old.items }
{
    if !has_nothing(desk.history()) {
        return Err(ReplayFault::OtherDay(0));
    }
    let mut stopped = stopped;
    let mut reader = DayReader::new(alloc);
    let mut links = Vec::new(alloc);
    let mut written = SizedBytes::new();
    let input = stopped.file();
    let ending = step_file(
        desk,
        alloc,
        input,
        &mut reader,
        &mut written,
        inlets,
        outlets,
        &mut links,
    )?;
    if ending == Ending::Over || !(reader.is_named() || written.size() == 0) {
        return Err(ReplayFault::Unread);
    }
    let (file, later) = synced(alloc, stopped.go_on(&reader, written)?, is_later)?;
    desk.begin_journal(DayLog::over(alloc, file))?;
    Ok(Replayed { links, later })
}

/// A file whose syncs are left for later, where they are to be, with what syncs it then.
fn synced(
    alloc: Global,
    file: HostFile,
    is_later: bool,
) -> Result<(HostFile, Option<LaterSync>), OpenFault>
    ensures { IfOk result (λ both. IsSameFile file both.0) }
{
    if !is_later {
        return Ok((file, None));
    }
    let (file, later) = file.synced_later(alloc)?;
    Ok((file, Some(later)))
}

/// Steps what a day's file has again by a desk of which nothing else is done meanwhile, and compares what comes of it,
/// part by part: each leaves memory once it is compared. Gives how the file ends; the links that are up then are in
/// `links`. What the day tells is let go: it was told before, or is asked for anew.
fn step_file<K: DeskName, S: BuildHasher + Drop, R: Read>(
    desk: &mut Desk<K, S>,
    alloc: Global,
    input: &mut R,
    reader: &mut DayReader,
    written: &mut SizedBytes,
    inlets: &mut Vec<Inlet<K>>,
    outlets: &mut Vec<Outlet<K>>,
    links: &mut Vec<OpenLink>,
) -> Result<Ending, ReplayFault>
    requires same { day_records Two desk.old.recorded.kept.pages ≡ day_records Two reader.old.yielded }
    requires written { written.old ≡ sized_pages Two reader.old.yielded }
    ensures same { OnOk result (day_records Two desk.new.recorded.kept.pages ≡ day_records Two reader.new.yielded) }
    ensures written { OnOk result (written.new ≡ sized_pages Two reader.new.yielded) }
    ensures says { IfOk result (λ ending. Says reader.new.read (kept_in reader.new.yielded) ending) }
    ensures inlets { length inlets.new.items ≡ length inlets.old.items }
{
    let mut batches = 0u64;
    for _ in 0..u64::MAX {
        let part = match reader.next(alloc, input)? {
            NextTurns::Turns(part) => part,
            NextTurns::End(ending) => return Ok(ending),
        };
        batches = replay_part(desk, alloc, batches, &part, inlets, outlets, links)?;
        note_pages(part.pages(), written)?;
        desk.drop_written();
    }
    Err(ReplayFault::Unread)
}

/// Notes pages behind others.
fn note_pages(pages: &[Vec<u8>], written: &mut SizedBytes) -> Result<(), TooManyBytes>
    ensures { OnOk result (written.new ≡ written.old ++ sized_pages Two (texts pages.now)) }
{
    let mut rest = pages;
    while let Some((page, behind)) = rest.split_first() {
        written.push(page.as_slice())?;
        rest = behind;
    }
    Ok(())
}

/// The same of a part of the day, behind so many batches; gives how many there are with it.
fn replay_part<K: DeskName, S: BuildHasher + Drop>(
    desk: &mut Desk<K, S>,
    alloc: Global,
    batches: u64,
    part: &TurnPages,
    inlets: &mut Vec<Inlet<K>>,
    outlets: &mut Vec<Outlet<K>>,
    links: &mut Vec<OpenLink>,
) -> Result<u64, ReplayFault>
    ensures same { IfOk result (λ after. IsSamePart desk.old.recorded.kept.pages desk.new.recorded.kept.pages
        part.now.pages batches after) }
    ensures other { IfErr result (λ fault. IsOtherPart desk.old.recorded.kept.pages desk.new.recorded.kept.pages
        part.now.pages batches fault) }
    ensures inlets { length inlets.new.items ≡ length inlets.old.items }
{
    let mark = mark_of(desk.history());
    step_all(desk, alloc, part.turns(), inlets, outlets, links)?;
    match compare_since(alloc, desk.history(), &mark, batches, part.pages())? {
        Compared::Same(after) => Ok(after),
        Compared::Other(place) => Err(ReplayFault::OtherDay(place)),
    }
}

/// Steps the events of these turns again, until one comes for which there is no inlet.
fn step_all<K: DeskName, S: BuildHasher + Drop>(
    desk: &mut Desk<K, S>,
    alloc: Global,
    turns: Turns<'_>,
    inlets: &mut Vec<Inlet<K>>,
    outlets: &mut Vec<Outlet<K>>,
    links: &mut Vec<OpenLink>,
) -> Result<(), AllocError>
    ensures goes_on { HistoryGoesOn desk.old.recorded desk.new.recorded }
    ensures inlets { length inlets.new.items ≡ length inlets.old.items }
{
    let mut ahead = turns;
    while let Some((event, _, behind)) = ahead.split_first(alloc)? {
        follow(links, &event)?;
        if !put(inlets, event) {
            return Ok(());
        }
        step_again(desk, alloc, outlets)?;
        ahead = behind;
    }
    Ok(())
}

/// Steps the event that lies in an inlet's ring, and lets go what it told. `AllocError` also where none was stepped.
fn step_again<K: DeskName, S: BuildHasher + Drop>(
    desk: &mut Desk<K, S>,
    alloc: Global,
    outlets: &mut Vec<Outlet<K>>,
) -> Result<(), AllocError>
    ensures goes_on { HistoryGoesOn desk.old.recorded desk.new.recorded }
{
    let turned = desk.round(alloc)?;
    let prompt = OutletSet::of_bits(desk.take_prompt());
    let waiting = OutletSet::of_bits(desk.take_waiting());
    let_go(outlets, prompt.and(waiting));
    if turned.steps == 0 {
        return Err(AllocError);
    }
    Ok(())
}

/// Puts an event through the inlet of its source; `false` where there is none.
pub(crate) fn put<K: DeskName>(inlets: &mut Vec<Inlet<K>>, event: Event) -> bool
    ensures { length inlets.new.items ≡ length inlets.old.items }
{
    for place in 0..inlets.len() {
        if event.is_from(&inlets[place].source()) {
            return inlets[place].put(event).is_ok();
        }
    }
    false
}

/// Takes what these outlets were told, and lets it go.
pub(crate) fn let_go<K: DeskName>(outlets: &mut Vec<Outlet<K>>, with_output: OutletSet) {
    for place in 0..outlets.len() {
        if with_output.contains(place) {
            let_all_go(&mut outlets[place]);
        }
    }
}

/// Takes all that lies at an outlet, and lets it go.
fn let_all_go<K: DeskName>(outlet: &mut Outlet<K>) {
    for _ in 0..MOST_LISTS {
        if outlet.take().is_none() {
            return;
        }
    }
}
