//! A day that is over, and its audit as it is printed.

ghost use Rattle.std.specs.Prelude.{◌≡◌, ◌≤◌, [], true, false, IfOk, OnOk, MatchOption};
ghost use Rattle.std.specs.Io.KnownBytes.{Appends};
ghost use Rattle.gate_law.specs.Settings as settings;
ghost use Rattle.gate_law.specs.Events as law;
ghost use Rattle.gate_lines.specs.AuditLines.{shown_audit};
ghost use Rattle.gate_lines.specs.gate_audit.Auditing.{IsAuditing};
ghost use Rattle.gate_law.specs.Holds.{Holds};
ghost use Rattle.gate_lines.specs.gate_audit.gate_journal.Kept.{kept_in, turns, turns_onto};
ghost use Rattle.journal_file.specs.Said.{Says};
ghost use Rattle.journal_file.specs.declared.ending.Ending.TheVariants.{Over};
ghost use Rattle.gateway_day.specs.Faults.{status_of};
ghost use Rattle.gate_journal.specs.Same.{IsSameDay};
ghost use Rattle.gate_journal.specs.Links.{open_behind, open_in};
ghost use Rattle.gateway_day.specs.Audits.{AuditIsWritten, AuditIsWrittenOf, FileHas, IsFileRead, IsFileSaying};
ghost use Rattle.gateway_day.specs.Audits.{IsFoundOf};

use crate::fault::RunFault;
use desk_steps::Closed;
use gate_audit::{DayAudit, OrderPair, audit};
use gate_journal::{GrowingHistory, History, OpenLink, TurnPages, first_other, follow};
use gate_lines::write_audit;
use gate_settings::Settings;
use journal_days::next_number;
use journal_file::{DayFile, DayReader, Ending, FileFault, NextTurns, read_file};
use journal_log::{HostFile, TurnLog};
use journal_pages::{Noted, PageFault};
use link_io::LinkFault;
use order_accounts::ReadingFault;
use std::alloc::{AllocError, Global};
use std::io::{Read, Write};
use std::marker::Model;

/// The history of a day that is over.
#[derive(Drop)]
pub(crate) enum DayHistory {
    /// All of it is in memory.
    Whole(History),
    /// Its older pages left memory: its journal has them.
    Written(GrowingHistory),
}

/// A day of a gateway that is over. Its type keeps that all that is promised holds of its history, and that a journal
/// that wasn't lost has all of it, and its end.
#[derive(Drop)]
pub struct Day {
    history: DayHistory,
    settings: Settings,
    fault: Option<LinkFault>,
    journal: Option<TurnLog<HostFile>>,
    is_lost: bool,
}

impl Model for Day {
    ghost use Rattle.std.specs.Prelude.{◌≡◌, false};
    ghost use Rattle.gate_law.specs.Holds.{Holds};
    ghost use Rattle.gate_lines.specs.gate_audit.gate_journal.Kept.{turns};
    ghost use Rattle.desk.specs.Ahead.{IsEnded};
    ghost use Rattle.gateway_day.specs.Days.{is_whole, kept_of};
    ghost use Rattle.gateway_day.specs.Audits.{DayState};

    ghost Value = { DayState };

    ghost view = { λ d. record {
      settings = d.settings;
      kept = kept_of d.history;
      is_whole = is_whole d.history;
      fault = d.fault;
      journal = d.journal;
      is_lost = d.is_lost;
    } };

    ghost invariant = { λ d. Holds d.settings (turns (kept_of d.history))
        × (d.is_lost ≡ false → IsEnded (kept_of d.history) d.journal) };
}

/// The audit of a day that is over: each order that was accepted by both of its accounts; the links that are up at its
/// end; and whether its journal's file has the day, and its end, of a day that has one. Contracts see what was read of
/// the file, too.
#[derive(Drop)]
pub struct AuditedDay {
    pub settings: Settings,
    pub pairs: Vec<OrderPair>,
    pub links: Vec<OpenLink>,
    pub has_day: bool,
    pub read: Noted,
}

impl Day {
    ghost use Rattle.std.specs.Prelude.{◌≡◌, false, true, IfOk, IfSome, None};
    ghost use Rattle.gate_law.specs.Holds.{Holds};
    ghost use Rattle.gate_lines.specs.gate_audit.gate_journal.Kept.{turns};
    ghost use Rattle.desk.specs.Ahead.{IsEnded};
    ghost use Rattle.gateway_day.specs.Audits.{IsFileAudited, IsFoundOf, IsSeen};

    /// The day of a desk that was closed, with the first fault of a link. Takes no memory.
    pub fn of(closed: Closed, fault: Option<LinkFault>) -> Day
        requires holds { Holds closed.settings (turns closed.history) }
        requires ended { closed.lost ≡ None → IsEnded closed.history closed.journal }
        ensures settings { result.settings ≡ closed.settings }
        ensures kept { result.kept ≡ closed.history }
        ensures fault { result.fault ≡ fault }
    {
        let Closed {
            history,
            settings,
            journal,
            lost,
        } = closed;
        let history = match history.into_whole() {
            Ok(whole) => DayHistory::Whole(whole),
            Err(written) => DayHistory::Written(written),
        };
        Day {
            history,
            settings,
            fault,
            journal,
            is_lost: lost.is_some(),
        }
    }

    /// Each event of the day with its batch, where all of them are in memory. All that is promised holds of them.
    pub fn history(&self) -> Option<&History>
        ensures value { IfSome result (λ history. history.now ≡ self.now.kept) }
        ensures holds { IfSome result (λ history. Holds self.now.settings (turns history.now)) }
        ensures whole { result ≡ None → self.now.is_whole ≡ false }
    {
        match &self.history {
            DayHistory::Whole(history) => Some(history),
            DayHistory::Written(_) => None,
        }
    }

    /// The settings that it ran by.
    pub fn settings(&self) -> &Settings
        ensures { result.now ≡ self.now.settings }
    {
        &self.settings
    }

    /// The first fault of a link: of the clients' in their order, then of the ports'. `None` where no link had one.
    pub fn fault(&self) -> Option<LinkFault>
        ensures { result ≡ self.now.fault }
    {
        self.fault
    }

    /// Its audit, of a day whose history is in memory. `NoDay` where it isn't.
    pub fn audited(self, alloc: Global) -> Result<AuditedDay, RunFault>
        ensures settings { IfOk result (λ day. day.settings ≡ self.settings) }
        ensures found { IfOk result (λ day. IsFoundOf self.settings self.kept day.pairs.items day.links.items) }
    {
        let Day {
            history,
            settings,
            ..
        } = self;
        let DayHistory::Whole(history) = history else {
            return Err(RunFault::NoDay);
        };
        let links = links_of(alloc, &history)?;
        let pairs = audit(alloc, &history, &settings)?;
        Ok(AuditedDay {
            settings,
            pairs,
            links,
            has_day: true,
            read: Noted::new(),
        })
    }

    /// Its audit, once its journal's file was read again: where pages of the history left memory the audit is of what
    /// the file has, page by page, of a journal that was lost so far as that has it. Such a one is never said to have
    /// the day: what its file has may not be durable.
    ///
    /// `NoDay` where pages left memory and the file is no day's, or can't be read.
    pub fn audited_by<R: Read>(self, alloc: Global, input: &mut R) -> Result<AuditedDay, RunFault>
        ensures settings { IfOk result (λ day. day.settings ≡ self.settings) }
        ensures has { IfOk result (λ day. day.has_day ≡ true
            → IsFileAudited self.settings day.read.bytes day.pairs.items day.links.items) }
        ensures lost { IfOk result (λ day. day.has_day ≡ true → self.is_lost ≡ false) }
        ensures memory { IfOk result (λ day. self.is_whole ≡ true
            → IsFoundOf self.settings self.kept day.pairs.items day.links.items) }
        ensures file { IfOk result (λ day. self.is_lost ≡ false → IsSeen self.journal day.read.bytes
            → IsFoundOf self.settings self.kept day.pairs.items day.links.items) }
    {
        let Day {
            history,
            settings,
            journal,
            is_lost,
            ..
        } = self;
        let _ = size_of(&journal);
        match history {
            DayHistory::Whole(history) => audit_whole(alloc, history, settings, is_lost, input),
            DayHistory::Written(history) => audit_written(alloc, history, settings, is_lost, input),
        }
    }
}

/// The links that are up behind a history: those that came and haven't gone.
fn links_of(alloc: Global, history: &History) -> Result<Vec<OpenLink>, AllocError>
    ensures { IfOk result (λ links. links.items ≡ open_in history.now.events) }
{
    let mut links = Vec::new(alloc);
    let mut left = history.turns();
    while let Some((event, _, behind)) = left.split_first(alloc)? {
        follow(&mut links, &event)?;
        left = behind;
    }
    Ok(links)
}

/// How many bytes the file of a journal has: fewer than 2^64. Takes no memory.
fn size_of(journal: &Option<TurnLog<HostFile>>) -> u64
    ensures { FileHas journal.now result }
{
    match journal {
        Some(log) => log.file().size(),
        None => 0,
    }
}

/// Whether a journal has its day: its file has it, and the journal wasn't lost.
fn is_kept(has: bool, is_lost: bool) -> bool
    ensures { result ≡ true → (has ≡ true) × (is_lost ≡ false) }
{
    has && !is_lost
}

/// The audit of a history that is in memory, and whether the file of a journal that wasn't lost has just it, and its
/// end.
fn audit_whole<R: Read>(
    alloc: Global,
    history: History,
    settings: Settings,
    is_lost: bool,
    input: &mut R,
) -> Result<AuditedDay, RunFault>
    ensures settings { IfOk result (λ day. day.settings ≡ settings) }
    ensures found { IfOk result (λ day. IsFoundOf settings history day.pairs.items day.links.items) }
    ensures has { IfOk result (λ day. day.has_day ≡ true → IsFileSaying history day.read.bytes) }
    ensures lost { IfOk result (λ day. day.has_day ≡ true → is_lost ≡ false) }
{
    let mut file = Vec::new(alloc);
    let is_read = input.read_to_end(&mut file).is_ok();
    let mut read = Noted::new();
    read.note(&file);
    let has_file = is_read && has_day(alloc, &history, &file)?;
    drop(file);
    let links = links_of(alloc, &history)?;
    let pairs = audit(alloc, &history, &settings)?;
    Ok(AuditedDay {
        settings,
        pairs,
        links,
        has_day: is_kept(has_file, is_lost),
        read,
    })
}

/// Whether a journal's file, as it was read again, has just this history, and its end.
fn has_day(alloc: Global, history: &History, file: &[u8]) -> Result<bool, AllocError>
    ensures { IfOk result (λ has. has ≡ true → IsFileSaying history.now file.now) }
{
    match read_file(alloc, file) {
        Ok(DayFile { day: read, ending }) => match ending {
            Ending::Over => Ok(is_same(&read, history)),
            Ending::GoesOn | Ending::Torn(_) => Ok(false),
        },
        Err((_, FileFault::Page(PageFault::NoMemory))) => Err(AllocError),
        Err(_) => Ok(false),
    }
}

/// Whether two histories have the same events with the same batches.
fn is_same(read: &History, day: &History) -> bool
    ensures { result ≡ true → IsSameDay read.now day.now }
{
    match first_other(read.pages(), day.pages()) {
        None => true,
        Some(_) => false,
    }
}

/// The audit of what a journal's file has, read page by page, and whether that is as long as this history, and the day
/// over, of a journal that wasn't lost.
fn audit_written<R: Read>(
    alloc: Global,
    history: GrowingHistory,
    settings: Settings,
    is_lost: bool,
    input: &mut R,
) -> Result<AuditedDay, RunFault>
    ensures settings { IfOk result (λ day. day.settings ≡ settings) }
    ensures read { IfOk result (λ day. IsFileRead settings history day.read.bytes day.pairs.items day.links.items
        day.has_day) }
    ensures lost { IfOk result (λ day. day.has_day ≡ true → is_lost ≡ false) }
{
    let mut reader = DayReader::new(alloc);
    let mut audit = DayAudit::new(alloc, &settings)?;
    let mut links = Vec::new(alloc);
    let (ending, number) = take_file(alloc, input, &mut reader, &mut audit, &mut links)?;
    let is_all = number == next_number(history.recent().pages);
    let pairs = audit.pairs(alloc, &settings)?;
    let has_file = is_all && is_over(ending);
    Ok(AuditedDay {
        settings,
        pairs,
        links,
        has_day: is_kept(has_file, is_lost),
        read: reader.into_read(),
    })
}

/// Whether a file ends so whose day is over.
fn is_over(ending: Ending) -> bool
    ensures { result ≡ true → ending ≡ Over }
{
    matches!(ending, Ending::Over)
}

/// Takes the turns of a day's file, and gives how it ends, and the number of the page behind its last one. The links
/// that are up behind it are in `links`, where none was.
fn take_file<R: Read>(
    alloc: Global,
    input: &mut R,
    reader: &mut DayReader,
    audit: &mut DayAudit,
    links: &mut Vec<OpenLink>,
) -> Result<(Ending, u64), RunFault>
    requires reader { reader.old.yielded ≡ [] }
    requires links { links.old.items ≡ [] }
    ensures says { IfOk result (λ end. Says reader.new.read (kept_in reader.new.yielded) end.0) }
    ensures audit { OnOk result ((s : settings.Settings) → IsAuditing s [] audit.old
        → IsAuditing s (turns (kept_in reader.new.yielded)) audit.new) }
    ensures links { OnOk result (links.new.items ≡ open_in (kept_in reader.new.yielded).events) }
{
    let mut number = 0u64;
    for _ in 0..u64::MAX {
        match reader.next(alloc, input)? {
            NextTurns::Turns(part) => {
                take_part(alloc, &part, audit, links)?;
                number = next_number(part.pages());
            }
            NextTurns::End(ending) => return Ok((ending, number)),
        }
    }
    Err(RunFault::NoDay)
}

/// Takes the turns of a part of a day.
fn take_part(
    alloc: Global,
    part: &TurnPages,
    audit: &mut DayAudit,
    links: &mut Vec<OpenLink>,
) -> Result<(), ReadingFault>
    ensures audit { OnOk result ((h : law.History) (s : settings.Settings) → IsAuditing s h audit.old
        → IsAuditing s (turns_onto part.now.events part.now.batches h) audit.new) }
    ensures links { OnOk result (links.new.items ≡ open_behind links.old.items part.now.events) }
{
    let mut ahead = part.turns();
    while let Some((event, batch, behind)) = ahead.split_first(alloc)? {
        follow(links, &event)?;
        audit.take(alloc, &event, &batch)?;
        ahead = behind;
    }
    Ok(())
}

/// Ends a day, once it was audited: writes the audit to `output`, a line for each order that was accepted, and one for
/// how many there are and how many agree.
///
/// Answers the status that a program ends with which does so: 0 where nothing of the day is missing in its journal and
/// both accounts of each order agree; else 1: where its file doesn't have the day, with `gateway: journal: it doesn't
/// have the day` on `faults`, where the accounts of an order don't agree, where memory runs out, with `out of memory`,
/// and where a write fails, with `read or write failed`.
pub fn end_day<W: Write, F: Write>(
    alloc: Global,
    day: &AuditedDay,
    output: &mut W,
    faults: &mut F,
) -> u8
    ensures status { result ≤ 1 }
    ensures kept { result ≡ 0 → day.now.has_day ≡ true }
    ensures shown { result ≡ 0
        → Appends (W.contents output.old) (W.contents output.new) (shown_audit day.now.pairs.items) }
{
    let audited = write_audit(alloc, day.pairs.as_slice(), output, faults);
    if day.has_day {
        return audited;
    }
    write_fault(RunFault::NoDay, faults)
}

/// Ends a day that stopped, and that nobody was served on since, as `end_day` does. Status 1 also where a link is up at
/// its end, with `gateway: journal: a link is up at the day's end` on `faults`.
pub fn end_stopped_day<W: Write, F: Write>(
    alloc: Global,
    day: &AuditedDay,
    output: &mut W,
    faults: &mut F,
) -> u8
    ensures status { result ≤ 1 }
    ensures kept { result ≡ 0 → day.now.has_day ≡ true }
    ensures nobody { result ≡ 0 → day.now.links.items ≡ [] }
    ensures shown { result ≡ 0
        → Appends (W.contents output.old) (W.contents output.new) (shown_audit day.now.pairs.items) }
{
    let ended = end_day(alloc, day, output, faults);
    if day.links.is_empty() {
        return ended;
    }
    write_fault(RunFault::LinkUp, faults)
}

/// Writes the audit of a day whose history is in memory, as `end_day` does. Status 1 also where it isn't, with
/// `gateway: journal: it doesn't have the day` on `faults`, and where a number of an account is larger than its integer
/// holds, with `an order's account is too large`.
pub fn audit_day<W: Write, F: Write>(alloc: Global, day: Day, output: &mut W, faults: &mut F) -> u8
    ensures status { result ≤ 1 }
    ensures audited { result ≡ 0
        → AuditIsWrittenOf day.settings (turns day.kept) (W.contents output.old) (W.contents output.new) }
    ensures written { result ≡ 0 → AuditIsWritten (W.contents output.old) (W.contents output.new) }
{
    match day.audited(alloc) {
        Ok(audited) => end_day(alloc, &audited, output, faults),
        Err(fault) => write_fault(fault, faults).min(1),
    }
}

/// Tells why a gateway could not run to its end, and answers its program's status: 2 where a journal's day isn't that
/// of these settings, else 1.
pub fn write_fault<F: Write>(fault: RunFault, faults: &mut F) -> u8
    ensures { result ≡ status_of fault }
{
    let _ = match fault {
        RunFault::NoMemory => writeln!(faults, "out of memory"),
        RunFault::NoThread => writeln!(faults, "gateway: no thread"),
        RunFault::OtherDay(place) => writeln!(
            faults,
            "gateway: journal: event {place} isn't what these settings give"
        ),
        RunFault::Unread => writeln!(faults, "gateway: journal: it can't be read"),
        RunFault::Journal(fault) => writeln!(faults, "gateway: journal: {fault}"),
        RunFault::TooLarge => writeln!(faults, "an order's account is too large"),
        RunFault::LinkUp => writeln!(faults, "gateway: journal: a link is up at the day's end"),
        RunFault::NoDay => writeln!(faults, "gateway: journal: it doesn't have the day"),
    };
    match fault {
        RunFault::OtherDay(_) => 2,
        _ => 1,
    }
}
