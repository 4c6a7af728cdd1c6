//! A history over pages.

ghost use Rattle.std.specs.Prelude.{◌≡◌, ◌%◌, ◌^◌, ◌⊎◌, ◌++◌, ◌∷◌, [], None, Some, map, length};
ghost use Rattle.std.specs.Prelude.{IfOk, OnErr, MatchResult};
ghost use Rattle.gate_events.specs.Seen.{batch_seen};
ghost use Rattle.gate_events.specs.Sources.{events_from, lists_to};
ghost use Rattle.journal_pages.specs.declared.fault.PageFault.TheVariants.{NoMemory};
ghost use Rattle.journal_pages.specs.Page as format;
ghost use Rattle.journal_records.specs.Days.{batches_in};
ghost use Rattle.journal_records.specs.journal_days.Cut.{texts, with_records};
ghost use Rattle.journal_records.specs.journal_days.Left.{records_left};
ghost use Rattle.journal_pages.specs.declared.version.Version.TheVariants.{One, Two};
ghost use Rattle.journal_records.specs.journal_days.Day as spec;
ghost use Rattle.journal_records.specs.journal_days.Day.{version_of};
ghost use Rattle.journal_records.specs.Parts.{turn_records};

use crate::turn_pages::TurnPages;
use crate::turns::Turns;
use gate_events::{Batch, Event, Output, Recipient, Source, output_lists};
use journal_days::{DayPages, DayRecords, judge_day};
use journal_pages::{PageFault, RecordKind, Version};
use journal_records::{append_turn, batches_of, events_of};
use std::alloc::{AllocError, Global};
use std::marker::Model;

/// Events, each with the batch that it gave, the oldest first, as the pages of a day. Contracts see the events, the
/// batches and the pages.
#[derive(Drop)]
pub struct History {
    pages: DayPages,
}

impl Model for History {
    ghost use Rattle.std.specs.Prelude.{◌≡◌, None};
    ghost use Rattle.journal_pages.specs.declared.version.Version.TheVariants.{Two};
    ghost use Rattle.journal_records.specs.journal_days.Day.{day_fault};
    ghost use Rattle.gate_journal.specs.Kept.{Kept, kept_in};

    ghost Value = { Kept };

    ghost view = { λ h. kept_in h.pages };

    ghost invariant = { λ h. day_fault Two h.pages ≡ None };
}

impl History {
    ghost use Rattle.gate_journal.specs.Kept.{IsRead, kept_in, nothing_kept, kept_turn, turns};
    ghost use Rattle.gate_journal.specs.Left.{batches_left, events_left};
    ghost use Rattle.journal_records.specs.journal_days.Day.{day_fault};

    /// No events, and no pages. Takes no memory.
    pub fn new(alloc: Global) -> History
        ensures { result ≡ nothing_kept }
    {
        History {
            pages: DayPages::new(alloc),
        }
    }

    /// The history that these pages are. Takes no memory.
    pub(crate) fn of(pages: DayPages) -> History
        requires { day_fault Two pages ≡ None }
        ensures { result ≡ kept_in pages }
    {
        History { pages }
    }

    /// One event more, with the batch that it gave: its records go behind the others, and a new page begins where the
    /// next record would carry the last one past 65,536 bytes. `AllocError` leaves the history as it was, its pages
    /// too; it comes also for a link that is told 2^20 bytes or more at once. Two growths for each new page, one at
    /// most for each other record.
    pub fn push(&mut self, event: &Event, batch: &Batch) -> Result<(), AllocError>
        ensures events { IfOk result (λ nothing. self.new.events ≡ self.old.events ++ event.now ∷ []) }
        ensures batches { IfOk result (λ nothing. self.new.batches
            ≡ self.old.batches ++ batch_seen batch.now ∷ []) }
        ensures turns { IfOk result (λ nothing. turns self.new
            ≡ kept_turn event.now (batch_seen batch.now) ∷ turns self.old) }
        ensures pages { IfOk result (λ nothing. self.new.pages
            ≡ with_records self.old.pages (turn_records event.now (batch_seen batch.now))) }
        ensures err { OnErr result (self.new ≡ self.old) }
    {
        append_turn(event, batch, &mut self.pages)?;
        Ok(())
    }

    /// The events that were pushed, in order, read from the pages.
    pub fn events(&self, alloc: Global) -> Result<Vec<Event>, AllocError>
        ensures events { IfOk result (λ events. events.items ≡ self.now.events) }
        ensures count { IfOk result (λ events. length events.items ≡ length self.now.batches) }
    {
        let events = events_of(
            alloc,
            DayRecords::of_judged(Version::Two, self.pages.as_slice()),
        )?;
        Ok(events)
    }

    /// How many events were pushed. Takes no memory.
    pub fn count(&self) -> u64
        ensures { result ≡ length self.now.events % 2 ^ 64 }
    {
        count_of(DayRecords::of_judged(Version::Two, self.pages.as_slice()))
    }

    /// Their batches, one for each event, in order, read from the pages.
    pub fn batches(&self, alloc: Global) -> Result<Vec<Batch>, AllocError>
        ensures batches { IfOk result (λ batches. map batch_seen batches.items ≡ self.now.batches) }
        ensures count { IfOk result (λ batches. length batches.items ≡ length self.now.events) }
    {
        let batches = batches_of(
            alloc,
            DayRecords::of_judged(Version::Two, self.pages.as_slice()),
        )?;
        Ok(batches)
    }

    /// Its turns, to be read one by one: each event with its batch, in order. Takes no memory.
    pub fn turns(&self) -> Turns<'_>
        ensures events { events_left result ≡ self.now.events }
        ensures batches { batches_left result ≡ self.now.batches }
    {
        Turns::of_judged(self.pages.as_slice())
    }

    /// The events of one source, in order, read from the pages.
    pub fn from(&self, alloc: Global, source: Source) -> Result<Vec<Event>, AllocError>
        ensures { IfOk result (λ events. events.items ≡ events_from source self.now.events) }
    {
        let mut events = self.events(alloc)?;
        events.retain(|event| event.is_from(&source));
        Ok(events)
    }

    /// What the batches told one link, in order, read from the pages: a list for each batch that told it something.
    pub fn to(&self, alloc: Global, recipient: Recipient) -> Result<Vec<Output>, AllocError>
        ensures { IfOk result (λ lists. lists.items ≡ lists_to recipient self.now.batches) }
    {
        let batches = self.batches(alloc)?;
        output_lists(alloc, batches.as_slice(), recipient)
    }

    /// The pages, the oldest first, all of version 2. Read again they are this history.
    pub fn pages(&self) -> &[Vec<u8>]
        ensures pages { texts result.now ≡ self.now.pages }
        ensures day { day_fault Two (texts result.now) ≡ None }
        ensures version { version_of (texts result.now) ≡ Two }
        ensures same { self.now ≡ kept_in (texts result.now) }
    {
        self.pages.as_slice()
    }

    /// The same as pages that are owned. Takes no memory.
    pub fn into_pages(self) -> TurnPages
        ensures pages { result ≡ self }
        ensures day { day_fault Two result.pages ≡ None }
    {
        let History { pages } = self;
        TurnPages::of_judged(pages.into_vec())
    }

    /// The history that pages are, all of version 1 or all of version 2; or the place of the first page with which
    /// something is wrong, from 0, and what: what is wrong with the page alone (`Head` where it is of another version
    /// than the first), then `Number` where its number isn't that of the records before it, then what is wrong with its
    /// records behind those before (`Payload` where a batch that goes on has another moment, client or port, `Order`
    /// where a record can't come there, or the last page ends inside a batch). `NoMemory` has the place 0.
    ///
    /// Pages of version 2 are copied and keep their cut; the records of pages of version 1 are written anew. No pages
    /// are the history without events.
    pub fn read(alloc: Global, pages: &[Vec<u8>]) -> Result<History, (u32, PageFault)>
        ensures { MatchResult result (λ history. IsRead (texts pages.now) history)
            (λ fault. ((fault.0 ≡ 0) × (fault.1 ≡ NoMemory))
            ⊎ (day_fault (version_of (texts pages.now)) (texts pages.now) ≡ Some (fault.0, fault.1))) }
    {
        let version = judge_day(pages)?;
        match kept_as(alloc, version, pages) {
            Ok(pages) => Ok(History { pages }),
            Err(_) => Err((0, PageFault::NoMemory)),
        }
    }
}

/// How many of these records are events.
pub(crate) fn count_of(records: DayRecords<'_>) -> u64
    ensures { result ≡ length (batches_in (records_left records.entry)) % 2 ^ 64 }
{
    let mut ahead = records;
    let mut count = 0u64;
    while let Some((record, behind)) = ahead.split_first() {
        if is_event(record.kind) {
            count = count.wrapping_add(1);
        }
        ahead = behind;
    }
    count
}

/// Whether a record of this kind is an event.
fn is_event(kind: RecordKind) -> bool
    ensures { result ≡ format.is_event kind }
{
    matches!(
        kind,
        RecordKind::ClientUp
            | RecordKind::ClientMessage
            | RecordKind::ClientGone
            | RecordKind::ClientTick
            | RecordKind::PortUp
            | RecordKind::PortPacket
            | RecordKind::PortGone
            | RecordKind::PortTick
    )
}

/// The pages in which a day of a version is kept: of version 2 these, copied; of version 1 their records, written anew.
fn kept_as(alloc: Global, version: Version, pages: &[Vec<u8>]) -> Result<DayPages, AllocError>
    requires { spec.day_fault version (texts pages.now) ≡ None }
    ensures pages { IfOk result (λ kept. kept ≡ spec.kept_as version (texts pages.now)) }
    ensures day { IfOk result (λ kept. spec.day_fault Two kept ≡ None) }
    ensures records { IfOk result (λ kept. spec.day_records Two kept ≡ spec.day_records version (texts pages.now)) }
{
    match version {
        Version::One => rewritten(alloc, pages),
        Version::Two => {
            let kept = DayPages::copied(alloc, pages)?;
            Ok(kept)
        }
    }
}

/// The records of pages of version 1, written anew: a day of version 2 with these records.
fn rewritten(alloc: Global, pages: &[Vec<u8>]) -> Result<DayPages, AllocError>
    requires { spec.day_fault One (texts pages.now) ≡ None }
    ensures pages { IfOk result (λ kept. kept ≡ spec.kept_as One (texts pages.now)) }
    ensures day { IfOk result (λ kept. spec.day_fault Two kept ≡ None) }
    ensures records { IfOk result (λ kept. spec.day_records Two kept ≡ spec.day_records One (texts pages.now)) }
{
    let kept = DayPages::rewritten(alloc, pages)?;
    Ok(kept)
}
