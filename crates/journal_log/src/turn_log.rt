//! The log.

ghost use Rattle.std.specs.Prelude.{◌≡◌, ◌⊎◌, ◌<◌, ◌≤◌, ◌++◌, ◌∷◌, [], List, length, true, ℕ};
ghost use Rattle.std.specs.Prelude.{IsErrOf, None, OnErr, OnOk, Some};
ghost use Rattle.journal_log.specs.declared.fault.LogFault.TheVariants.{Ended, Failed};
ghost use Rattle.gate_journal.specs.Kept.{kept_in};
ghost use Rattle.journal_days.specs.Cut.{IsMoreOf};
ghost use Rattle.journal_log.specs.Log.{IsSettled};
ghost use Rattle.journal_log.specs.Kept.{EndsAt, HasDay, HasEnd, HasPages, StandsAt};
ghost use Rattle.journal_log.specs.Pieces.{bytes_ahead};
ghost use Rattle.journal_log.specs.Since.{bytes_since};

use crate::comparing::mark_of;
use crate::fault::LogFault;
use crate::file::LogFile;
use crate::log::DayLog;
use crate::mark::{FRONT, HistoryMark, count_before, count_in_page, mark_at, page_since};
use crate::pieces::Pieces;
use gate_journal::{GrowingHistory, RecentPages};
use std::alloc::Global;
use std::marker::Model;

/// More bytes than so many aren't copied into a page of their own: they are written as they lie.
const LONGEST_COPIED: usize = 131_072;

/// The log of a history that grows: how far it has it, and the log's file. Contracts see both.
#[derive(Drop)]
pub struct TurnLog<F: LogFile> {
    log: DayLog<F>,
    mark: HistoryMark,
}

impl<F: LogFile> Model for TurnLog<F> {
    ghost use Rattle.journal_log.specs.Kept.{TurnLogState};

    ghost Value = { TurnLogState F };

    ghost view = { λ l. record {
      file = l.log.file;
      shut = l.log.shut;
      pages = l.mark.pages;
      bytes = l.mark.bytes;
      records = l.mark.records;
    } };
}

impl<F: LogFile> TurnLog<F> {
    /// The log of a history of which it has all so far. Takes no memory.
    pub fn of(log: DayLog<F>, history: &GrowingHistory) -> TurnLog<F>
        ensures file { result.file ≡ log.file }
        ensures shut { result.shut ≡ log.shut }
        ensures mark { StandsAt history.now.pages result }
        ensures history { history.now ≡ kept_in history.now.pages }
    {
        TurnLog {
            log,
            mark: mark_of(history),
        }
    }

    /// Its file. Takes no memory.
    pub fn file(&self) -> &F
        ensures { result.now ≡ self.now.file }
    {
        self.log.file()
    }

    /// Whether the log has all of a history, where it has its beginning.
    pub fn has_all(&self, history: &GrowingHistory) -> bool
        ensures { result ≡ true → EndsAt history.now.pages self.now }
    {
        let RecentPages { left, pages } = history.recent();
        mark_at(left, pages, self.mark.records) == self.mark
    }

    /// Has in the log, durably, all that the history has: as one page what the log didn't have yet, nothing where it
    /// has all. A history that is handed in has what that of the call before had, and more records behind.
    ///
    /// `Failed` where the file fails, and from then on; `NoMemory` leaves the log as it was, and comes also where pages
    /// left memory that the log doesn't have. Whatever it answers, each crash leaves what the log had.
    pub fn keep(&mut self, alloc: Global, history: &GrowingHistory) -> Result<(), LogFault>
        ensures told { OnOk result ((before : List (List ℕ)) → HasDay F.seen F.may_leave before self.old
            → IsMoreOf before history.now.pages → HasDay F.seen F.may_leave history.now.pages self.new) }
        ensures kept { OnErr result ((before : List (List ℕ)) → HasDay F.seen F.may_leave before self.old
            → HasDay F.seen F.may_leave before self.new) }
        ensures failed { IsErrOf result Failed → self.new.shut ≡ Some Failed }
        ensures over { IsErrOf result Ended → self.old.shut ≡ Some Ended }
        ensures open { OnOk result (self.new.shut ≡ self.old.shut) }
        ensures history { history.now ≡ kept_in history.now.pages }
    {
        let RecentPages { left, pages } = history.recent();
        if self.has_all(history) {
            return Ok(());
        }
        let Some(count) = count_before(&self.mark, left) else {
            return Err(LogFault::NoMemory);
        };
        let pieces = Pieces::since(pages, count, self.mark.bytes);
        if pieces.size() > LONGEST_COPIED {
            return self.keep_long(history, pieces);
        }
        let page = page_since(alloc, pages, count, &self.mark)?;
        put_page(&mut self.log, page.as_slice())?;
        let records = self
            .mark
            .records
            .wrapping_add(count_in_page(page.as_slice()));
        self.mark = mark_at(left, pages, records);
        Ok(())
    }

    /// The same of what the log didn't have yet, which it writes where it lies.
    fn keep_long(&mut self, history: &GrowingHistory, pieces: Pieces<'_>) -> Result<(), LogFault>
        requires some { 1 ≤ length (bytes_ahead pieces) }
        requires since { bytes_ahead pieces ≡ bytes_since self.old.pages self.old.bytes history.now.pages }
        ensures told { OnOk result ((before : List (List ℕ)) → HasDay F.seen F.may_leave before self.old
            → IsMoreOf before history.now.pages → HasDay F.seen F.may_leave history.now.pages self.new) }
        ensures kept { OnErr result ((before : List (List ℕ)) → HasDay F.seen F.may_leave before self.old
            → HasDay F.seen F.may_leave before self.new) }
        ensures failed { IsErrOf result Failed → self.new.shut ≡ Some Failed }
        ensures over { IsErrOf result Ended → self.old.shut ≡ Some Ended }
        ensures open { OnOk result (self.new.shut ≡ self.old.shut) }
    {
        self.log.commit_pieces(self.mark.records, pieces)?;
        self.mark = mark_of(history);
        Ok(())
    }

    /// Has in the log all that the history has, as `keep` does, and behind it the end of a day that is over; the log
    /// takes nothing behind that.
    ///
    /// `Failed` where the file fails, and from then on. Whatever it answers, each crash leaves what the log had.
    pub fn end(&mut self, alloc: Global, history: &GrowingHistory) -> Result<(), LogFault>
        ensures told { OnOk result ((before : List (List ℕ)) → HasDay F.seen F.may_leave before self.old
            → IsMoreOf before history.now.pages → HasEnd F.seen F.may_leave history.now.pages self.new.file) }
        ensures ended { OnOk result (self.new.shut ≡ Some Ended) }
        ensures failed { IsErrOf result Failed → self.new.shut ≡ Some Failed }
        ensures over { IsErrOf result Ended → self.old.shut ≡ Some Ended }
        ensures kept { (before : List (List ℕ)) → HasDay F.seen F.may_leave before self.old
            → IsMoreOf before history.now.pages → HasDay F.seen F.may_leave before self.new
            ⊎ HasDay F.seen F.may_leave history.now.pages self.new }
        ensures history { history.now ≡ kept_in history.now.pages }
    {
        self.keep(alloc, history)?;
        self.log.end()
    }
}

/// Adds a page to a log, unless it has no records: then there is nothing to be added.
fn put_page<F: LogFile>(log: &mut DayLog<F>, page: &[u8]) -> Result<(), LogFault>
    ensures none { OnOk result (length page.now ≤ 12 → log.new ≡ log.old) }
    ensures some { OnOk result (12 < length page.now → (pages : List (List ℕ))
        → IsSettled F.seen F.may_leave pages log.old.file
        → IsSettled F.seen F.may_leave (pages ++ page.now ∷ []) log.new.file) }
    ensures goes_on { OnOk result (12 < length page.now → (log.old.shut ≡ None) × (log.new.shut ≡ None)) }
    ensures kept { OnErr result ((before : List (List ℕ))
        → HasPages F.seen F.may_leave before log.old.file log.old.shut
        → HasPages F.seen F.may_leave before log.new.file log.new.shut) }
    ensures failed { IsErrOf result Failed → log.new.shut ≡ Some Failed }
    ensures over { IsErrOf result Ended → log.old.shut ≡ Some Ended }
{
    if page.len() <= FRONT {
        return Ok(());
    }
    log.commit(page)
}
