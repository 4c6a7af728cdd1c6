//! A history that grows beside the parts of a day that was written.

ghost use Rattle.std.specs.Prelude.{◌≡◌, List, ℕ, IfOk};
ghost use Rattle.journal_days.specs.Cut.{IsMoreOf, texts};
ghost use Rattle.gate_journal.specs.Kept.{kept_in};
ghost use Rattle.journal_log.specs.Marks.{IsCompared, MarksEnd};

use crate::mark::{HistoryMark, count_before, mark_at, page_since};
use gate_journal::{GrowingHistory, RecentPages};
use journal_days::{DayRecords, difference_behind, next_number};
use journal_pages::Version;
use std::alloc::{AllocError, Global};

/// What a history has behind a mark, beside a part of a day.
#[derive(Clone, Copy, Debug, PartialEq, Eq)]
pub enum Compared {
    /// The same events with the same batches; with them there are so many batches.
    Same(u64),
    /// Others: so many whole batches are the same before the first event or batch that differs, or that only one of
    /// both has.
    Other(u64),
}

/// Where a history ends now. Takes no memory.
pub fn mark_of(history: &GrowingHistory) -> HistoryMark
    ensures mark { MarksEnd history.now.pages result }
    ensures history { history.now ≡ kept_in history.now.pages }
{
    let RecentPages { left, pages } = history.recent();
    mark_at(left, pages, next_number(pages))
}

/// Compares what a history has behind a mark, at which it ended once, with a part of a day, whole turns in pages of
/// version 2 that were cut anywhere; behind so many batches, and past 2^64 - 1 their number stays.
///
/// `AllocError` comes also where the page that the mark stands in left memory.
pub fn compare_since(
    alloc: Global,
    history: &GrowingHistory,
    mark: &HistoryMark,
    batches: u64,
    part: &[Vec<u8>],
) -> Result<Compared, AllocError>
    ensures { IfOk result (λ compared. (before : List (List ℕ)) → MarksEnd before mark.now
        → IsMoreOf before history.now.pages → IsCompared before history.now.pages (texts part.now) batches compared) }
{
    let RecentPages { left, pages } = history.recent();
    let Some(count) = count_before(mark, left) else {
        return Err(AllocError);
    };
    let since = [page_since(alloc, pages, count, mark)?];
    let own = DayRecords::of(Version::Two, &since);
    match difference_behind(batches, own, DayRecords::of(Version::Two, part)) {
        Ok(batches) => Ok(Compared::Same(batches)),
        Err(place) => Ok(Compared::Other(place)),
    }
}
