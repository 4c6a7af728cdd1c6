//! Two days, side by side.

ghost use Rattle.std.specs.Prelude.{MatchOption};
ghost use Rattle.journal_records.specs.journal_days.Cut.{texts};
ghost use Rattle.gate_journal.specs.Kept.{kept_in};
ghost use Rattle.gate_journal.specs.Same.{IsOtherAt, IsSameDay};

use journal_days::{DayRecords, first_difference};
use journal_pages::Version;

/// Of two days that are these pages, of version 2: `None` where they have the same events with the same batches,
/// wherever their pages were cut; else how many whole batches are the same before the first event or batch that
/// differs, or that only one of them has. Takes no memory.
pub fn first_other(day: &[Vec<u8>], other: &[Vec<u8>]) -> Option<u64>
    ensures { MatchOption result (IsSameDay (kept_in (texts day.now)) (kept_in (texts other.now)))
        (λ place. IsOtherAt place (kept_in (texts day.now)) (kept_in (texts other.now))) }
{
    let records = DayRecords::of(Version::Two, day);
    first_difference(records, DayRecords::of(Version::Two, other))
}
