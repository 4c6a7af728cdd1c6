//! Records of two days, side by side.

ghost use Rattle.std.specs.Prelude.{◌≡◌, true, false, MatchOption, MatchResult};
ghost use Rattle.journal_days.specs.Left.{records_left};
ghost use Rattle.journal_pages.specs.Seen.{record_seen};
ghost use Rattle.journal_days.specs.Apart as spec;
ghost use Rattle.journal_days.specs.Apart.{DifferBehind, DifferFrom, batches_behind};

use crate::records::DayRecords;
use journal_pages::{RecordKind, RecordView};

/// `None` where two days have the same records, one by one, wherever their pages were cut; else how many whole batches
/// are the same before the first record that differs, or that only one of them has. Takes no memory.
pub fn first_difference(records: DayRecords<'_>, others: DayRecords<'_>) -> Option<u64>
    ensures { MatchOption result (records_left records.entry ≡ records_left others.entry)
        (λ batches. DifferBehind batches (records_left records.entry) (records_left others.entry)) }
{
    match difference_behind(0, records, others) {
        Ok(_) => None,
        Err(batches) => Some(batches),
    }
}

/// The same of records behind so many whole batches: how many there are behind both, where the records are the same;
/// else, as an error, how many there are before the first record that differs. Past 2^64 - 1 both stay. Takes no
/// memory.
pub fn difference_behind(
    before: u64,
    records: DayRecords<'_>,
    others: DayRecords<'_>,
) -> Result<u64, u64>
    ensures { MatchResult result
        (λ batches. (records_left records.entry ≡ records_left others.entry)
        × (batches ≡ batches_behind before (records_left records.entry)))
        (λ batches. DifferFrom before batches (records_left records.entry) (records_left others.entry)) }
{
    let mut rest = records;
    let mut left = others;
    let mut batches = before;
    while let Some((first, behind)) = rest.split_first() {
        let Some((second, further)) = left.split_first() else {
            return Err(batches);
        };
        if !is_same_record(&first, &second) {
            return Err(batches);
        }
        batches = with_record(batches, first.kind);
        rest = behind;
        left = further;
    }
    match left.split_first() {
        Some(_) => Err(batches),
        None => Ok(batches),
    }
}

/// So many whole batches, with a record of this kind more.
fn with_record(batches: u64, kind: RecordKind) -> u64
    ensures { result ≡ spec.with_record batches kind }
{
    match kind {
        RecordKind::BatchEnd => batches.saturating_add(1),
        _ => batches,
    }
}

/// Whether two records are the same.
fn is_same_record(one: &RecordView<'_>, other: &RecordView<'_>) -> bool
    ensures same { result ≡ true → record_seen one.now ≡ record_seen other.now }
    ensures apart { result ≡ false → record_seen one.now ≡ record_seen other.now → ⊥ }
{
    one.kind == other.kind
        && one.source == other.source
        && one.link == other.link
        && one.at == other.at
        && one.payload == other.payload
}
