//! Why pages are no day.

ghost use Rattle.std.specs.Prelude.{◌≡◌, None, Some, MatchResult};
ghost use Rattle.journal_pages.specs.Ordered.{order_fault, place_behind};
ghost use Rattle.journal_pages.specs.Page as format;
ghost use Rattle.journal_pages.specs.Seen.{records_ahead};
ghost use Rattle.journal_days.specs.Cut.{texts};
ghost use Rattle.journal_days.specs.Day as spec;
ghost use Rattle.journal_days.specs.Day.{day_fault, page_fault_in_day, version_of};

use crate::numbers::judged_number_behind;
use crate::records::judged_records;
use journal_pages::{PageFault, Place, Records, Version, judge, page_number};

/// The version of pages that are those of a day, one behind another; else the place of the first page, from 0, with
/// which something is wrong, and what: what is wrong with the page alone, then `Number` where its number isn't that of
/// the records before it, then what is wrong with its records behind those before, then `Order` where it is the last
/// one and ends inside a batch. All are judged as of the version of the first. Takes no memory.
pub fn judge_day(pages: &[Vec<u8>]) -> Result<Version, (u32, PageFault)>
    ensures { MatchResult result
        (λ version. (version ≡ version_of (texts pages.now)) × (day_fault version (texts pages.now) ≡ None))
        (λ fault. day_fault (version_of (texts pages.now)) (texts pages.now) ≡ Some (fault.0, fault.1)) }
{
    let version = version_of(pages);
    match judge_pages(version, pages) {
        Ok(()) => Ok(version),
        Err(fault) => Err(fault),
    }
}

/// The version of the first page; of none the second.
fn version_of(pages: &[Vec<u8>]) -> Version
    ensures { result ≡ version_of (texts pages.now) }
{
    match pages {
        [first, ..] => Version::named(first),
        [] => Version::Two,
    }
}

/// Nothing, where pages are those of a day of a version; else the first with which something is wrong, and what.
fn judge_pages(version: Version, pages: &[Vec<u8>]) -> Result<(), (u32, PageFault)>
    ensures { MatchResult result (λ nothing. day_fault version (texts pages.now) ≡ None)
        (λ fault. day_fault version (texts pages.now) ≡ Some (fault.0, fault.1)) }
{
    let mut rest = pages;
    let mut place = Place::BetweenBatches;
    let mut number = 0u64;
    let mut index = 0u32;
    while let Some((first, behind)) = rest.split_first() {
        let page = first.as_slice();
        match judge_in_day(version, page, number, place, behind.is_empty()) {
            Ok(later) => place = later,
            Err(fault) => return Err((index, fault)),
        }
        number = judged_number_behind(version, page);
        index = page_behind(index);
        rest = behind;
    }
    Ok(())
}

/// The place of the page behind one of this place; there is none behind the last place.
pub(crate) fn page_behind(index: u32) -> u32
    ensures { result ≡ spec.page_behind index }
{
    index.saturating_add(1)
}

/// The place behind a page that may stand behind so many records and a place, be it the last or not; or what is wrong
/// with it.
pub(crate) fn judge_in_day(
    version: Version,
    page: &[u8],
    number: u64,
    place: Place,
    is_last: bool,
) -> Result<Place, PageFault>
    ensures { MatchResult result
        (λ later. (page_fault_in_day version is_last number place page.now ≡ None)
        × (later ≡ place_behind place (format.page_records version page.now)))
        (λ fault. page_fault_in_day version is_last number place page.now ≡ Some fault) }
{
    judge(version, page)?;
    judge_number(version, number, page)?;
    let later = place_of(judged_records(version, page), place)?;
    if is_last && !has_no_batch(&later) {
        return Err(PageFault::Order);
    }
    Ok(later)
}

/// Nothing, where a page has the number that those before it give, or is of version 1, which has none.
fn judge_number(version: Version, number: u64, page: &[u8]) -> Result<(), PageFault>
    ensures { MatchResult result (λ nothing. spec.number_fault version number page.now ≡ None)
        (λ fault. spec.number_fault version number page.now ≡ Some fault) }
{
    match version {
        Version::One => Ok(()),
        Version::Two if page_number(page) == number => Ok(()),
        Version::Two => Err(PageFault::Number),
    }
}

/// Whether no batch is open.
pub(crate) fn has_no_batch(place: &Place) -> bool
    ensures { result ≡ spec.has_no_batch place.now }
{
    matches!(place, Place::BetweenBatches)
}

/// The place behind records, or what is wrong with the first that can't stand where it does.
fn place_of(records: Records<'_>, place: Place) -> Result<Place, PageFault>
    ensures { MatchResult result
        (λ later. (order_fault place (records_ahead records.entry) ≡ None)
        × (later ≡ place_behind place (records_ahead records.entry)))
        (λ fault. order_fault place (records_ahead records.entry) ≡ Some fault) }
{
    let mut ahead = records;
    let mut at = place;
    while let Some((record, behind)) = ahead.split_first() {
        at = at.after(&record)?;
        ahead = behind;
    }
    Ok(at)
}
