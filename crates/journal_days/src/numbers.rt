//! The numbers of pages.

ghost use Rattle.std.specs.Prelude.{◌≡◌, ◌+◌, ◌%◌, ◌^◌, None, length};
ghost use Rattle.journal_pages.specs.Page.{page_fault};
ghost use Rattle.journal_pages.specs.Seen.{records_ahead};
ghost use Rattle.journal_days.specs.Cut as spec;
ghost use Rattle.journal_days.specs.Cut.{texts};

use crate::records::{judged_records, page_records};
use journal_pages::{Records, Version, page_number};

/// The number of the page behind one of version 2: its own, and one for each of its records, as a number of 64 bits.
pub fn number_behind(page: &[u8]) -> u64
    ensures { result ≡ spec.number_behind page.now }
{
    number_with(page_number(page), page_records(Version::Two, page))
}

/// The same of a page that was judged as one of a version: of one of version 2 no record is tested again.
pub fn judged_number_behind(version: Version, page: &[u8]) -> u64
    requires { page_fault version page.now ≡ None }
    ensures { result ≡ spec.number_behind page.now }
{
    match version {
        Version::One => number_behind(page),
        Version::Two => number_with(page_number(page), judged_records(Version::Two, page)),
    }
}

/// A number, and one more for each of these records, as a number of 64 bits.
fn number_with(number: u64, records: Records<'_>) -> u64
    ensures { result ≡ (number + length (records_ahead records.entry)) % 2 ^ 64 }
{
    let mut count = number;
    let mut ahead = records;
    while let Some((_, behind)) = ahead.split_first() {
        count = count.wrapping_add(1);
        ahead = behind;
    }
    count
}

/// The number of the page behind some: as many records as they have, as a number of 64 bits; 0 behind none. Takes no
/// memory.
pub fn next_number(pages: &[Vec<u8>]) -> u64
    ensures { result ≡ spec.next_number (texts pages.now) }
{
    match pages.last() {
        Some(last) => number_behind(last.as_slice()),
        None => 0,
    }
}
