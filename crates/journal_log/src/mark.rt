//! How far a history is in its log.

ghost use Rattle.std.specs.Prelude.{◌≡◌, ◌%◌, ◌^◌, ◌+◌, ◌++◌, length, IfOk, IfSome};
ghost use Rattle.journal_days.specs.Cut as spec;
ghost use Rattle.journal_days.specs.Cut.{texts};
ghost use Rattle.journal_pages.specs.Page.{page_front, page_records};
ghost use Rattle.journal_pages.specs.Seen.{records_ahead};
ghost use Rattle.journal_pages.specs.declared.version.Version.TheVariants.{Two};
ghost use Rattle.journal_log.specs.Since.{IsBefore, bytes_since};

use crate::pieces::Pieces;
use journal_pages::Records;
use std::alloc::{AllocError, Global};

/// What a page begins with: the journal's name and version.
pub(crate) const PAGE_NAME: &[u8; 4] = b"GJ02";

/// So many bytes stand before the records of a page.
pub(crate) const FRONT: usize = 12;

/// How far a history's pages are in its log: how many pages there are, how many bytes the last one has, and how many
/// records all of them.
#[derive(Clone, Copy, Debug, PartialEq, Eq)]
pub struct HistoryMark {
    /// Wide enough for any pages, in memory or not.
    pub pages: u128,
    pub bytes: usize,
    pub records: u64,
}

/// Where these pages end, of which so many aren't in memory, behind so many records. Takes no memory.
pub(crate) fn mark_at(left: usize, pages: &[Vec<u8>], records: u64) -> HistoryMark
    ensures pages { result.pages ≡ left + length pages.now }
    ensures bytes { result.bytes ≡ spec.last_size (texts pages.now) }
    ensures records { result.records ≡ records }
{
    HistoryMark {
        pages: left as u128 + pages.len() as u128,
        bytes: last_size(pages),
        records,
    }
}

/// How many bytes the last page has, 0 where there is none.
fn last_size(pages: &[Vec<u8>]) -> usize
    ensures { result ≡ spec.last_size (texts pages.now) }
{
    match pages.last() {
        Some(last) => last.as_slice().len(),
        None => 0,
    }
}

/// How many of the pages in memory stand in front of a mark; `None` where the page that it stands in isn't in memory.
pub(crate) fn count_before(mark: &HistoryMark, left: usize) -> Option<usize>
    ensures { IfSome result (λ count. IsBefore left mark.now.pages count) }
{
    if left == 0 {
        return usize::try_from(mark.pages).ok();
    }
    if mark.pages <= left as u128 {
        return None;
    }
    usize::try_from(mark.pages - left as u128).ok()
}

/// How many records a page has, as a number of 64 bits. Takes no memory.
pub(crate) fn count_in_page(page: &[u8]) -> u64
    ensures { result ≡ length (page_records Two page.now) % 2 ^ 64 }
{
    match page.get(FRONT..) {
        Some(records) => count_of(Records::of(records)),
        None => 0,
    }
}

/// How many records are still to be lent, as a number of 64 bits. Takes no memory.
fn count_of(records: Records<'_>) -> u64
    ensures { result ≡ length (records_ahead records.entry) % 2 ^ 64 }
{
    let mut rest = records;
    let mut count = 0u64;
    while let Some((_, behind)) = rest.split_first() {
        count = count.wrapping_add(1);
        rest = behind;
    }
    count
}

/// A page of the records that these pages have behind a mark, in front of which so many of them stand.
pub(crate) fn page_since(
    alloc: Global,
    pages: &[Vec<u8>],
    count: usize,
    mark: &HistoryMark,
) -> Result<Vec<u8>, AllocError>
    ensures { IfOk result (λ page. page.items
        ≡ page_front mark.now.records ++ bytes_since count mark.now.bytes (texts pages.now)) }
{
    let pieces = Pieces::since(pages, count, mark.bytes);
    let mut page = Vec::with_capacity(alloc, pieces.size().saturating_add(FRONT))?;
    page.extend_from_slice(PAGE_NAME)?;
    page.extend_from_slice(&mark.records.to_be_bytes())?;
    pieces.append_to(&mut page)?;
    Ok(page)
}
