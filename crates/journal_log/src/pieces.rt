//! What pages have behind a mark, piece by piece.

ghost use Rattle.std.specs.Prelude.{◌≡◌, ◌≤◌, ◌<◌, ◌++◌, [], length, drop, MatchOption, OnOk};
ghost use Rattle.journal_days.specs.Cut.{texts};
ghost use Rattle.journal_log.specs.Since.{bytes_since};

use crate::mark::FRONT;
use journal_file::{RunningSum, TooManyBytes};
use std::alloc::AllocError;

/// The records that pages have behind some of their bytes, a piece for each page. They are lent where they lie.
#[derive(Clone, Copy, Drop)]
pub(crate) struct Pieces<'a> {
    pages: &'a [Vec<u8>],
    /// So many bytes of the first page stand in front.
    skip: usize,
}

impl<'a> Pieces<'a> {
    ghost use Rattle.journal_log.specs.Pieces.{bytes_ahead, pages_ahead};

    /// Those behind so many pages, of the last of which so many bytes count. Takes no memory.
    pub(crate) fn since(pages: &'a [Vec<u8>], count: usize, bytes: usize) -> Pieces<'a>
        ensures { bytes_ahead result ≡ bytes_since count bytes (texts pages.now) }
    {
        if count == 0 {
            return Pieces { pages, skip: FRONT };
        }
        Pieces {
            pages: pages_behind(pages, count - 1),
            skip: bytes,
        }
    }

    /// The first piece, and those behind it; `None` where there is no more. Takes no memory.
    pub(crate) fn split_first(self) -> Option<(&'a [u8], Pieces<'a>)>
        ensures { MatchOption result (bytes_ahead self.entry ≡ [])
            (λ next. (bytes_ahead self.entry ≡ next.0.now ++ bytes_ahead next.1)
            × (pages_ahead next.1 < pages_ahead self.entry)) }
    {
        let (page, pages) = self.pages.split_first()?;
        let behind = Pieces { pages, skip: FRONT };
        Some((bytes_behind(page.as_slice(), self.skip), behind))
    }

    /// How many bytes they have, no more than a number of 64 bits says. Takes no memory.
    pub(crate) fn size(self) -> usize
        ensures { result ≤ length (bytes_ahead self.entry) }
    {
        let mut rest = self;
        let mut size = 0_usize;
        while let Some((piece, behind)) = rest.split_first() {
            size = size.saturating_add(piece.len());
            rest = behind;
        }
        size
    }

    /// Appends them to a list.
    pub(crate) fn append_to(self, out: &mut Vec<u8>) -> Result<(), AllocError>
        ensures { OnOk result (out.new.items ≡ out.old.items ++ bytes_ahead self.entry) }
    {
        let mut rest = self;
        while let Some((piece, behind)) = rest.split_first() {
            out.extend_from_slice(piece)?;
            rest = behind;
        }
        Ok(())
    }

    /// Adds them to a sum. Takes no memory.
    pub(crate) fn add_to(self, sum: &mut RunningSum) -> Result<(), TooManyBytes>
        ensures { OnOk result (sum.new ≡ sum.old ++ bytes_ahead self.entry) }
    {
        let mut rest = self;
        while let Some((piece, behind)) = rest.split_first() {
            sum.add(piece)?;
            rest = behind;
        }
        Ok(())
    }
}

/// The pages behind so many.
fn pages_behind(pages: &[Vec<u8>], count: usize) -> &[Vec<u8>]
    ensures { result.now ≡ drop count pages.now }
{
    match pages.get(count..) {
        Some(rest) => rest,
        None => &[],
    }
}

/// The bytes of a page behind so many.
fn bytes_behind(page: &[u8], count: usize) -> &[u8]
    ensures { result.now ≡ drop count page.now }
{
    match page.get(count..) {
        Some(rest) => rest,
        None => &[],
    }
}
