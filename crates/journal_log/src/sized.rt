//! A page's bytes in a file.

ghost use Rattle.std.specs.Prelude.{◌≡◌, ◌++◌, IfOk, OnOk};
ghost use Rattle.journal_pages.specs.declared.version.Version.TheVariants.{Two};
ghost use Rattle.journal_file.specs.File.{before_page, sized_page};
ghost use Rattle.journal_log.specs.Pieces.{page_of};
ghost use Rattle.journal_pages.specs.Page.{page_front};

use crate::mark::PAGE_NAME;
use crate::pieces::Pieces;
use journal_file::{RunningSum, TooManyBytes, sum_of};
use std::alloc::AllocError;

/// Appends a page behind its length and its sum; of no bytes it is an end. `AllocError` leaves what stood in `out` in
/// front of some of it.
pub(crate) fn append_sized(out: &mut Vec<u8>, page: &[u8]) -> Result<(), AllocError>
    ensures { OnOk result (out.new.items ≡ out.old.items ++ sized_page Two page.now) }
{
    let size = (page.len() as u64).to_be_bytes();
    let sum = sum_of(page).to_be_bytes();
    out.extend_from_slice(&size)?;
    out.extend_from_slice(&sum)?;
    out.extend_from_slice(page)?;
    Ok(())
}

/// Appends what stands before the records of a page that comes piece by piece, behind so many records: its length, its
/// sum and its front. `AllocError` leaves what stood in `out` in front of some of it.
pub(crate) fn append_head(
    out: &mut Vec<u8>,
    before: u64,
    pieces: Pieces<'_>,
) -> Result<(), AllocError>
    ensures { OnOk result (out.new.items
        ≡ out.old.items ++ (before_page Two (page_of before pieces.entry) ++ page_front before)) }
{
    let Ok(page) = sum_of_page(before, pieces) else {
        return Err(AllocError);
    };
    out.extend_from_slice(&page.size().to_be_bytes())?;
    out.extend_from_slice(&page.sum().to_be_bytes())?;
    out.extend_from_slice(PAGE_NAME)?;
    out.extend_from_slice(&before.to_be_bytes())?;
    Ok(())
}

/// The sum of a page that comes piece by piece, behind so many records. Takes no memory.
fn sum_of_page(before: u64, pieces: Pieces<'_>) -> Result<RunningSum, TooManyBytes>
    ensures { IfOk result (λ sum. sum ≡ page_of before pieces.entry) }
{
    let mut sum = RunningSum::new();
    sum.add(PAGE_NAME)?;
    sum.add(&before.to_be_bytes())?;
    pieces.add_to(&mut sum)?;
    Ok(sum)
}
