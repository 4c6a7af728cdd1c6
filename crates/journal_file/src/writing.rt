//! A day's file, written.

ghost use Rattle.std.specs.Prelude.{◌≡◌, OnOk};
ghost use Rattle.std.specs.Io.KnownBytes.{Appends};
ghost use Rattle.journal_pages.specs.declared.version.Version.TheVariants.{Two};
ghost use Rattle.journal_days.specs.Cut.{texts};
ghost use Rattle.gate_journal.specs.Kept.{turns};
ghost use Rattle.journal_file.specs.File.{sized_page, sized_pages};
ghost use Rattle.journal_file.specs.Written.{IsFileOfTurns};

use crate::sum::sum_of;
use gate_journal::History;
use std::io::Write;
use wire_streams::StreamFault;

/// Writes a history to `output` as a day's file: each page behind its length and its sum, and the end; then the output
/// is flushed. Takes no memory of its own.
///
/// `Stream` where a write fails, or the output can't be flushed, and then a part of the file may have been written.
pub fn write_day<W: Write>(history: &History, output: &mut W) -> Result<(), StreamFault>
    ensures { OnOk result (IsFileOfTurns (turns history.now) (W.contents output.old) (W.contents output.new)) }
{
    write_pages(history.pages(), output)?;
    write_sized(&[], output)?;
    output.flush()?;
    Ok(())
}

/// Writes pages, each behind its length and its sum.
fn write_pages<W: Write>(pages: &[Vec<u8>], output: &mut W) -> Result<(), StreamFault>
    ensures { OnOk result (Appends (W.contents output.old) (W.contents output.new) (sized_pages Two (texts pages.now))) }
{
    for page in pages {
        write_sized(page.as_slice(), output)?;
    }
    Ok(())
}

/// Writes a page behind its length and its sum.
fn write_sized<W: Write>(page: &[u8], output: &mut W) -> Result<(), StreamFault>
    ensures { OnOk result (Appends (W.contents output.old) (W.contents output.new) (sized_page Two page.now)) }
{
    let size = (page.len() as u64).to_be_bytes();
    output.write_all(&size)?;
    output.write_all(&sum_of(page).to_be_bytes())?;
    output.write_all(page)?;
    Ok(())
}
