//! A day's file, exported.

ghost use Rattle.std.specs.Prelude.{◌≡◌, ◌++◌, IfErr, IfOk, IfSome, MatchResult, OnOk};
ghost use Rattle.std.specs.Io.KnownBytes.{Appends};
ghost use Rattle.gate_events.specs.Seen.{batch_seen};
ghost use Rattle.journal_file.specs.Inputs.{IsReadTo};
ghost use Rattle.day_export.specs.Files.{IsExport, IsUnexported, ReadsRows};
ghost use Rattle.day_export.specs.Forms.{head_text};
ghost use Rattle.day_export.specs.Rows as spec;

use crate::fault::ExportFault;
use crate::format::Format;
use crate::turn::turn_text;
use crate::writing::push_head;
use gate_events::{Batch, Event};
use gate_journal::TurnPages;
use journal_file::{DayReader, Ending, NextTurns, ReadFault};
use std::alloc::Global;
use std::io::{Error, ErrorKind, Read, Write};
use wire_streams::StreamFault;

/// How often turns are read at most.
const MOST_PARTS: u64 = 1_000_000_000_000;

/// Reads a day's file page by page, and writes the messages of its order level to `output`, in the order in which they
/// came and were told; the pages of a few turns are in memory. Answers how the file ends: just the rows of
/// `specs/Rows.antt` were written then.
///
/// `File` where the file is none, or isn't read further, and `Stream` where a write fails or memory runs out; a
/// beginning of the rows may have been written then, those of the pages before one that is wrong among them.
pub fn export_file<R: Read, W: Write>(
    alloc: Global,
    format: Format,
    input: &mut R,
    output: &mut W,
) -> Result<Ending, ExportFault>
    ensures written { IfOk result (λ ending. IsReadTo (R.remaining input.old) (R.remaining input.new)
        (λ file. IsExport format file ending (W.contents output.old) (W.contents output.new))) }
    ensures all_written { IfOk result (λ ending. IfSome (R.remaining input.old)
        (λ file. IsExport format file ending (W.contents output.old) (W.contents output.new))) }
    ensures refused { IfErr result (IsUnexported (R.remaining input.old) (R.remaining input.new)) }
{
    if let Err(fault) = write_head(alloc, format, output) {
        return Err(ExportFault::Stream(fault));
    }
    let ending = match write_rows(alloc, format, input, output) {
        Ok(ending) => ending,
        Err(fault) => return Err(fault),
    };
    match output.flush() {
        Ok(()) => Ok(ending),
        Err(_) => Err(ExportFault::Stream(StreamFault::Stream)),
    }
}

/// Writes what stands before the first row.
fn write_head<W: Write>(alloc: Global, format: Format, output: &mut W) -> Result<(), StreamFault>
    ensures { OnOk result (Appends (W.contents output.old) (W.contents output.new) (head_text format)) }
{
    let mut text = Vec::new(alloc);
    push_head(&mut text, format)?;
    output.write_all(text.as_slice())?;
    Ok(())
}

/// Writes the rows of a file's turns.
fn write_rows<R: Read, W: Write>(
    alloc: Global,
    format: Format,
    input: &mut R,
    output: &mut W,
) -> Result<Ending, ExportFault>
    ensures { MatchResult result (λ ending. IsReadTo (R.remaining input.old) (R.remaining input.new)
        (λ file. ReadsRows format file ending (W.contents output.old) (W.contents output.new)))
        (IsUnexported (R.remaining input.old) (R.remaining input.new)) }
{
    let mut reader = DayReader::new(alloc);
    for _ in 0..MOST_PARTS {
        match reader.next(alloc, input) {
            Ok(NextTurns::End(ending)) => return Ok(ending),
            Ok(NextTurns::Turns(part)) => {
                if let Err(fault) = write_turns(alloc, format, &part, output) {
                    return Err(ExportFault::Stream(fault));
                }
            }
            Err(fault) => return Err(ExportFault::File(fault)),
        }
    }
    Err(ExportFault::File(ReadFault::Read(Error::from(ErrorKind::Other))))
}

/// Writes the rows of turns.
fn write_turns<W: Write>(
    alloc: Global,
    format: Format,
    part: &TurnPages,
    output: &mut W,
) -> Result<(), StreamFault>
    ensures { OnOk result (Appends (W.contents output.old) (W.contents output.new)
        (spec.turns_text format part.now.events part.now.batches)) }
{
    let mut ahead = part.turns();
    while let Some((event, batch, behind)) = ahead.split_first(alloc)? {
        write_turn(alloc, format, &event, &batch, output)?;
        ahead = behind;
    }
    Ok(())
}

/// Writes the rows of an event with its batch.
fn write_turn<W: Write>(
    alloc: Global,
    format: Format,
    event: &Event,
    batch: &Batch,
    output: &mut W,
) -> Result<(), StreamFault>
    ensures { OnOk result (Appends (W.contents output.old) (W.contents output.new)
        (spec.turn_text format event.now (batch_seen batch.now))) }
{
    let text = turn_text(alloc, format, event, batch)?;
    output.write_all(text.as_slice())?;
    Ok(())
}
