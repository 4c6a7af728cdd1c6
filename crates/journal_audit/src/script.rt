//! The day of a script as a file.

ghost use Rattle.std.specs.Prelude.{◌≡◌, ◌≤◌, IfSome, OnOk};
ghost use Rattle.std.specs.Io.KnownBytes.{Appends};
ghost use Rattle.journal_audit.specs.Audits.{IsDayOfScript};

use gate_lines::{Stop, script_history, tell};
use journal_file::write_day;
use std::alloc::Global;
use std::io::{Read, Write};

/// Steps a script, the clients logged on and the ports logged in, without printing what it comes to, and writes its day
/// to `output` as a file of pages.
///
/// Answers the status that a program ends with which does so: 0 at the script's end; 2 at a line that isn't understood,
/// with `line N: not understood` on `faults`; 1 where memory runs out, with `out of memory`, and where a read or a
/// write fails, with `read or write failed`. Nothing is written before the script's end.
pub fn script_file<R: Read, W: Write, F: Write>(
    alloc: Global,
    input: &mut R,
    output: &mut W,
    faults: &mut F,
) -> u8
    ensures status { result ≤ 2 }
    ensures of_script { result ≡ 0 → IfSome (R.remaining input.old)
        (λ text. IsDayOfScript text (W.contents output.old) (W.contents output.new)) }
{
    match written(alloc, input, output) {
        Ok(()) => 0,
        Err(stop) => tell(stop, faults),
    }
}

/// Writes the day of a script.
fn written<R: Read, W: Write>(alloc: Global, input: &mut R, output: &mut W) -> Result<(), Stop>
    ensures { OnOk result (IfSome (R.remaining input.old)
        (λ text. IsDayOfScript text (W.contents output.old) (W.contents output.new))) }
{
    let kept = script_history(alloc, input)?;
    write_day(&kept, output)?;
    Ok(())
}
