//! What the script program does by its command line.

ghost use Rattle.std.specs.Prelude.{◌≡◌, ◌≤◌, ◌⊎◌, [], IfSome, map};
ghost use Rattle.clap.specs.Words.{kind_of};
ghost use Rattle.gate_lines.specs.Scripts.{PrintsAll};
ghost use Rattle.command_lines.specs.ScriptFlags.{IsMistake, IsToldAs, flags_in, script_found};
ghost use Rattle.command_lines.specs.ScriptFlags as spec;

use crate::script_asking::{refusal_status, script_flags};
use clap::Error;
use clap::error::ErrorKind;
use gate_lines::run_script;
use std::alloc::Global;
use std::convert::AsStr;
use std::io::{Read, Write};

/// Runs the script's program: `run_script` with the flags that the command line asks for, its first word the
/// program's name.
///
/// Where it asks for the help, that is written to `output`, and the status is 0, or 1 where it can't be written, with
/// `read or write failed` on `faults`. Where it is refused, `faults` is told why, and the status is 2. Where memory
/// runs out, `out of memory` is told there, and the status is 1. In these cases nothing is read.
pub fn run_program<'a, S: AsStr, R: Read, W: Write, F: Write>(
    alloc: Global,
    words: &'a [S],
    input: &mut R,
    output: &mut W,
    faults: &mut F,
) -> u8
    ensures status { result ≤ 2 }
    ensures mistake { IsMistake (map S.text words.now) → (result ≡ 2) ⊎ (result ≡ 1) }
    ensures printed { spec.script_faults (map S.text words.now) ≡ [] → result ≡ 0 → IfSome (R.remaining input.old)
        (λ text. PrintsAll (flags_in (script_found (map S.text words.now))) text (W.contents output.old)
        (W.contents output.new)) }
{
    match script_flags(alloc, words) {
        Ok(flags) => run_script(alloc, flags, input, output, faults),
        Err(error) => write_refusal(&error, output, faults),
    }
}

/// Tells what a command line came to that isn't one to run by: the help goes to `output`, anything else to `faults`.
///
/// Answers the status that the program ends with: 0 for the help, 1 where memory ran out or the help can't be
/// written, which is told on `faults`, else 2.
pub fn write_refusal<W: Write, F: Write>(error: &Error, output: &mut W, faults: &mut F) -> u8
    ensures status { result ≤ 2 }
    ensures mistake { IsToldAs (kind_of error.now) result }
{
    match error.kind() {
        ErrorKind::DisplayHelp => help(error, output, faults),
        ErrorKind::OutOfMemory => {
            let _ = writeln!(faults, "out of memory");
            refusal_status(error)
        }
        _ => {
            let _ = write!(faults, "{error}");
            refusal_status(error)
        }
    }
}

/// Writes the help.
fn help<W: Write, F: Write>(error: &Error, output: &mut W, faults: &mut F) -> u8
    ensures { result ≤ 1 }
{
    if write!(output, "{error}").is_ok() && output.flush().is_ok() {
        return 0;
    }
    let _ = writeln!(faults, "read or write failed");
    1
}
