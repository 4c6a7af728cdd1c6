//! An audit, written.

ghost use Rattle.std.specs.Prelude.{◌≡◌, ◌≤◌, OnOk, length};
ghost use Rattle.std.specs.Io.KnownBytes.{Appends};
ghost use Rattle.gate_lines.specs.AuditLines.{agreeing, shown_audit};

use crate::audit_lines::{agreeing, audit_text};
use gate_audit::OrderPair;
use std::alloc::Global;
use std::io::Write;
use wire_streams::StreamFault;

/// Writes an audit to `output`: the text that `audit_text` gives, and nothing else.
///
/// Answers the status that a program ends with which prints it: 0 where both accounts of each order agree; 1 where
/// those of an order don't; and 1 where memory runs out, with `out of memory` on `faults`, and where a write fails,
/// with `read or write failed`. An output that can't be flushed is a write that failed.
pub fn write_audit<W: Write, F: Write>(
    alloc: Global,
    pairs: &[OrderPair],
    output: &mut W,
    faults: &mut F,
) -> u8
    ensures status { result ≤ 1 }
    ensures agree { result ≡ 0 → agreeing pairs.now ≡ length pairs.now }
    ensures written { result ≡ 0 → Appends (W.contents output.old) (W.contents output.new) (shown_audit pairs.now) }
{
    match print(alloc, pairs, output) {
        Ok(()) => u8::from(agreeing(pairs) != pairs.len()),
        Err(fault) => {
            let _ = writeln!(faults, "{fault}");
            1
        }
    }
}

/// Writes the text of an audit, to its end.
fn print<W: Write>(alloc: Global, pairs: &[OrderPair], output: &mut W) -> Result<(), StreamFault>
    ensures { OnOk result (Appends (W.contents output.old) (W.contents output.new) (shown_audit pairs.now)) }
{
    let text = audit_text(alloc, pairs)?;
    output.write_all(text.as_slice())?;
    output.flush()?;
    Ok(())
}
