//! The audit of a script.

ghost use Rattle.std.specs.Prelude.{◌≡◌, ◌≤◌, IfOk, IfSome};
ghost use Rattle.std.specs.Io.KnownBytes.{Appends};
ghost use Rattle.gate_law.specs.Holds.{Holds};
ghost use Rattle.gate_audit.specs.gate_journal.Kept.{turns};
ghost use Rattle.script_steps.specs.Settings.{fixed};
ghost use Rattle.gate_audit.specs.Pairs.{accepted_pairs};
ghost use Rattle.gate_lines.specs.AuditLines.{shown_audit};
ghost use Rattle.gate_lines.specs.Audits.{IsAuditOf, IsAudited};

use crate::script::{script_history, tell};
use crate::stop::Stop;
use crate::write::write_audit;
use gate_audit::{OrderPair, audit};
use gate_journal::History;
use order_accounts::ReadingFault;
use script_steps::fixed_settings;
use std::alloc::Global;
use std::io::{Read, Write};

/// Why an account isn't told, where a number of it is larger than its integer holds.
const TOO_LARGE: &str = "an order's account is too large";

/// Steps a script, the clients logged on and the ports logged in, without printing what it comes to, and writes the
/// audit of its history to `output`: a line for each order that was accepted, and one for how many there are and how
/// many agree.
///
/// Answers the status that a program ends with which does so: 0 where both accounts of each order agree; 2 at a line
/// that isn't understood, with `line N: not understood` on `faults`, and nothing on `output`; else 1: where those of
/// an order don't agree, where memory runs out, with `out of memory` on `faults`, where a read or a write fails, with
/// `read or write failed`, and where a number of an account is larger than its integer holds, with `an order's
/// account is too large`.
///
/// Source: FIX 4.4 Volume 4, "Execution Report"; OUCH 4.2, "Outbound Messages".
pub fn audit_script<R: Read, W: Write, F: Write>(
    alloc: Global,
    input: &mut R,
    output: &mut W,
    faults: &mut F,
) -> u8
    ensures status { result ≤ 2 }
    ensures audited { result ≡ 0 → IsAudited (W.contents output.old) (W.contents output.new) }
    ensures of_script { result ≡ 0 → IfSome (R.remaining input.old)
        (λ text. IsAuditOf text (W.contents output.old) (W.contents output.new)) }
{
    match script_history(alloc, input) {
        Ok(history) => audit_history(alloc, &history, output, faults),
        Err(stop) => tell(stop, faults),
    }
}

/// Writes the audit of a history.
fn audit_history<W: Write, F: Write>(
    alloc: Global,
    history: &History,
    output: &mut W,
    faults: &mut F,
) -> u8
    ensures status { result ≤ 1 }
    ensures written { Holds fixed (turns history.now) → result ≡ 0
        → Appends (W.contents output.old) (W.contents output.new)
        (shown_audit (accepted_pairs fixed (turns history.now))) }
{
    match pairs_of(alloc, history) {
        Ok(pairs) => write_audit(alloc, pairs.as_slice(), output, faults),
        Err(ReadingFault::NoMemory) => tell(Stop::NoMemory, faults),
        Err(ReadingFault::TooLarge) => {
            let _ = writeln!(faults, "{TOO_LARGE}");
            1
        }
    }
}

/// Each order that was accepted, by both of its accounts.
fn pairs_of(alloc: Global, history: &History) -> Result<Vec<OrderPair>, ReadingFault>
    ensures { IfOk result (λ pairs. Holds fixed (turns history.now)
        → pairs.items ≡ accepted_pairs fixed (turns history.now)) }
{
    audit(alloc, history, &fixed_settings(alloc)?)
}
