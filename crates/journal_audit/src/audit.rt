//! The audit of a day's file.

ghost use Rattle.std.specs.Prelude.{◌≡◌, ◌≤◌, IfSome};
ghost use Rattle.std.specs.Io.KnownBytes.{Appends, Keeps};
ghost use Rattle.gate_lines.specs.gate_law.Events.{History};
ghost use Rattle.gate_lines.specs.gate_law.Holds.{Holds};
ghost use Rattle.gate_audit.specs.Auditing.{IsAuditing};
ghost use Rattle.gate_audit.specs.Pairs.{accepted_pairs, pairs};
ghost use Rattle.gate_lines.specs.AuditLines.{shown_audit};
ghost use Rattle.journal_file.specs.declared.ending.Ending.TheVariants.{Over};
ghost use Rattle.journal_audit.specs.Audits.{IsAuditOfFile, IsNotOver, NamesAPage};
ghost use Rattle.journal_file.specs.Inputs.{IsJudged, IsReadTo};

use crate::read_day::{ReadDay, Unread, read_day};
use gate_audit::DayAudit;
use gate_lines::write_audit;
use gate_settings::Settings;
use journal_file::{Ending, ReadFault};
use order_accounts::ReadingFault;
use std::alloc::Global;
use std::io::{Read, Write};

/// Reads the file of a day that is over, page by page, and writes the audit of its history to `output`: a line for each
/// order that was accepted, and one for how many there are and how many agree. What an audit keeps is in memory, and of
/// the file the pages of a few turns (`DayReader`).
///
/// Answers the status that a program ends with which does so: 0 where both accounts of each order agree; 2 where the
/// file is none, with `page N: FAULT` on `faults`, the number from 0 and the fault as `FileFault` has it, and where
/// its day goes on, with `the day goes on: ` and how its file ends; in both cases nothing is written to `output`;
/// else 1: where those of an order don't agree, where memory runs out, with `out of memory`, where a read or a write
/// fails, with `read or write failed`, and where a number of an account is larger than its integer holds, with `an
/// order's account is too large`.
///
/// Source: FIX 4.4 Volume 4, "Execution Report"; OUCH 4.2, "Outbound Messages".
pub fn audit_file<R: Read, W: Write, F: Write>(
    alloc: Global,
    input: &mut R,
    settings: &Settings,
    output: &mut W,
    faults: &mut F,
) -> u8
    ensures status { result ≤ 2 }
    ensures audited { result ≡ 0 → IsReadTo (R.remaining input.old) (R.remaining input.new)
        (λ file. IsAuditOfFile settings.now file (W.contents output.old) (W.contents output.new)) }
    ensures refused { result ≡ 2 → IsJudged (R.remaining input.old) (R.remaining input.new) IsNotOver
        × Keeps (W.contents output.old) (W.contents output.new) }
    ensures all_audited { result ≡ 0 → IfSome (R.remaining input.old)
        (λ file. IsAuditOfFile settings.now file (W.contents output.old) (W.contents output.new)) }
    ensures all_refused { result ≡ 2 → IfSome (R.remaining input.old) IsNotOver }
{
    match read_day(alloc, input, settings) {
        Ok(read) => audit_read(alloc, read, settings, output, faults),
        Err(why) => tell_unread(&why, faults),
    }
}

/// Tells how the file of a day that goes on ends; nothing of one that is over.
pub(crate) fn tell_ending<F: Write>(ending: Ending, faults: &mut F) {
    let _ = match ending {
        Ending::Over => Ok(()),
        Ending::GoesOn => writeln!(faults, "the day goes on: its file has no end"),
        Ending::Torn(bytes) => writeln!(
            faults,
            "the day goes on: its file ends with {bytes} bytes of a write that was cut short"
        ),
    };
}

/// Writes the audit of a file that was read, where its day is over.
fn audit_read<W: Write, F: Write>(
    alloc: Global,
    read: ReadDay,
    settings: &Settings,
    output: &mut W,
    faults: &mut F,
) -> u8
    ensures status { result ≤ 2 }
    ensures over { result ≡ 0 → read.ending ≡ Over }
    ensures written { result ≡ 0 → (h : History) → IsAuditing settings.now h read.audit
        → Appends (W.contents output.old) (W.contents output.new) (shown_audit (pairs settings.now h)) }
    ensures run { result ≡ 0 → (h : History) → IsAuditing settings.now h read.audit → Holds settings.now h
        → Appends (W.contents output.old) (W.contents output.new) (shown_audit (accepted_pairs settings.now h)) }
    ensures refused { result ≡ 2 → read.ending ≡ Over → ⊥ }
    ensures untold { result ≡ 2 → Keeps (W.contents output.old) (W.contents output.new) }
{
    let ReadDay { audit, ending } = read;
    match ending {
        Ending::Over => write_day_audit(alloc, audit, settings, output, faults),
        Ending::GoesOn | Ending::Torn(_) => {
            tell_ending(ending, faults);
            2
        }
    }
}

/// Writes what an audit comes to.
pub(crate) fn write_day_audit<W: Write, F: Write>(
    alloc: Global,
    audit: DayAudit,
    settings: &Settings,
    output: &mut W,
    faults: &mut F,
) -> u8
    ensures status { result ≤ 1 }
    ensures written { result ≡ 0 → (h : History) → IsAuditing settings.now h audit
        → Appends (W.contents output.old) (W.contents output.new) (shown_audit (pairs settings.now h)) }
    ensures run { result ≡ 0 → (h : History) → IsAuditing settings.now h audit → Holds settings.now h
        → Appends (W.contents output.old) (W.contents output.new) (shown_audit (accepted_pairs settings.now h)) }
{
    match audit.pairs(alloc, settings) {
        Ok(pairs) => write_audit(alloc, pairs.as_slice(), output, faults),
        Err(fault) => tell_uncounted(fault, faults),
    }
}

/// Tells why an account wasn't read.
fn tell_uncounted<F: Write>(fault: ReadingFault, faults: &mut F) -> u8
    ensures { result ≡ 1 }
{
    let _ = match fault {
        ReadingFault::NoMemory => writeln!(faults, "{fault}"),
        ReadingFault::TooLarge => writeln!(faults, "an order's account is too large"),
    };
    1
}

/// Tells why a file wasn't read to its end: 2 where it is none.
pub(crate) fn tell_unread<F: Write>(why: &Unread, faults: &mut F) -> u8
    ensures status { result ≤ 2 }
    ensures from_one { 1 ≤ result }
    ensures refused { result ≡ 2 → NamesAPage why.now }
{
    match why {
        Unread::Account(fault) => tell_uncounted(*fault, faults),
        Unread::File(fault) => {
            let _ = writeln!(faults, "{fault}");
            status_of(fault)
        }
    }
}

/// The status where a file isn't read further.
fn status_of(fault: &ReadFault) -> u8
    ensures { (result ≤ 2) × (1 ≤ result) × (result ≡ 2 → NamesAPage (Unread.File fault.now)) }
{
    match fault {
        ReadFault::NoFile(_, _) => 2,
        ReadFault::NoMemory | ReadFault::Read(_) => 1,
    }
}
