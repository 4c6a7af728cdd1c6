//! The audit of a day's file, be the day over or not.

ghost use Rattle.std.specs.Prelude.{◌≡◌, ◌≤◌, IfSome};
ghost use Rattle.std.specs.Io.KnownBytes.{Keeps};
ghost use Rattle.journal_audit.specs.Audits.{IsAuditSoFar, IsNoDaysFile};
ghost use Rattle.journal_file.specs.Inputs.{IsJudged, IsReadTo};

use crate::audit::{tell_ending, tell_unread, write_day_audit};
use crate::read_day::{ReadDay, read_day};
use gate_settings::Settings;
use std::alloc::Global;
use std::io::{Read, Write};

/// Reads the file of a day that is over or goes on, be it that a gateway runs or was killed, and writes the audit of
/// what its whole pages say to `output`, as `audit_file` does. How the file of a day that goes on ends is told on
/// `faults`.
///
/// Status 2 comes where the file is none; the others as `audit_file` has them.
pub fn audit_so_far<R: Read, W: Write, F: Write>(
    alloc: Global,
    input: &mut R,
    settings: &Settings,
    output: &mut W,
    faults: &mut F,
) -> u8
    ensures status { result ≤ 2 }
    ensures audited { result ≡ 0 → IsReadTo (R.remaining input.old) (R.remaining input.new)
        (λ file. IsAuditSoFar settings.now file (W.contents output.old) (W.contents output.new)) }
    ensures refused { result ≡ 2 → IsJudged (R.remaining input.old) (R.remaining input.new) IsNoDaysFile
        × Keeps (W.contents output.old) (W.contents output.new) }
    ensures all_audited { result ≡ 0 → IfSome (R.remaining input.old)
        (λ file. IsAuditSoFar settings.now file (W.contents output.old) (W.contents output.new)) }
    ensures all_refused { result ≡ 2 → IfSome (R.remaining input.old) IsNoDaysFile }
{
    match read_day(alloc, input, settings) {
        Ok(read) => {
            let ReadDay { audit, ending } = read;
            tell_ending(ending, faults);
            write_day_audit(alloc, audit, settings, output, faults)
        }
        Err(why) => tell_unread(&why, faults),
    }
}
