//! The frame of a report or reject that is issued.

ghost use Rattle.std.specs.Prelude.{◌≡◌, ◌∷◌, [], ℕ, List, map, IfOk, if◌then◌else◌};
ghost use Rattle.fix_stamp.specs.Stamp.{stamp_text};
ghost use Rattle.session_reading.specs.session_law.Frames.{frame_fields, told_of_out};
ghost use Rattle.session_reading.specs.session_law.Table.{is_logged_on};
ghost use Rattle.session_reading.specs.session_law.declared.frame.Frame.{Frame};
ghost use Rattle.session_reading.specs.session_law.declared.frame.Out.TheVariants.{Write};
ghost use Rattle.session_writing.specs.Written.{told_frame};

use fix_framing::frame_of_text;
use fix_printing::PrintedFields;
use session_law::{IssuedReport, Phase};
use std::alloc::{AllocError, Global};

/// The report of these fields; `AllocError` where they print in more than `IssuedReport::LONGEST` bytes.
pub(crate) fn report_in_limit(printed: PrintedFields) -> Result<IssuedReport, AllocError>
    ensures { IfOk result (λ report. report ≡ printed) }
{
    match IssuedReport::of(printed) {
        Some(report) => Ok(report),
        None => Err(AllocError),
    }
}

/// What goes to the link of a report: its frame where the client is logged on, nothing elsewhere. One growth.
pub fn issued_frame(
    alloc: Global,
    phase: Phase,
    report: &IssuedReport,
) -> Result<Option<Vec<u8>>, AllocError>
    ensures { IfOk result (λ frame. (gate client : List ℕ) (f : Frame)
        → report.now ≡ frame_fields stamp_text gate client f → told_frame frame
        ≡ map (told_of_out gate client) (if is_logged_on phase then Write f ∷ [] else [])) }
{
    match phase {
        Phase::LoggedOn(_) => Ok(Some(frame_of_text(alloc, report.text())?)),
        Phase::Down | Phase::AwaitingLogon(_) => Ok(None),
    }
}
