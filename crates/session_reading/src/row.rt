//! The rows of a client that is logged on, as far as the message alone decides them.

ghost use Rattle.std.specs.Prelude.{◌≡◌, true, false, unwrap_or, codes, if◌then◌else◌, ℕ};
ghost use Rattle.fix_types.specs.fix_fields.Field as tags;
ghost use Rattle.fix_types.specs.fix_fields.Reasons.{session_reject_number};
ghost use Rattle.session_law.specs.Messages as law;
ghost use Rattle.session_law.specs.Table as table;
ghost use Rattle.session_reading.specs.declared.row.Row.TheVariants as rows;
ghost use Rattle.session_reading.specs.Judged.{RowFits};

use crate::message::new_number;
use crate::taken::Taken;
use crate::words::{has, is_letter};
use fix_types::{Fields, SessionRejectReason};

/// A row of the table of a client that is logged on.
#[derive(Clone, Copy, PartialEq, Eq)]
pub enum Row {
    /// No number: a Logout, and the end.
    NumberMissing,
    /// Other names than the link's: a Reject of the first that is wrong, a Logout, and the end.
    NamesWrong { is_expected: bool, tag: u32 },
    /// A SequenceReset without GapFill moves the expected number.
    Expects(u64),
    /// Such a SequenceReset that goes back, or has no number.
    Rejected { reason: u8 },
    /// A low number that is sent again: nothing.
    Passed,
    /// A low number: a Logout, and the end.
    TooLow,
    /// A Logout with a number above the expected one.
    LoggedOut,
    /// A ResendRequest with a number above the expected one: it is answered, and the gap is asked for.
    GapWithResend(Taken),
    /// A number above the expected one: the gap is asked for.
    Gap,
    /// The expected number.
    Taken(Taken),
}

impl Row {
    ghost use Rattle.session_reading.specs.Judged as judged;

    /// Whether the message is delivered to the application.
    pub fn is_delivery(self) -> bool
        ensures { result ≡ judged.is_delivery self }
    {
        matches!(self, Row::Taken(Taken::Delivered))
    }
}

/// A SequenceReset without GapFill, judged before its number is.
pub fn judge_plain_reset(m: &Fields, expected: u64) -> Row
    ensures fits { (last : ℕ) → RowFits m.now last result }
    ensures above { table.is_from expected (law.short_number 36 m.now) ≡ true
        → result ≡ rows.Expects (unwrap_or (law.short_number 36 m.now) 0) }
    ensures below { table.is_from expected (law.short_number 36 m.now) ≡ false
        → result ≡ rows.Rejected (if tags.has 36 m.now then 5 else 1) }
{
    match new_number(m, expected) {
        Some(number) => Row::Expects(number),
        None => Row::Rejected {
            reason: plain_reset_reason(m).number(),
        },
    }
}

/// Why a SequenceReset without GapFill is rejected (SessionRejectReason, 373): NewSeqNo (36) is missing, or goes back.
fn plain_reset_reason(m: &Fields) -> SessionRejectReason
    ensures { session_reject_number result ≡ (if tags.has 36 m.now then 5 else 1) }
{
    if has(m, 36) {
        SessionRejectReason::ValueIsIncorrect
    } else {
        SessionRejectReason::RequiredTagMissing
    }
}

/// A number below the expected one.
pub fn judge_low(m: &Fields) -> Row
    ensures fits { (last : ℕ) → RowFits m.now last result }
    ensures again { tags.is 43 (codes "Y") m.now ≡ true → result ≡ rows.Passed }
    ensures fresh { tags.is 43 (codes "Y") m.now ≡ false → result ≡ rows.TooLow }
{
    if is_letter(m, 43, b'Y') {
        Row::Passed
    } else {
        Row::TooLow
    }
}
