//! The row that the message with the expected number meets; also the row of a ResendRequest.

ghost use Rattle.std.specs.Prelude.{◌≡◌, ◌≤◌, ◌+◌, true, false, None, codes, unwrap_or, ℕ};
ghost use Rattle.fix_types.specs.fix_fields.Field as tags;
ghost use Rattle.fix_types.specs.fix_fields.Fault as fault;
ghost use Rattle.fix_types.specs.fix_fields.Reasons.{session_reject_number};
ghost use Rattle.session_law.specs.Messages as law;
ghost use Rattle.session_law.specs.Table as table;
ghost use Rattle.session_law.specs.Table.{answer_by};
ghost use Rattle.session_law.specs.Formats.{application_refusal};
ghost use Rattle.session_reading.specs.declared.taken.Taken.TheVariants as taken;
ghost use Rattle.session_reading.specs.Judged.{taken_answer, TakenFits, is_delivered};

use crate::message::{is_other_type, is_silent, new_number, new_number_reason, numbered};
use crate::requests::{is_app_type, refusal_of};
use crate::words::{has, is_byte, number, text};
use fix_types::{Fields, SessionRejectReason};

/// The answer to the message with the expected number.
#[derive(Clone, Copy, PartialEq, Eq)]
pub enum Taken {
    /// Nothing is answered.
    Nothing,
    /// A Reject of this tag, for this reason.
    Rejected { tag: u32, reason: u8 },
    /// A Heartbeat with the TestRequest's own text.
    Echoed,
    /// These numbers are sent again.
    SentAgain { from: u64, to: u64 },
    /// A SequenceReset with GapFill: the number that is expected then.
    Expects(u64),
    /// A Logout: one in return, and the end.
    LoggedOut,
    /// A second Logon: a Logout, and the end.
    AlreadyLoggedOn,
    /// It is delivered to the application.
    Delivered,
    /// A type that isn't served: a BusinessMessageReject.
    Unsupported,
}

/// A Reject of this tag, for this reason.
fn rejected(tag: u32, reason: SessionRejectReason) -> Taken
    ensures { result ≡ taken.Rejected tag (session_reject_number reason) }
{
    Taken::Rejected {
        tag,
        reason: reason.number(),
    }
}

/// The answer to a ResendRequest, after `last` numbers were given.
pub fn judge_resend(m: &Fields, last: u64) -> Taken
    ensures answer { table.resend_answer last m.now ≡ taken_answer m.now result }
    ensures fits { TakenFits m.now last result }
    ensures undelivered { is_delivered result ≡ false }
{
    if !has(m, 7) {
        return rejected(7, SessionRejectReason::RequiredTagMissing);
    }
    if !has(m, 16) {
        return rejected(16, SessionRejectReason::RequiredTagMissing);
    }
    let Some(from) = number(m, 7) else {
        return rejected(7, SessionRejectReason::IncorrectDataFormat);
    };
    let Some(to) = number(m, 16) else {
        return rejected(16, SessionRejectReason::IncorrectDataFormat);
    };
    if from >= 1 {
        return Taken::SentAgain {
            from,
            to: until(last, to),
        };
    }
    rejected(7, SessionRejectReason::ValueIsIncorrect)
}

/// The last number asked for: 0 and what is above the last given mean that one.
fn until(last: u64, to: u64) -> u64
    ensures value { result ≡ table.until last to }
    ensures most { result ≤ last }
{
    if to == 0 || last < to { last } else { to }
}

/// The answer to the message with the expected number, after `last` numbers were given.
pub fn judge_taken(m: &Fields, last: u64) -> Taken
    ensures answer { answer_by (table.expected_rows last m.now) ≡ taken_answer m.now result }
    ensures fits { TakenFits m.now last result }
{
    match m.first_fault() {
        Some(fault) => Taken::Rejected {
            tag: fault.tag,
            reason: fault.reason,
        },
        None => judge_faultless(m, last),
    }
}

/// The same, where no field is empty or stands twice.
fn judge_faultless(m: &Fields, last: u64) -> Taken
    requires { fault.first_fault m.now ≡ None }
    ensures answer { answer_by (table.expected_rows last m.now) ≡ taken_answer m.now result }
    ensures fits { TakenFits m.now last result }
{
    let kind = text(m, 35);
    if is_silent(kind) {
        return Taken::Nothing;
    }
    if is_byte(kind, b'1') {
        return judge_test(m);
    }
    if is_byte(kind, b'2') {
        return judge_resend(m, last);
    }
    if is_byte(kind, b'4') {
        return judge_gap_fill(m);
    }
    if is_byte(kind, b'5') {
        return Taken::LoggedOut;
    }
    if is_byte(kind, b'A') {
        return Taken::AlreadyLoggedOn;
    }
    if is_app_type(kind) {
        return judge_application(m);
    }
    if is_other_type(kind) {
        return Taken::Unsupported;
    }
    rejected(35, SessionRejectReason::InvalidMsgType)
}

/// What a TestRequest brings.
fn judge_test(m: &Fields) -> Taken
    ensures fits { (last : ℕ) → TakenFits m.now last result }
    ensures with { tags.has 112 m.now ≡ true → result ≡ taken.Echoed }
    ensures without { tags.has 112 m.now ≡ false → result ≡ taken.Rejected 112 1 }
{
    if has(m, 112) {
        Taken::Echoed
    } else {
        rejected(112, SessionRejectReason::RequiredTagMissing)
    }
}

/// What a SequenceReset with GapFill brings.
fn judge_gap_fill(m: &Fields) -> Taken
    ensures fits { (last : ℕ) → TakenFits m.now last result }
    ensures above { table.is_from (table.message_number m.now + 1) (law.short_number 36 m.now) ≡ true
        → result ≡ taken.Expects (unwrap_or (law.short_number 36 m.now) 0) }
    ensures below { table.is_from (table.message_number m.now + 1) (law.short_number 36 m.now) ≡ false
        → result ≡ taken.Rejected 36 (table.new_number_reason m.now) }
{
    match new_number(m, numbered(m) + 1) {
        Some(number) => Taken::Expects(number),
        None => rejected(36, new_number_reason(m)),
    }
}

/// What an application message brings.
fn judge_application(m: &Fields) -> Taken
    ensures fits { (last : ℕ) → TakenFits m.now last result }
    ensures answer { table.acts (table.refused_acts m.now (application_refusal m.now)) ≡ taken_answer m.now result }
{
    match refusal_of(m) {
        None => Taken::Delivered,
        Some(refusal) => Taken::Rejected {
            tag: refusal.tag,
            reason: refusal.reason,
        },
    }
}
