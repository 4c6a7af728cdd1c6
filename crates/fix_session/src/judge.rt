//! Which row of the table a message meets, of a client that is logged on and of a link that isn't. Judging changes
//! nothing and takes no memory.

ghost use Rattle.std.specs.Prelude.{◌≡◌, ◌≤◌, ◌<◌, ◌^◌, length, if◌then◌else◌, codes};
ghost use Rattle.session_law.specs.Table as table;
ghost use Rattle.session_law.specs.Table.{answer_by, resend_answer, with_acts, ask_again};
ghost use Rattle.session_reading.specs.Judged.{row_answer, RowFits};
ghost use Rattle.fix_session.specs.Logons.{logon_answer};

use crate::draft::first_number;
use crate::session::Session;
use fix_fields::Fields;
use session_reading::{
    Row, interval_of, is, is_interval, is_letter, is_plain_reset, is_reset_flag, is_type,
    judge_low, judge_plain_reset, judge_resend, judge_taken, numbered, resets,
};

/// Whether a message's names (49, 56) are the client's and the gateway's.
fn is_from_client(session: &Session, m: &Fields) -> bool
    ensures { result ≡ table.is_from_client session.now.session m.now }
{
    is(m, 49, session.client()) && is(m, 56, session.gate())
}

/// The row that a message of a client that is logged on meets.
pub fn judge(session: &Session, m: &Fields) -> Row
    ensures answer { answer_by (table.logged_on_rows session.now.session m.now
        (table.message_number m.now) session.now.session.expected)
        ≡ row_answer session.now.session m.now (table.message_number m.now) session.now.session.expected result }
    ensures fits { RowFits m.now (length session.now.session.given) result }
{
    let received = numbered(m);
    let expected = session.next_in();
    if received == 0 {
        return Row::NumberMissing;
    }
    if !is_from_client(session, m) {
        let tag = if is(m, 49, session.client()) { 56 } else { 49 };
        return Row::NamesWrong {
            is_expected: received == expected,
            tag,
        };
    }
    if is_plain_reset(m) {
        return judge_plain_reset(m, expected);
    }
    if received < expected {
        return judge_low(m);
    }
    if expected < received {
        return judge_high(session, m);
    }
    Row::Taken(judge_taken(m, session.last()))
}

/// The row of a number above the expected one.
fn judge_high(session: &Session, m: &Fields) -> Row
    ensures fits { RowFits m.now (length session.now.session.given) result }
    ensures answer { row_answer session.now.session m.now (table.message_number m.now)
        session.now.session.expected result
        ≡ (if table.is_type (codes "5") m.now then table.acts table.log_out_silently
        else (if table.is_type (codes "2") m.now then with_acts (resend_answer (length session.now.session.given) m.now)
        (ask_again session.now.session (table.message_number m.now))
        else table.acts (ask_again session.now.session (table.message_number m.now)))) }
{
    if is_type(m, b'5') {
        return Row::LoggedOut;
    }
    if is_type(m, b'2') {
        return Row::GapWithResend(judge_resend(m, session.last()));
    }
    Row::Gap
}

/// A row of the table of a link that isn't logged on.
#[derive(Clone, Copy, PartialEq, Eq)]
pub enum LogonRow {
    /// The link is closed without a word.
    NotAnswered,
    /// The number is too low: a Logout, and the end.
    TooLow { expected: u64 },
    /// The client is logged on.
    LogsOn { interval: u32, resets: bool },
    /// The client is logged on, and the gap is asked for.
    LogsOnWithGap { interval: u32, resets: bool },
}

/// Whether it is a Logon that may be answered.
fn is_logon(session: &Session, m: &Fields) -> bool
    ensures { result ≡ table.is_logon session.now.session m.now }
{
    is_type(m, b'A')
        && (is_from_client(session, m)
            && (numbered(m) != 0
                && (is_letter(m, 98, b'0')
                    && (is_interval(m) && (is_reset_flag(m) && m.first_fault().is_none())))))
}

/// The row that a message of a link that isn't logged on meets.
pub fn judge_logon(session: &Session, m: &Fields) -> LogonRow
    ensures { answer_by (table.logon_rows session.now.session m.now (table.message_number m.now)
        (if table.resets m.now then 1 else session.now.session.expected))
        ≡ logon_answer m.now (table.message_number m.now) result }
{
    if !is_logon(session, m) {
        return LogonRow::NotAnswered;
    }
    let interval = interval_of(m);
    let resets = resets(m);
    if resets && numbered(m) != 1 {
        return LogonRow::NotAnswered;
    }
    let received = numbered(m);
    let expected = first_number(resets, session.next_in());
    if received < expected {
        return LogonRow::TooLow { expected };
    }
    if received == expected {
        return LogonRow::LogsOn { interval, resets };
    }
    LogonRow::LogsOnWithGap { interval, resets }
}
