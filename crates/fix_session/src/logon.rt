//! The answers to the first message of a link.

ghost use Rattle.std.specs.Prelude.{◌≡◌, ◌≤◌, ◌^◌, ◌∷◌, [], IfOk, Some};
ghost use Rattle.session_law.specs.Session.{Shut, answered, logon_opened};
ghost use Rattle.session_law.specs.Runs.{at_moment, heard};
ghost use Rattle.session_law.specs.Table as table;
ghost use Rattle.fix_fields.specs.Field as tags;
ghost use Rattle.fix_session.specs.Made.{made};
ghost use Rattle.fix_session.specs.Logons.{logon_answer};
ghost use Rattle.fix_session.specs.declared.judge.LogonRow.TheVariants as rows;

use crate::answer::too_low;
use crate::draft::Draft;
use crate::judge::LogonRow;
use crate::session::Session;
use fix_fields::Fields;
use session_law::Kind;
use session_reading::numbered;
use session_writing::logon_body;
use std::alloc::{AllocError, Global};

/// The row's answer at this moment.
pub fn answer_logon(
    alloc: Global,
    session: &Session,
    m: &Fields,
    row: LogonRow,
    at: u64,
) -> Result<Draft, AllocError>
    ensures { IfOk result (λ draft. made session.now.session draft
        ≡ answered (heard (at_moment at session.now.session))
        (logon_answer m.now (table.message_number m.now) row)) }
{
    match row {
        LogonRow::NotAnswered => end(alloc, session, at),
        LogonRow::TooLow { expected } => refuse(alloc, session, m, expected, at),
        LogonRow::LogsOn { interval, resets } => log_on(alloc, session, m, interval, resets, at),
        LogonRow::LogsOnWithGap { interval, resets } => {
            log_on_with_gap(alloc, session, m, interval, resets, at)
        }
    }
}

/// The link ends without a word.
fn end(alloc: Global, session: &Session, at: u64) -> Result<Draft, AllocError>
    ensures { IfOk result (λ draft. made session.now.session draft
        ≡ answered (heard (at_moment at session.now.session)) (table.acts (Shut ∷ []))) }
{
    let mut draft = Draft::heard_at(alloc, session, at);
    draft.shut(session)?;
    Ok(draft)
}

/// A number that is too low: a Logout, and the end.
fn refuse(
    alloc: Global,
    session: &Session,
    m: &Fields,
    expected: u64,
    at: u64,
) -> Result<Draft, AllocError>
    ensures { IfOk result (λ draft. made session.now.session draft
        ≡ answered (heard (at_moment at session.now.session))
        (logon_answer m.now (table.message_number m.now) (rows.TooLow expected))) }
{
    let mut draft = Draft::heard_at(alloc, session, at);
    too_low(alloc, &mut draft, session, expected, numbered(m))?;
    Ok(draft)
}

/// Logs the client on.
fn log_on(
    alloc: Global,
    session: &Session,
    m: &Fields,
    interval: u32,
    resets: bool,
    at: u64,
) -> Result<Draft, AllocError>
    ensures { IfOk result (λ draft. made session.now.session draft
        ≡ answered (heard (at_moment at session.now.session))
        (logon_answer m.now (table.message_number m.now) (rows.LogsOn interval resets))) }
{
    let mut draft = open(alloc, session, m, interval, resets, at)?;
    draft.grow(session);
    Ok(draft)
}

/// Logs the client on, and asks for the gap.
fn log_on_with_gap(
    alloc: Global,
    session: &Session,
    m: &Fields,
    interval: u32,
    resets: bool,
    at: u64,
) -> Result<Draft, AllocError>
    ensures { IfOk result (λ draft. made session.now.session draft
        ≡ answered (heard (at_moment at session.now.session))
        (logon_answer m.now (table.message_number m.now) (rows.LogsOnWithGap interval resets))) }
{
    let mut draft = open(alloc, session, m, interval, resets, at)?;
    draft.ask_again(alloc, session, numbered(m))?;
    Ok(draft)
}

/// Logs the client on, and answers with a Logon.
fn open(
    alloc: Global,
    session: &Session,
    m: &Fields,
    interval: u32,
    resets: bool,
    at: u64,
) -> Result<Draft, AllocError>
    ensures opened { IfOk result (λ draft. made session.now.session draft
        ≡ logon_opened (heard (at_moment at session.now.session))
        (Some (record { interval_text = tags.text 108 m.now; interval = interval; resets = resets }))) }
    ensures expected { IfOk result (λ draft. draft.expected ≤ 10 ^ 18) }
{
    let body = logon_body(alloc, m, resets)?;
    let mut draft = Draft::opened_at(alloc, session, interval, resets, at);
    draft.say(session, Kind::Logon, body)?;
    Ok(draft)
}
