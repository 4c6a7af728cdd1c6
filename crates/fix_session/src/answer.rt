//! The answer of each row of the table, made in a draft.

ghost use Rattle.std.specs.Prelude.{fold, ◌≡◌, ◌≤◌, ◌<◌, ◌^◌, ◌++◌, ◌∷◌, [], length, IfOk, OnOk, Some, None, codes};
ghost use Rattle.std.specs.Prelude.{decimal, true, false, nat_le};
ghost use Rattle.fix_fields.specs.Field.{IsValue};
ghost use Rattle.session_law.specs.Session.{State, Given, perform, quiet, answered, sent_again, SayUnsupported, kept};
ghost use Rattle.session_law.specs.Session.{Say, Heartbeat};
ghost use Rattle.session_law.specs.Table as table;
ghost use Rattle.fix_fields.specs.Field as tags;
ghost use Rattle.fix_session.specs.Made.{made};
ghost use Rattle.session_reading.specs.Judged.{taken_answer, row_answer, RowFits, TakenFits, is_delivered, is_delivery};

use crate::draft::Draft;
use crate::session::Session;
use fix_fields::{Fields, SessionRejectReason};
use session_law::Kind;
use session_reading::{Row, Taken, numbered, text};
use session_writing::{echo_body, too_low_body, unsupported_body};
use std::alloc::{AllocError, Global};

/// Makes the row's answer, in a draft. A message that is delivered needs none.
pub fn answer(
    alloc: Global,
    draft: &mut Draft,
    session: &Session,
    m: &Fields,
    row: Row,
) -> Result<(), AllocError>
    requires quiet { made session.now.session draft.old ≡ quiet (made session.now.session draft.old).state }
    requires given { (made session.now.session draft.old).state.given ≡ session.now.session.given }
    requires silent { (draft.old.resends ≡ None) × (draft.old.outs.items ≡ []) }
    requires expected { draft.old.expected < 2 ^ 61 }
    requires row { RowFits m.now (length session.now.session.given) row }
    requires undelivered { is_delivery row ≡ false }
    ensures { OnOk result (made session.now.session draft.new
        ≡ answered (made session.now.session draft.old).state
        (row_answer session.now.session m.now (table.message_number m.now) session.now.session.expected row)) }
{
    match row {
        Row::NumberMissing => draft.log_out(alloc, session, b"MsgSeqNum missing"),
        Row::NamesWrong { is_expected, tag } => {
            if is_expected {
                draft.grow(session);
                names_wrong(alloc, draft, session, m, tag)
            } else {
                names_wrong(alloc, draft, session, m, tag)
            }
        }
        Row::Expects(number) => {
            draft.expect(session, number);
            Ok(())
        }
        Row::Rejected { reason } => draft.reject(alloc, session, m, 36, reason),
        Row::Passed => Ok(()),
        Row::TooLow => too_low(alloc, draft, session, session.next_in(), numbered(m)),
        Row::LoggedOut => draft.log_out_silently(alloc, session),
        Row::GapWithResend(Taken::SentAgain { from, to }) => {
            draft.send_again(session, from, to);
            ask_unless_waiting(alloc, draft, session, numbered(m))
        }
        Row::GapWithResend(taken) => {
            act(alloc, draft, session, m, taken)?;
            ask_unless_waiting(alloc, draft, session, numbered(m))
        }
        Row::Gap => ask_unless_waiting(alloc, draft, session, numbered(m)),
        Row::Taken(Taken::SentAgain { from, to }) => {
            draft.send_again(session, from, to);
            draft.grow(session);
            Ok(())
        }
        Row::Taken(taken) => {
            draft.grow(session);
            act(alloc, draft, session, m, taken)
        }
    }
}

/// Rejects a message of other names, and logs out.
fn names_wrong(
    alloc: Global,
    draft: &mut Draft,
    session: &Session,
    m: &Fields,
    tag: u32,
) -> Result<(), AllocError>
    ensures { OnOk result (made session.now.session draft.new
        ≡ fold perform (made session.now.session draft.old)
        (table.reject_act m.now tag 9 ∷ table.log_out (codes "CompID problem"))) }
{
    let reason = SessionRejectReason::CompIdProblem.number();
    draft.reject(alloc, session, m, tag, reason)?;
    draft.log_out(alloc, session, b"CompID problem")
}

/// A ResendRequest, unless one is waiting for its numbers.
fn ask_unless_waiting(
    alloc: Global,
    draft: &mut Draft,
    session: &Session,
    received: u64,
) -> Result<(), AllocError>
    ensures { OnOk result (made session.now.session draft.new
        ≡ fold perform (made session.now.session draft.old) (table.ask_again session.now.session received)) }
{
    if session.is_waiting() {
        Ok(())
    } else {
        draft.ask_again(alloc, session, received)
    }
}

/// The answer to the message with the expected number, apart from a resend. None is delivered here.
fn act(
    alloc: Global,
    draft: &mut Draft,
    session: &Session,
    m: &Fields,
    taken: Taken,
) -> Result<(), AllocError>
    requires fits { TakenFits m.now (length session.now.session.given) taken }
    requires undelivered { is_delivered taken ≡ false }
    ensures { OnOk result (made session.now.session draft.new
        ≡ fold perform (made session.now.session draft.old) (taken_answer m.now taken).acts) }
{
    match taken {
        Taken::Nothing => Ok(()),
        Taken::Rejected { tag, reason } => draft.reject(alloc, session, m, tag, reason),
        Taken::Echoed => echo(alloc, draft, session, m),
        Taken::SentAgain { .. } | Taken::Delivered => Ok(()),
        Taken::Expects(number) => {
            draft.expect(session, number);
            Ok(())
        }
        Taken::LoggedOut => draft.log_out_silently(alloc, session),
        Taken::AlreadyLoggedOn => draft.log_out(alloc, session, b"already logged on"),
        Taken::Unsupported => unsupported(alloc, draft, session, m),
    }
}

/// Answers a TestRequest.
fn echo(alloc: Global, draft: &mut Draft, session: &Session, m: &Fields) -> Result<(), AllocError>
    ensures { OnOk result (made session.now.session draft.new
        ≡ perform (made session.now.session draft.old) (Say Heartbeat (tags.field 112 (tags.text 112 m.now) ∷ []))) }
{
    let body = echo_body(alloc, text(m, 112))?;
    draft.say(session, Kind::Heartbeat, body)
}

/// Rejects a type that isn't served. The body is kept for resends.
fn unsupported(
    alloc: Global,
    draft: &mut Draft,
    session: &Session,
    m: &Fields,
) -> Result<(), AllocError>
    ensures { OnOk result (made session.now.session draft.new
        ≡ perform (made session.now.session draft.old) (SayUnsupported (table.unsupported_body m.now))) }
{
    let body = unsupported_body(alloc, m)?;
    draft.say_kept(session, Kind::BusinessReject, body)
}

/// A Logout for a number that is too low.
pub fn too_low(
    alloc: Global,
    draft: &mut Draft,
    session: &Session,
    expected: u64,
    received: u64,
) -> Result<(), AllocError>
    ensures { OnOk result (made session.now.session draft.new
        ≡ fold perform (made session.now.session draft.old) (table.too_low expected received)) }
{
    let body = too_low_body(alloc, expected, received)?;
    draft.say(session, Kind::Logout, body)?;
    draft.shut(session)
}
