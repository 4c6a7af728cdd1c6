//! The answers to a tick.

ghost use Rattle.std.specs.Prelude.{◌≡◌, OnOk, length, nat_lt};
ghost use Rattle.session_law.specs.Session.{State, quiet, answered};
ghost use Rattle.session_reading.specs.Due.{due_answer};
ghost use Rattle.fix_session.specs.Made.{made};

use crate::draft::Draft;
use crate::session::Session;
use fix_fields::Fields;
use session_law::Kind;
use session_reading::Due;
use std::alloc::{AllocError, Global};

/// Makes what is due, in a draft.
pub fn do_due(
    alloc: Global,
    draft: &mut Draft,
    session: &Session,
    due: Due,
) -> Result<(), AllocError>
    requires quiet { made session.now.session draft.old ≡ quiet (made session.now.session draft.old).state }
    ensures { OnOk result (made session.now.session draft.new
        ≡ answered (made session.now.session draft.old).state (due_answer due)) }
{
    match due {
        Due::Nothing => Ok(()),
        Due::Close => draft.shut(session),
        Due::NoAnswer => draft.log_out(alloc, session, b"no answer"),
        Due::TestRequest => draft.test(alloc, session),
        Due::Heartbeat => draft.say(session, Kind::Heartbeat, Fields::new(alloc)),
    }
}

/// Whether what is due has output to the link.
pub fn gives_anything(due: Due) -> bool
    ensures { (s : State) → result ≡ nat_lt 0 (length (answered s (due_answer due)).outs) }
{
    match due {
        Due::Nothing => false,
        Due::Close | Due::NoAnswer | Due::TestRequest | Due::Heartbeat => true,
    }
}
