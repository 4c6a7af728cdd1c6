//! What is due at a moment: after silence of either side, or on a link that doesn't log on.
//!
//! Source: FIX 4.4 Volume 2, "Heartbeat" and "Test Request"; the limits are the gateway's own.

ghost use Rattle.std.specs.Prelude.{◌≡◌, ◌≤◌, ◌<◌, ◌+◌, nat_le};
ghost use Rattle.session_law.specs.Session.{State};
ghost use Rattle.session_law.specs.Table as table;
ghost use Rattle.session_law.specs.Table.{answer_by};
ghost use Rattle.session_reading.specs.Due.{due_answer};

use session_law::{Logged, Phase};

/// What is due at a moment.
#[derive(Clone, Copy, PartialEq, Eq)]
pub enum Due {
    Nothing,
    /// The link has been up too long without a Logon.
    Close,
    /// A client that was silent for two intervals and two fifths: a Logout, and the end.
    NoAnswer,
    /// A client that was silent for an interval and a fifth.
    TestRequest,
    /// The gateway was silent for an interval.
    Heartbeat,
}

/// What is due at this moment, by the table's rows of a tick. Moments are milliseconds; `now` is the session's latest.
pub fn due_at(phase: Phase, now: u64) -> Due
    ensures { (s : State) → s.latest ≡ now → answer_by (table.tick_rows s phase) ≡ due_answer result }
{
    match phase {
        Phase::Down => Due::Nothing,
        Phase::AwaitingLogon(since) => {
            if now.saturating_sub(since) > 15_000 {
                Due::Close
            } else {
                Due::Nothing
            }
        }
        Phase::LoggedOn(on) => due_of(&on, now),
    }
}

/// What is due to a client that is logged on.
fn due_of(on: &Logged, now: u64) -> Due
    ensures { answer_by (table.silence_rows on.now now) ≡ due_answer result }
{
    let interval = u64::from(on.interval);
    if interval == 0 {
        return Due::Nothing;
    }
    let silent = now.saturating_sub(on.heard);
    if silent > 2400 * interval {
        return Due::NoAnswer;
    }
    if silent > 1200 * interval && !on.tested {
        return Due::TestRequest;
    }
    if is_past(now, on.written, 1000 * interval) {
        return Due::Heartbeat;
    }
    Due::Nothing
}

/// Whether so much time has passed since a moment.
fn is_past(now: u64, since: u64, time: u64) -> bool
    ensures { result ≡ nat_le (since + time) now }
{
    now >= since && now - since >= time
}
