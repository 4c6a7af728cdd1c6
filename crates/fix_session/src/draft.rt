//! An answer as it is made, beside the session: nothing of the session changes before the answer is complete.

ghost use Rattle.session_law.specs.Table as table;
ghost use Rattle.std.specs.Prelude.{max, fold, ◌≤◌, ◌≡◌, ◌+◌, ◌<◌, ◌^◌, ◌∷◌, ◌++◌, [], length, IfOk, OnErr, OnOk, Some};
ghost use Rattle.std.specs.Prelude.{None, nat_le, true, false, if◌then◌else◌};
ghost use Rattle.session_law.specs.Session.{on_written};
ghost use Rattle.session_law.specs.Runs.{on_heard};

use crate::session::Session;
use fix_fields::Fields;
use fix_printing::printed_fields;
use session_law::{Frame, Kind, Logged, Out, Phase};
use session_writing::{KeptBodies, ask_body, echo_body, reject_body, text_body};
use std::alloc::{AllocError, Global};

/// The numbers to be sent again, from one to another.
#[derive(Clone, Copy)]
pub struct Resend {
    pub from: u64,
    pub to: u64,
}

/// The answer of a call, as far as it is made.
pub struct Draft {
    pub phase: Phase,
    pub expected: u64,
    /// The session's time, in milliseconds since 1970, which all that is made bears.
    pub latest: u64,
    /// Whether both numbers begin at 1 again, with nothing kept.
    pub resets: bool,
    /// What the numbers that it takes are given to: a kept body, or a frame that isn't kept.
    pub slots: KeptBodies,
    /// The numbers that are sent again before all else, if any.
    pub resends: Option<Resend>,
    pub outs: Vec<Out>,
}

// Not derived: then each way out drops it in one call (docs/DECISIONS.md, "Drops").
impl Drop for Draft {
    fn drop(self) {
        let Draft {
            phase: _,
            expected: _,
            latest: _,
            resets: _,
            slots: _,
            resends: _,
            outs: _,
        } = self;
    }
}

impl Draft {
    ghost use Rattle.session_law.specs.Runs.{at_moment, heard};
    ghost use Rattle.session_law.specs.Table.{is_logged_on};
    ghost use Rattle.session_law.specs.Session.{quiet, logged, reset, Logon, perform, numbered, said, kept, next_out};
    ghost use Rattle.session_law.specs.Session.{Given, Say, Shut, Grow, Expect, Slot, AskAgain, Test};
    ghost use Rattle.session_law.specs.Session.{sent_again};
    ghost use Rattle.session_law.specs.Table.{reject_act, log_out, log_out_silently};
    ghost use Rattle.fix_fields.specs.Field.{IsValue};
    ghost use Rattle.fix_session.specs.Made.{made};

    /// What the numbers that it takes are given to.
    pub fn into_slots(self) -> KeptBodies
        ensures { result ≡ self.slots }
    {
        let Draft {
            phase: _,
            expected: _,
            latest: _,
            resets: _,
            slots,
            resends: _,
            outs: _,
        } = self;
        slots
    }

    /// An empty draft at this moment.
    pub fn at(alloc: Global, session: &Session, at: u64) -> Draft
        ensures made { made session.now.session result ≡ quiet (at_moment at session.now.session) }
        ensures fresh { result.resets ≡ false }
        ensures none { result.slots ≡ [] }
        ensures silent { (result.resends ≡ None) × (result.outs.items ≡ []) }
        ensures expected { result.expected ≤ 10 ^ 18 }
    {
        Draft {
            phase: session.phase(),
            expected: session.next_in(),
            latest: session.latest().max(at),
            resets: false,
            slots: KeptBodies::new(alloc),
            resends: None,
            outs: Vec::new(alloc),
        }
    }

    /// An empty draft at this moment, with a frame received.
    pub fn heard_at(alloc: Global, session: &Session, at: u64) -> Draft
        ensures made { made session.now.session result ≡ quiet (heard (at_moment at session.now.session)) }
        ensures fresh { result.resets ≡ false }
        ensures none { result.slots ≡ [] }
        ensures silent { (result.resends ≡ None) × (result.outs.items ≡ []) }
        ensures expected { result.expected ≤ 10 ^ 18 }
    {
        let mut draft = Draft::at(alloc, session, at);
        draft.phase = phase_heard(draft.phase, draft.latest);
        draft
    }

    /// An empty draft at this moment, with the client logged on.
    pub fn opened_at(
        alloc: Global,
        session: &Session,
        interval: u32,
        resets: bool,
        at: u64,
    ) -> Draft
        ensures made { (l : Logon) → l.interval ≡ interval → l.resets ≡ resets
            → made session.now.session result
            ≡ quiet (logged l (reset resets (heard (at_moment at session.now.session)))) }
        ensures expected { result.expected ≤ 10 ^ 18 }
    {
        let latest = session.latest().max(at);
        Draft {
            phase: Phase::LoggedOn(Logged {
                interval,
                heard: latest,
                written: latest,
                tested: false,
                asked: 0,
            }),
            expected: first_number(resets, session.next_in()),
            latest,
            resets,
            slots: KeptBodies::new(alloc),
            resends: None,
            outs: Vec::new(alloc),
        }
    }

    /// The number of the next frame or body.
    fn next_number(&self, session: &Session) -> u64
        ensures { result ≡ next_out (made session.now.session self.now).state }
    {
        let before = if self.resets { 0 } else { session.last() };
        before + self.slots.len() as u64 + 1
    }

    /// Adds a frame under the next number, whose body is kept.
    pub fn say_kept(
        &mut self,
        session: &Session,
        kind: Kind,
        body: Fields,
    ) -> Result<(), AllocError>
        ensures { OnOk result (made session.now.session self.new
            ≡ kept true kind body (made session.now.session self.old)) }
    {
        let number = self.next_number(session);
        self.slots.keep(kind, printed_fields(&body), self.latest)?;
        self.outs.push(Out::Write(Frame {
            number,
            kind,
            body,
            at: self.latest,
            first: None,
        }))?;
        self.mark_written();
        Ok(())
    }

    /// Adds a frame under the next number, which isn't kept.
    pub fn say(&mut self, session: &Session, kind: Kind, body: Fields) -> Result<(), AllocError>
        ensures { OnOk result (made session.now.session self.new
            ≡ said kind body (made session.now.session self.old)) }
    {
        let number = self.next_number(session);
        self.slots.fill()?;
        self.outs.push(Out::Write(Frame {
            number,
            kind,
            body,
            at: self.latest,
            first: None,
        }))?;
        self.mark_written();
        Ok(())
    }

    /// Closes the session's link.
    pub fn shut(&mut self, session: &Session) -> Result<(), AllocError>
        ensures { OnOk result (made session.now.session self.new
            ≡ perform (made session.now.session self.old) Shut) }
    {
        self.outs.push(Out::Close)?;
        self.phase = Phase::Down;
        Ok(())
    }

    /// Raises the expected number by 1.
    pub fn grow(&mut self, session: &Session)
        requires { self.old.expected < 2 ^ 61 }
        ensures { made session.now.session self.new ≡ perform (made session.now.session self.old) Grow }
    {
        self.expected += 1;
    }

    /// Sets the expected number.
    pub fn expect(&mut self, session: &Session, number: u64)
        ensures { made session.now.session self.new ≡ perform (made session.now.session self.old) (Expect number) }
    {
        self.expected = number;
    }

    /// Adds a Reject.
    pub fn reject(
        &mut self,
        alloc: Global,
        session: &Session,
        m: &Fields,
        tag: u32,
        reason: u8,
    ) -> Result<(), AllocError>
        ensures { OnOk result (made session.now.session self.new
            ≡ perform (made session.now.session self.old) (reject_act m.now tag reason)) }
    {
        let body = reject_body(alloc, m, tag, reason)?;
        self.say(session, Kind::Reject, body)
    }

    /// Adds a Logout with a reason, and closes the link.
    pub fn log_out(
        &mut self,
        alloc: Global,
        session: &Session,
        why: &[u8],
    ) -> Result<(), AllocError>
        requires { IsValue why.now }
        ensures { OnOk result (made session.now.session self.new
            ≡ fold perform (made session.now.session self.old) (log_out why.now)) }
    {
        let body = text_body(alloc, why)?;
        self.say(session, Kind::Logout, body)?;
        self.shut(session)
    }

    /// Adds a Logout without a reason, and closes the link.
    pub fn log_out_silently(&mut self, alloc: Global, session: &Session) -> Result<(), AllocError>
        ensures { OnOk result (made session.now.session self.new
            ≡ fold perform (made session.now.session self.old) log_out_silently) }
    {
        self.say(session, Kind::Logout, Fields::new(alloc))?;
        self.shut(session)
    }

    /// Adds a ResendRequest from the expected number on; this number caused it.
    pub fn ask_again(
        &mut self,
        alloc: Global,
        session: &Session,
        number: u64,
    ) -> Result<(), AllocError>
        ensures { OnOk result (made session.now.session self.new
            ≡ perform (made session.now.session self.old) (AskAgain number)) }
    {
        let body = ask_body(alloc, self.expected)?;
        self.say(session, Kind::ResendRequest, body)?;
        if let Phase::LoggedOn(on) = self.phase {
            self.phase = Phase::LoggedOn(Logged {
                asked: number,
                ..on
            });
        }
        Ok(())
    }

    /// Adds a TestRequest after silence.
    pub fn test(&mut self, alloc: Global, session: &Session) -> Result<(), AllocError>
        ensures { OnOk result (made session.now.session self.new
            ≡ perform (made session.now.session self.old) Test) }
    {
        let body = echo_body(alloc, b"TEST")?;
        self.say(session, Kind::TestRequest, body)?;
        if let Phase::LoggedOn(on) = self.phase {
            self.phase = Phase::LoggedOn(Logged { tested: true, ..on });
        }
        Ok(())
    }

    /// Sends numbers again, if nothing else is written yet. Takes no memory.
    pub fn send_again(&mut self, session: &Session, from: u64, to: u64)
        requires given { (made session.now.session self.old).state.given ≡ session.now.session.given }
        requires silent { (self.old.resends ≡ None) × (self.old.outs.items ≡ []) }
        requires from { 1 ≤ from }
        requires to { to ≤ length session.now.session.given }
        ensures { made session.now.session self.new
            ≡ sent_again (made session.now.session self.old) (Some (record { from = from; to = to })) }
    {
        self.resends = Some(Resend { from, to });
        self.phase = phase_resent(self.phase, self.latest, from, to);
    }

    /// Notes that a frame was written now.
    fn mark_written(&mut self)
        ensures phase { self.new.phase ≡ on_written self.old.latest self.old.phase }
        ensures kept { self.new ≡ record self.old { phase = self.new.phase } }
    {
        if let Phase::LoggedOn(on) = self.phase {
            self.phase = Phase::LoggedOn(Logged {
                written: self.latest,
                ..on
            });
        }
    }
}

/// The client's phase after a frame of it was received now.
pub fn phase_heard(phase: Phase, now: u64) -> Phase
    ensures { result ≡ on_heard now phase }
{
    match phase {
        Phase::LoggedOn(on) => Phase::LoggedOn(Logged {
            heard: now,
            tested: false,
            ..on
        }),
        other => other,
    }
}

/// The client's phase after numbers were sent again now, if there were any.
fn phase_resent(phase: Phase, now: u64, from: u64, to: u64) -> Phase
    ensures { result ≡ (if nat_le from to then on_written now phase else phase) }
{
    match phase {
        Phase::LoggedOn(on) if from <= to => Phase::LoggedOn(Logged { written: now, ..on }),
        other => other,
    }
}

/// The expected number: 1 if both numbers begin anew.
pub fn first_number(resets: bool, expected: u64) -> u64
    ensures { result ≡ (if resets then 1 else expected) }
{
    if resets { 1 } else { expected }
}
