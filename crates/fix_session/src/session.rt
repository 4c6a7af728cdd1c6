//! The session and its calls.

ghost use Rattle.std.specs.Prelude.{◌≡◌, ◌≤◌, ◌<◌, ◌+◌, ◌^◌, ◌∷◌, ◌++◌, [], List, map, ℕ, length, nat_le};
ghost use Rattle.std.specs.Prelude.{if◌then◌else◌, IfOk, OnErr, OnOk, Some, None, true, false, nat_lt};
ghost use Rattle.session_law.specs.Session.{on_written};
ghost use Rattle.session_law.specs.Table.{is_logged_on};

use crate::answer::answer;
use crate::draft::{Draft, Resend, phase_heard};
use crate::issues::kind_of;
use crate::judge::{judge, judge_logon};
use crate::logon::answer_logon;
use crate::logon_fault::{LogonFault, logon_fault};
use crate::ticks::{do_due, gives_anything};
use fix_fields::{Fields, Text};
use fix_types::AppBody;
use session_law::{IssuedReport, Kind, Logged, Phase};
use session_reading::due_at;
use session_writing::{
    BodyReport, Names, SessionOut, Stamped, UndoBodies, append_written, issued_frame,
    report_of_body,
};
use std::alloc::{AllocError, Global};
use std::marker::Model;

/// The gateway's end of a FIX session: numbers, what is kept for resends, and the state of its link.
///
/// After an error, which is always that memory ran out, the session is as it was. `settle` and `undo` put back calls
/// that succeeded: no call but these two changes how it was when it was settled.
pub struct Session {
    /// The names of the gateway and of the client, with their fields from the first issued body on.
    names: Names,
    phase: Phase,
    /// The number that is expected next: at most one above a number of 18 digits.
    expected: u64,
    /// What each number from 1 was given to: a body that is kept, or a frame that is gap filled; and how that was when
    /// it was settled last.
    given: UndoBodies,
    /// The session's time, which all that is written or kept bears: the latest moment of all calls. It never goes back.
    latest: u64,
    /// The moment of the last issued body, with its text. Contracts don't see it.
    stamped: Stamped,
    /// The rest of how it was when it was settled last.
    settled: Settled,
}

// Not derived: then each way out drops it in one call (docs/DECISIONS.md, "Drops").
impl Drop for Session {
    fn drop(self) {
        let Session {
            names: _,
            phase: _,
            expected: _,
            given: _,
            latest: _,
            stamped: _,
            settled: _,
        } = self;
    }
}

/// How a session was when it was settled, without its names, which never change, and what numbers were given to.
#[derive(Clone, Copy)]
struct Settled {
    phase: Phase,
    expected: u64,
    latest: u64,
}

impl Model for Session {
    ghost use Rattle.fix_session.specs.Held.{SessionHeld};
    ghost use Rattle.std.specs.Prelude.{◌≤◌, ◌^◌};

    ghost Value = { SessionHeld };

    ghost view = { λ s. record {
      session = record {
        gate = s.names.gate;
        client = s.names.client;
        phase = s.phase;
        expected = s.expected;
        given = s.given.given;
        latest = s.latest;
      };
      settled = record {
        gate = s.names.gate;
        client = s.names.client;
        phase = s.settled.phase;
        expected = s.settled.expected;
        given = s.given.settled;
        latest = s.settled.latest;
      };
    } };

    ghost invariant = { λ s. (s.expected ≤ 10 ^ 18) × (s.settled.expected ≤ 10 ^ 18) };
}

/// The result of a call.
#[derive(Drop)]
pub struct SessionTurn {
    /// The output to the link, in order.
    pub outs: Vec<SessionOut>,
    /// Whether the message is delivered to the application, which reads it by `application_of`.
    pub is_delivered: bool,
}

/// The result of issuing a body.
#[derive(Drop)]
pub struct IssuedTurn {
    /// The bytes of its frame, if the client is logged on.
    pub frame: Option<Vec<u8>>,
    /// The body as it was issued, written or not.
    pub report: IssuedReport,
}

impl Session {
    ghost use Rattle.session_law.specs.Session.{next_out, new_session, quiet, Given, fresh, answered, Grow, Deliver};
    ghost use Rattle.fix_fields.specs.Field.{Message};
    ghost use Rattle.session_law.specs.Runs.{SessionHistory, Leaves, turn_after, step, Call, OnLink, OnMessage, OnTick};
    ghost use Rattle.session_law.specs.Runs.{Issue, at_moment, heard, by_rows, issued_frame};
    ghost use Rattle.session_law.specs.Expected.{expected};
    ghost use Rattle.session_law.specs.Numbers.{SessionHeadline, given};
    ghost use Rattle.session_law.specs.Table.{acts, asked_number, logon_rows, logged_on_rows, message_number, resets};
    ghost use Rattle.fix_session.specs.Meets.{IsIssuedSo, Meets, Tells};
    ghost use Rattle.session_law.specs.Formats.{application_of, application_refusal};
    ghost use Rattle.fix_session.specs.Issues.{call_of_body, issued_kind};
    ghost use Rattle.session_writing.specs.Issued.{issued_body};
    ghost use Rattle.session_law.specs.Frames.{frame_fields};
    ghost use Rattle.session_writing.specs.fix_stamp.Stamp.{stamp_text};
    ghost use Rattle.fix_fields.specs.Field.{IsValue};
    ghost use Rattle.session_law.specs.Frames.{told_of_out};
    ghost use Rattle.session_writing.specs.Written.{told_bytes, told_frame};
    ghost use Rattle.fix_session.specs.Made.{made, resent_outs};
    ghost use Rattle.session_law.specs.Bounds.{MovesLittle};
    ghost use Rattle.fix_session.specs.LogonFaults as faults;

    /// A session of a client with the gateway, by their names: no link, and number 1 on both sides.
    #[tactic(auto, unfolding(session_law::specs::Runs::Leaves))]
    pub fn new(alloc: Global, gate: Text, client: Text) -> Session
        ensures leaves { Leaves gate client [] result.session }
        ensures settled { result.settled ≡ result.session }
    {
        Session {
            names: Names::new(gate, client),
            phase: Phase::Down,
            expected: 1,
            given: UndoBodies::new(alloc),
            latest: 0,
            stamped: Stamped::of(0),
            settled: Settled {
                phase: Phase::Down,
                expected: 1,
                latest: 0,
            },
        }
    }

    /// From now on it can be put back to how it is now. Takes no memory.
    pub fn settle(&mut self)
        ensures { self.new ≡ record self.old { settled = self.old.session } }
    {
        self.settled = Settled {
            phase: self.phase,
            expected: self.expected,
            latest: self.latest,
        };
        self.given.settle();
    }

    /// Puts it back to how it was when it was settled last, or at first. Takes no memory.
    pub fn undo(&mut self)
        ensures { self.new ≡ record self.old { session = self.old.settled } }
    {
        let Settled {
            phase,
            expected,
            latest,
        } = self.settled;
        self.phase = phase;
        self.expected = expected;
        self.latest = latest;
        self.given.undo();
    }

    /// Whether the client is logged on.
    pub fn is_logged_on(&self) -> bool
        ensures { result ≡ is_logged_on self.now.session.phase }
    {
        matches!(self.phase, Phase::LoggedOn(_))
    }

    /// The number of the next frame or issued body.
    pub fn next_out(&self) -> u64
        ensures now { result ≡ next_out self.now.session }
        ensures number { (gate client : List ℕ) (h : SessionHistory) → Leaves gate client h self.now.session
            → result ≡ length (given h) + 1 }
    {
        self.last() + 1
    }

    /// The number that is expected of the client.
    pub fn next_in(&self) -> u64
        ensures now { result ≡ self.now.session.expected }
        ensures number { (gate client : List ℕ) (h : SessionHistory) → Leaves gate client h self.now.session
            → result ≡ expected gate client h }
        ensures small { result ≤ 10 ^ 18 }
    {
        self.expected
    }

    /// Issues a body: it takes a number and is kept for resends, and is written if the client is logged on. Its text is
    /// made once, in the report: the frame and what is kept are copies of it.
    pub fn issue(
        &mut self,
        alloc: Global,
        body: &AppBody,
        at: u64,
    ) -> Result<IssuedTurn, AllocError>
        ensures frame { IfOk result (λ issued. told_frame issued.frame
            ≡ map (told_of_out self.old.session.gate self.old.session.client)
            (turn_after self.old.session at (call_of_body body.now)).outs) }
        ensures report { IfOk result (λ issued. issued.report
            ≡ frame_fields stamp_text self.old.session.gate self.old.session.client
            (issued_frame self.old.session at (issued_kind body.now) (issued_body body.now))) }
        ensures leaves { OnOk result ((gate client : List ℕ) (h : SessionHistory)
            → Leaves gate client h self.old.session
            → Leaves gate client (turn_after self.old.session at (call_of_body body.now) ∷ h) self.new.session) }
        ensures headline { OnOk result ((gate client : List ℕ) (h : SessionHistory)
            → Leaves gate client h self.old.session
            → SessionHeadline gate client (turn_after self.old.session at (call_of_body body.now) ∷ h)) }
        ensures numbers { OnOk result (MovesLittle 1 self.old.session self.new.session) }
        ensures settled { self.new.settled ≡ self.old.settled }
        ensures err { OnErr result (self.new ≡ self.old) }
    {
        self.issue_step(alloc, body, at)
    }

    /// A frame of the client.
    pub fn on_message(
        &mut self,
        alloc: Global,
        m: &Fields,
        at: u64,
    ) -> Result<SessionTurn, AllocError>
        ensures turn { IfOk result (λ turn. Tells self.old.session.gate self.old.session.client turn
            (turn_after self.old.session at (OnMessage m.now))) }
        ensures fits { IfOk result (λ turn. turn.is_delivered ≡ true → application_refusal m.now ≡ None) }
        ensures delivered { IfOk result (λ turn. turn.is_delivered ≡ true
            → (turn_after self.old.session at (OnMessage m.now)).app ≡ Some (application_of m.now)) }
        ensures leaves { OnOk result ((gate client : List ℕ) (h : SessionHistory)
            → Leaves gate client h self.old.session
            → Leaves gate client (turn_after self.old.session at (OnMessage m.now) ∷ h) self.new.session) }
        ensures headline { OnOk result ((gate client : List ℕ) (h : SessionHistory)
            → Leaves gate client h self.old.session
            → SessionHeadline gate client (turn_after self.old.session at (OnMessage m.now) ∷ h)) }
        ensures numbers { OnOk result (MovesLittle 2 self.old.session self.new.session) }
        ensures settled { self.new.settled ≡ self.old.settled }
        ensures err { OnErr result (self.new ≡ self.old) }
    {
        self.message_step(alloc, m, at)
    }

    /// Time passes.
    pub fn on_tick(&mut self, alloc: Global, at: u64) -> Result<SessionTurn, AllocError>
        ensures turn { IfOk result (λ turn. Tells self.old.session.gate self.old.session.client turn
            (turn_after self.old.session at OnTick)) }
        ensures leaves { OnOk result ((gate client : List ℕ) (h : SessionHistory)
            → Leaves gate client h self.old.session
            → Leaves gate client (turn_after self.old.session at OnTick ∷ h) self.new.session) }
        ensures headline { OnOk result ((gate client : List ℕ) (h : SessionHistory)
            → Leaves gate client h self.old.session
            → SessionHeadline gate client (turn_after self.old.session at OnTick ∷ h)) }
        ensures numbers { OnOk result (MovesLittle 1 self.old.session self.new.session) }
        ensures settled { self.new.settled ≡ self.old.settled }
        ensures err { OnErr result (self.new ≡ self.old) }
    {
        self.tick_step(alloc, at)
    }

    /// Whether anything is due at this moment: whether a tick would produce output to the link. One that doesn't
    /// changes no more than the session's latest moment. Takes no memory.
    pub fn is_due(&self, at: u64) -> bool
        ensures { result ≡ nat_lt 0 (length (step self.now.session at OnTick).outs) }
    {
        gives_anything(due_at(self.phase, self.latest.max(at)))
    }

    /// Why a link's first message is answered by nothing but the link's end; `None` of a Logon that is answered. Takes
    /// no memory.
    ///
    /// Source: FIX 4.4 Volume 2, "Logon".
    pub fn logon_fault(&self, m: &Fields) -> Option<LogonFault>
        ensures { result ≡ faults.logon_fault self.now.session m.now }
    {
        logon_fault(self, m)
    }

    /// The link came up, or went. It takes no memory.
    pub fn on_link(&mut self, alloc: Global, up: bool, at: u64) -> SessionTurn
        ensures turn { Tells self.old.session.gate self.old.session.client result
            (turn_after self.old.session at (OnLink up)) }
        ensures leaves { (gate client : List ℕ) (h : SessionHistory)
            → Leaves gate client h self.old.session
            → Leaves gate client (turn_after self.old.session at (OnLink up) ∷ h) self.new.session }
        ensures headline { (gate client : List ℕ) (h : SessionHistory)
            → Leaves gate client h self.old.session
            → SessionHeadline gate client (turn_after self.old.session at (OnLink up) ∷ h) }
        ensures numbers { MovesLittle 0 self.old.session self.new.session }
        ensures settled { self.new.settled ≡ self.old.settled }
    {
        self.link_step(alloc, up, at)
    }

    pub(crate) fn phase(&self) -> Phase
        ensures { result ≡ self.now.session.phase }
    {
        self.phase
    }

    pub(crate) fn latest(&self) -> u64
        ensures { result ≡ self.now.session.latest }
    {
        self.latest
    }

    /// Whether a ResendRequest waits for its numbers.
    pub(crate) fn is_waiting(&self) -> bool
        ensures { result ≡ nat_le self.now.session.expected (asked_number self.now.session.phase) }
    {
        match self.phase {
            Phase::LoggedOn(on) => self.expected <= on.asked,
            _ => self.expected == 0,
        }
    }

    pub(crate) fn gate(&self) -> &[u8]
        ensures text { result.now ≡ self.now.session.gate }
        ensures inside { IsValue result.now }
    {
        self.names.gate()
    }

    pub(crate) fn client(&self) -> &[u8]
        ensures text { result.now ≡ self.now.session.client }
        ensures inside { IsValue result.now }
    {
        self.names.client()
    }

    /// The last number that was given, 0 where none was.
    pub(crate) fn last(&self) -> u64
        ensures number { result ≡ length self.now.session.given }
        ensures room { result < 2 ^ 63 }
    {
        self.given.given().len() as u64
    }

    /// Issues a body: it takes a number and is kept, and is written if the client is logged on.
    fn issue_step(
        &mut self,
        alloc: Global,
        body: &AppBody,
        at: u64,
    ) -> Result<IssuedTurn, AllocError>
        ensures meets { IfOk result (λ issued. IsIssuedSo self.old.session
            (step self.old.session at (call_of_body body.now)) issued.frame self.new.session) }
        ensures report { IfOk result (λ issued. issued.report
            ≡ frame_fields stamp_text self.old.session.gate self.old.session.client
            (issued_frame self.old.session at (issued_kind body.now) (issued_body body.now))) }
        ensures settled { self.new.settled ≡ self.old.settled }
        ensures err { OnErr result (self.new ≡ self.old) }
    {
        let now = self.latest.max(at);
        let kind = kind_of(body);
        self.names.print(alloc)?;
        self.stamped.move_to(now);
        let made = self.next_report(alloc, kind, body, &self.stamped)?;
        let frame = issued_frame(alloc, self.phase, made.report())?;
        self.given.keep(kind, made.body(), now)?;
        self.latest = now;
        self.phase = phase_issued(self.phase, now);
        let report = made.into_report();
        Ok(IssuedTurn { frame, report })
    }

    /// The report of a body under the next number, at this moment.
    fn next_report(
        &self,
        alloc: Global,
        kind: Kind,
        body: &AppBody,
        moment: &Stamped,
    ) -> Result<BodyReport, AllocError>
        ensures report { IfOk result (λ made. made.report ≡ frame_fields stamp_text self.now.session.gate
            self.now.session.client (fresh (next_out self.now.session) kind (issued_body body.now) moment.now)) }
        ensures body { IfOk result (λ made. made.body ≡ issued_body body.now) }
    {
        report_of_body(alloc, &self.names, self.last() + 1, kind, moment, body)
    }

    /// A frame of the client. While it is judged, nothing changes; its answer is made in a draft, and then taken over
    /// whole.
    fn message_step(
        &mut self,
        alloc: Global,
        m: &Fields,
        at: u64,
    ) -> Result<SessionTurn, AllocError>
        ensures meets { IfOk result (λ turn. Meets self.old.session
            (step self.old.session at (OnMessage m.now)) turn self.new.session) }
        ensures fits { IfOk result (λ turn. turn.is_delivered ≡ true → application_refusal m.now ≡ None) }
        ensures delivered { IfOk result (λ turn. turn.is_delivered ≡ true
            → (step self.old.session at (OnMessage m.now)).app ≡ Some (application_of m.now)) }
        ensures settled { self.new.settled ≡ self.old.settled }
        ensures err { OnErr result (self.new ≡ self.old) }
    {
        match self.phase {
            Phase::Down => {
                let draft = Draft::heard_at(alloc, self, at);
                self.take(alloc, draft)
            }
            Phase::AwaitingLogon(_) => self.on_first(alloc, m, at),
            Phase::LoggedOn(_) => self.on_next(alloc, m, at),
        }
    }

    /// The first frame of a link.
    fn on_first(&mut self, alloc: Global, m: &Fields, at: u64) -> Result<SessionTurn, AllocError>
        requires expected { self.old.session.expected ≤ 10 ^ 18 }
        ensures meets { IfOk result (λ turn. Meets self.old.session (by_rows (heard (at_moment at self.old.session))
            (logon_rows self.old.session m.now (message_number m.now)
            (if resets m.now then 1 else self.old.session.expected))) turn self.new.session) }
        ensures undelivered { IfOk result (λ turn. turn.is_delivered ≡ false) }
        ensures settled { self.new.settled ≡ self.old.settled }
        ensures err { OnErr result (self.new ≡ self.old) }
    {
        let row = judge_logon(self, m);
        let draft = answer_logon(alloc, self, m, row, at)?;
        self.take(alloc, draft)
    }

    /// A frame of a client that is logged on.
    fn on_next(&mut self, alloc: Global, m: &Fields, at: u64) -> Result<SessionTurn, AllocError>
        requires expected { self.old.session.expected ≤ 10 ^ 18 }
        ensures meets { IfOk result (λ turn. Meets self.old.session (by_rows (heard (at_moment at self.old.session))
            (logged_on_rows self.old.session m.now (message_number m.now) self.old.session.expected))
            turn self.new.session) }
        ensures fits { IfOk result (λ turn. turn.is_delivered ≡ true → application_refusal m.now ≡ None) }
        ensures delivered { IfOk result (λ turn. turn.is_delivered ≡ true
            → (by_rows (heard (at_moment at self.old.session)) (logged_on_rows self.old.session m.now
            (message_number m.now) self.old.session.expected)).app ≡ Some (application_of m.now)) }
        ensures settled { self.new.settled ≡ self.old.settled }
        ensures err { OnErr result (self.new ≡ self.old) }
    {
        let row = judge(self, m);
        if row.is_delivery() {
            return Ok(self.deliver(alloc, at));
        }
        let mut draft = Draft::heard_at(alloc, self, at);
        answer(alloc, &mut draft, self, m, row)?;
        self.take(alloc, draft)
    }

    /// Delivers the message with the expected number: it counts as received, and the next number is expected. Takes no
    /// memory.
    fn deliver(&mut self, alloc: Global, at: u64) -> SessionTurn
        requires expected { self.old.session.expected < 10 ^ 18 }
        ensures meets { (m : Message) → Meets self.old.session (answered (heard (at_moment at self.old.session))
            (acts (Grow ∷ Deliver m ∷ []))) result self.new.session }
        ensures delivered { result.is_delivered ≡ true }
        ensures settled { self.new.settled ≡ self.old.settled }
    {
        self.latest = self.latest.max(at);
        self.phase = phase_heard(self.phase, self.latest);
        self.expected += 1;
        SessionTurn {
            outs: Vec::new(alloc),
            is_delivered: true,
        }
    }

    /// The link came up, or went.
    fn link_step(&mut self, alloc: Global, up: bool, at: u64) -> SessionTurn
        ensures meets { Meets self.old.session (step self.old.session at (OnLink up)) result self.new.session }
        ensures settled { self.new.settled ≡ self.old.settled }
    {
        self.latest = self.latest.max(at);
        self.phase = if up {
            Phase::AwaitingLogon(self.latest)
        } else {
            Phase::Down
        };
        SessionTurn {
            outs: Vec::new(alloc),
            is_delivered: false,
        }
    }

    /// Takes over what a draft has, all of it or nothing.
    fn take(&mut self, alloc: Global, draft: Draft) -> Result<SessionTurn, AllocError>
        requires expected { draft.expected ≤ 10 ^ 18 }
        ensures ok { IfOk result (λ turn. Meets self.old.session (made self.old.session draft) turn self.new.session) }
        ensures undelivered { IfOk result (λ turn. turn.is_delivered ≡ false) }
        ensures settled { self.new.settled ≡ self.old.settled }
        ensures err { OnErr result (self.new ≡ self.old) }
    {
        let outs = self.drafted_outs(alloc, &draft)?;
        let (resets, phase) = (draft.resets, draft.phase);
        let (expected, latest) = (draft.expected, draft.latest);
        self.given.give(alloc, resets, draft.into_slots())?;
        self.phase = phase;
        self.expected = expected;
        self.latest = latest;
        Ok(SessionTurn {
            outs,
            is_delivered: false,
        })
    }

    /// A draft's output, in bytes.
    fn drafted_outs(&self, alloc: Global, draft: &Draft) -> Result<Vec<SessionOut>, AllocError>
        ensures { IfOk result (λ outs. map told_bytes outs.items
            ≡ map (told_of_out self.now.session.gate self.now.session.client) (made self.now.session draft.now).outs) }
    {
        let mut outs = Vec::new(alloc);
        self.append_again(alloc, &mut outs, draft.resends, draft.latest)?;
        append_written(alloc, &mut outs, &self.names, draft.outs.as_slice())?;
        Ok(outs)
    }

    /// Appends the numbers that are sent again, if any are asked for.
    fn append_again(
        &self,
        alloc: Global,
        outs: &mut Vec<SessionOut>,
        resends: Option<Resend>,
        at: u64,
    ) -> Result<(), AllocError>
        ensures { OnOk result (map told_bytes outs.new.items ≡ map told_bytes outs.old.items
            ++ map (told_of_out self.now.session.gate self.now.session.client)
            (resent_outs at self.now.session.given resends)) }
    {
        match resends {
            None => Ok(()),
            Some(Resend { from, to }) => {
                let given = self.given.given();
                given.append_resend(alloc, outs, &self.names, from, to, at)
            }
        }
    }

    /// Time passes: silence of either side leads to what is due.
    fn tick_step(&mut self, alloc: Global, at: u64) -> Result<SessionTurn, AllocError>
        ensures meets { IfOk result (λ turn. Meets self.old.session (step self.old.session at OnTick) turn
            self.new.session) }
        ensures settled { self.new.settled ≡ self.old.settled }
        ensures err { OnErr result (self.new ≡ self.old) }
    {
        let mut draft = Draft::at(alloc, self, at);
        let due = due_at(self.phase, draft.latest);
        do_due(alloc, &mut draft, self, due)?;
        self.take(alloc, draft)
    }
}

/// The client's phase after a body was issued now: it was written if the client is logged on.
fn phase_issued(phase: Phase, now: u64) -> Phase
    ensures { result ≡ (if is_logged_on phase then on_written now phase else phase) }
{
    match phase {
        Phase::LoggedOn(on) => Phase::LoggedOn(Logged { written: now, ..on }),
        other => other,
    }
}
