//! All clients' links and sessions, and the calls on the one at an index.

ghost use Rattle.std.specs.Prelude.{◌≡◌, ◌<◌, ◌+◌, ℕ, List, [], ◌∷◌, Some, None, IfOk, OnOk, OnErr, length, map, true};
ghost use Rattle.std.specs.Prelude.{false};
ghost use Rattle.gate_law.specs.session_law.Runs.{Timed, OnLink, OnMessage, OnTick};
ghost use Rattle.gate_law.specs.session_law.Frames.{told_of_out};
ghost use Rattle.fix_session.specs.session_writing.Written.{told_frame};
ghost use Rattle.gate_law.specs.session_law.Formats.{application_refusal};
ghost use Rattle.gate_law.specs.Settings.{Settings, client_name};
ghost use Rattle.gate_law.specs.Sessions.{client_answer, report_issued};
ghost use Rattle.gate_sessions.specs.Leaving.{issue_call};
ghost use Rattle.gate_sessions.specs.Lines.{ClientsCalled, ClientsUncalled, ClientAnswers, ClientDelivers};
ghost use Rattle.gate_sessions.specs.Lines.{ClientsLinked};
ghost use Rattle.gate_sessions.specs.Lines.{ClientsStayLinked, ClientsStaySettled, ClientsLeave, client_now};
ghost use Rattle.gate_sessions.specs.Lines.{client_settled};

use crate::client_line::ClientLine;
use fix_fields::Fields;
use fix_session::{IssuedTurn, SessionTurn};
use fix_types::AppBody;
use std::alloc::{AllocError, Global};

/// The link and session of each client, by its index: number i + 1 stands at index i.
#[derive(Drop)]
pub struct Clients {
    pub lines: Vec<ClientLine>,
}

impl Clients {
    /// A link becomes current.
    pub fn up(&mut self, alloc: Global, place: usize, link: u64, at: u64)
        requires place { place < length self.old.lines.items }
        ensures leave { ClientsCalled place (at, OnLink true) self.old self.new }
        ensures links { ClientsLinked place (Some link) self.old self.new }
        ensures settled { ClientsStaySettled self.old self.new }
        ensures length { length self.new.lines.items ≡ length self.old.lines.items }
    {
        let line = &mut self.lines[place];
        line.touch();
        line.link = Some(link);
        let _turn = line.session.on_link(alloc, true, at);
    }

    /// The current link is gone.
    pub fn gone(&mut self, alloc: Global, place: usize, at: u64)
        requires place { place < length self.old.lines.items }
        ensures leave { ClientsCalled place (at, OnLink false) self.old self.new }
        ensures links { ClientsLinked place None self.old self.new }
        ensures settled { ClientsStaySettled self.old self.new }
        ensures length { length self.new.lines.items ≡ length self.old.lines.items }
    {
        let line = &mut self.lines[place];
        line.touch();
        line.link = None;
        let _turn = line.session.on_link(alloc, false, at);
    }

    /// The core closed the current link.
    pub fn close(&mut self, place: usize)
        requires place { place < length self.old.lines.items }
        ensures leave { ClientsUncalled self.old self.new }
        ensures links { ClientsLinked place None self.old self.new }
        ensures settled { ClientsStaySettled self.old self.new }
        ensures length { length self.new.lines.items ≡ length self.old.lines.items }
    {
        let line = &mut self.lines[place];
        line.touch();
        line.link = None;
    }

    /// A frame on the current link.
    pub fn frame(
        &mut self,
        alloc: Global,
        place: usize,
        frame: &Fields,
        at: u64,
    ) -> Result<SessionTurn, AllocError>
        requires place { place < length self.old.lines.items }
        ensures leave { OnOk result (ClientsCalled place (at, OnMessage frame.now) self.old self.new) }
        ensures answers { IfOk result (λ turn. ClientAnswers place (at, OnMessage frame.now) self.old turn) }
        ensures fits { IfOk result (λ turn. turn.is_delivered ≡ true → application_refusal frame.now ≡ None) }
        ensures delivered { IfOk result (λ turn. ClientDelivers place at frame.now self.old turn) }
        ensures links { ClientsStayLinked self.old self.new }
        ensures settled { ClientsStaySettled self.old self.new }
        ensures length { length self.new.lines.items ≡ length self.old.lines.items }
        ensures err { OnErr result (map client_now self.new.lines.items ≡ map client_now self.old.lines.items) }
    {
        let line = &mut self.lines[place];
        line.touch();
        line.session.on_message(alloc, frame, at)
    }

    /// Time passes.
    pub fn tick(&mut self, alloc: Global, place: usize, at: u64) -> Result<SessionTurn, AllocError>
        requires place { place < length self.old.lines.items }
        ensures leave { OnOk result (ClientsCalled place (at, OnTick) self.old self.new) }
        ensures answers { IfOk result (λ turn. ClientAnswers place (at, OnTick) self.old turn) }
        ensures links { ClientsStayLinked self.old self.new }
        ensures settled { ClientsStaySettled self.old self.new }
        ensures length { length self.new.lines.items ≡ length self.old.lines.items }
        ensures err { OnErr result (map client_now self.new.lines.items ≡ map client_now self.old.lines.items) }
    {
        let line = &mut self.lines[place];
        line.touch();
        line.session.on_tick(alloc, at)
    }

    /// Issues a body: written, or kept alone.
    pub fn issue(
        &mut self,
        alloc: Global,
        place: usize,
        body: &AppBody,
        at: u64,
    ) -> Result<IssuedTurn, AllocError>
        requires place { place < length self.old.lines.items }
        ensures leave { OnOk result (ClientsCalled place (issue_call at body.now) self.old self.new) }
        ensures answers { IfOk result (λ issued. (s : Settings) (calls : ℕ → List Timed)
            → ClientsLeave s calls self.old.lines.items
            → told_frame issued.frame ≡ map (told_of_out s.comp (client_name s (place + 1)))
            (client_answer s (place + 1) (calls (place + 1)) (issue_call at body.now)).outs) }
        ensures report { IfOk result (λ issued. (s : Settings) (calls : ℕ → List Timed)
            → ClientsLeave s calls self.old.lines.items
            → report_issued s (place + 1) (calls (place + 1)) (issue_call at body.now) ≡ issued.report ∷ []) }
        ensures links { ClientsStayLinked self.old self.new }
        ensures settled { ClientsStaySettled self.old self.new }
        ensures length { length self.new.lines.items ≡ length self.old.lines.items }
        ensures err { OnErr result (map client_now self.new.lines.items ≡ map client_now self.old.lines.items) }
    {
        let line = &mut self.lines[place];
        line.touch();
        line.session.issue(alloc, body, at)
    }

    /// From now on each line can be put back to how it is now. Takes no memory.
    pub fn settle(&mut self)
        ensures now { map client_now self.new.lines.items ≡ map client_now self.old.lines.items }
        ensures settled { map client_settled self.new.lines.items ≡ map client_now self.old.lines.items }
    {
        for line in self.lines.iter_mut() {
            line.is_touched = false;
        }
    }

    /// Puts each line back to how it was when it was settled last. Takes no memory.
    pub fn undo(&mut self)
        ensures now { map client_now self.new.lines.items ≡ map client_settled self.old.lines.items }
        ensures settled { map client_settled self.new.lines.items ≡ map client_settled self.old.lines.items }
    {
        for line in self.lines.iter_mut() {
            line.undo();
        }
    }
}
