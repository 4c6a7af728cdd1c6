//! A client's current link and session.

ghost use Rattle.std.specs.Prelude.{◌≡◌, ℕ, List, [], None, true, false};
ghost use Rattle.gate_law.specs.session_law.Runs.{Timed};
ghost use Rattle.gate_law.specs.Settings.{Settings, client_name};
ghost use Rattle.gate_sessions.specs.Leaving.{ClientLeaves, expected_in, is_client_due, logon_fault_in};
ghost use Rattle.gate_sessions.specs.Lines.{client_now, client_settled};

use fix_fields::{Fields, Text};
use fix_session::{IssuedTurn, LogonFault, Session, SessionTurn};
use fix_types::AppBody;
use std::alloc::{AllocError, Global};

/// A client's current link, if it has one, and its session over all its links.
pub struct ClientLine {
    pub link: Option<u64>,
    pub session: Session,
    /// The link when the line was settled, if anything came since.
    pub settled_link: Option<u64>,
    /// Whether anything came since the line was settled last.
    pub is_touched: bool,
}

// Not derived: then each way out drops it in one call (docs/DECISIONS.md, "Drops").
impl Drop for ClientLine {
    fn drop(self) {
        let ClientLine {
            link: _,
            session: _,
            settled_link: _,
            is_touched: _,
        } = self;
    }
}

impl ClientLine {
    /// A line with no link, of a session that has had no call.
    pub fn new(alloc: Global, gate: Text, client: Text) -> ClientLine
        ensures leaves { (s : Settings) (c : ℕ) → s.comp ≡ gate → client_name s c ≡ client
            → ClientLeaves s c [] result.session.session }
        ensures link { result.link ≡ None }
        ensures settled { client_settled result ≡ client_now result }
    {
        ClientLine {
            link: None,
            session: Session::new(alloc, gate, client),
            settled_link: None,
            is_touched: false,
        }
    }

    /// Puts it back to how it was when it was settled last.
    pub fn undo(&mut self)
        ensures now { client_now self.new ≡ client_settled self.old }
        ensures settled { client_settled self.new ≡ client_settled self.old }
    {
        if self.is_touched {
            self.link = self.settled_link;
            self.session.undo();
        }
    }

    /// Before anything comes: keeps what the line was, unless something came since it was settled.
    pub(crate) fn touch(&mut self)
        ensures session { self.new.session.session ≡ self.old.session.session }
        ensures link { self.new.link ≡ self.old.link }
        ensures settled { client_settled self.new ≡ client_settled self.old }
        ensures touched { self.new.is_touched ≡ true }
    {
        if !self.is_touched {
            self.settled_link = self.link;
            self.session.settle();
            self.is_touched = true;
        }
    }

    /// Whether a tick of this moment would produce output to the client's link. Takes no memory.
    pub fn is_due(&self, at: u64) -> bool
        ensures { (s : Settings) (c : ℕ) (calls : List Timed) → ClientLeaves s c calls self.now.session.session
            → result ≡ is_client_due s c calls at }
    {
        self.session.is_due(at)
    }

    /// Why a link's first frame is answered by nothing but the link's end. Takes no memory.
    pub fn logon_fault(&self, frame: &Fields) -> Option<LogonFault>
        ensures { (s : Settings) (c : ℕ) (calls : List Timed) → ClientLeaves s c calls self.now.session.session
            → result ≡ logon_fault_in s c calls frame.now }
    {
        self.session.logon_fault(frame)
    }

    /// The number that is expected of the client's next frame (MsgSeqNum, 34), from 1.
    ///
    /// Source: FIX 4.4 Volume 2, "Message Recovery".
    pub fn next_in(&self) -> u64
        ensures { (s : Settings) (c : ℕ) (calls : List Timed) → ClientLeaves s c calls self.now.session.session
            → result ≡ expected_in s c calls }
    {
        self.session.next_in()
    }
}
