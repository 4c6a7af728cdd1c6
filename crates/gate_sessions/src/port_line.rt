//! A port's current link and session.

ghost use Rattle.std.specs.Prelude.{◌≡◌, ◌≤◌, ℕ, List, [], length, None};
ghost use Rattle.gate_law.specs.soup_session.Table.{PortCall};
ghost use Rattle.gate_law.specs.soup_session.Calls.{next_of};
ghost use Rattle.gate_law.specs.Settings.{Settings, port_terms};
ghost use Rattle.gate_law.specs.Sessions.{port_state};
ghost use Rattle.gate_sessions.specs.Leaving.{PortLeaves, is_port_due};
ghost use Rattle.gate_sessions.specs.Lines.{port_now, port_settled};

use soup_packets::{Packet, Payload};
use soup_session::{PortFault, PortSession, PortState, PortTurn};
use std::alloc::{AllocError, Global};

/// A port's current link, if it has one, and its session over all its links.
pub struct PortLine {
    pub link: Option<u64>,
    pub session: PortSession,
    /// The link when the line was settled last.
    pub settled_link: Option<u64>,
}

// Not derived: then each way out drops it in one call (docs/DECISIONS.md, "Drops").
impl Drop for PortLine {
    fn drop(self) {
        let PortLine {
            link: _,
            session: _,
            settled_link: _,
        } = self;
    }
}

impl PortLine {
    /// A line with no link, of a session that has made no call.
    pub fn new(user: &[u8], password: &[u8]) -> PortLine
        requires user { (1 ≤ length user.now) × (length user.now ≤ 6) }
        requires password { length password.now ≤ 10 }
        ensures leaves { (s : Settings) (p : ℕ) → port_terms s p ≡ record { user = user.now; password = password.now }
            → PortLeaves s p [] result.session.port }
        ensures link { result.link ≡ None }
        ensures settled { port_settled result ≡ port_now result }
        ensures next { next_of result.session.port ≡ 1 }
    {
        PortLine {
            link: None,
            session: PortSession::new(user, password),
            settled_link: None,
        }
    }

    /// Whether a tick of this moment would produce output to the port's link. Takes no memory.
    pub fn is_due(&self, alloc: Global, at: u64) -> bool
        ensures { (s : Settings) (p : ℕ) (calls : List PortCall) → PortLeaves s p calls self.now.session.port
            → result ≡ is_port_due s p calls at }
    {
        self.session.is_due(alloc, at)
    }

    /// The state of the port.
    pub fn state(&self) -> PortState
        ensures now { result ≡ self.now.session.port.state }
        ensures state { (s : Settings) (p : ℕ) (calls : List PortCall) → PortLeaves s p calls self.now.session.port
            → result ≡ port_state s p calls }
    {
        self.session.state()
    }
}
