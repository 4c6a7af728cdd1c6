//! The session of a market port.

ghost use Rattle.std.specs.Prelude.{◌≡◌, ◌≤◌, ◌<◌, ◌+◌, ℕ, List, [], ◌∷◌, length, nat_lt, IfOk, OnErr};
ghost use Rattle.soup_packets.specs.declared.packet.Packet.{Packet};
ghost use Rattle.soup_session.specs.Table.{LoginTerms, PortCall, OnUp, OnPacket, OnGone, OnTick, Send, Fail, answer};
ghost use Rattle.soup_session.specs.Table.{standing, wanted};
ghost use Rattle.soup_session.specs.Calls.{CallsLeave, IsAnswer, DeliversEachOnce, PortHasRoom, IsUp, next_of};
ghost use Rattle.soup_session.specs.Calls.{DeliversOwn, EndsByClose};

use crate::machine::{Answered, Port, closes, on_gone, on_packet, on_tick, on_up, send};
use crate::port_fault::PortFault;
use crate::port_state::PortState;
use crate::port_turn::PortTurn;
use soup_packets::{Packet, Payload};
use std::alloc::{AllocError, Global};
use std::marker::Model;
use wire_law::padded;

/// The gateway's end of one port's session, over any links, one after another.
///
/// Contracts speak of all its calls: `Leaves terms calls session` says that these calls, the newest first, leave it
/// so. Then each call gives what the table has for it (`answers`), and the session is what the calls with this one
/// leave (`leaves`). Moments are in milliseconds and are handed in; one that goes back counts as no time passed.
/// Only `on_up` takes memory; where that ran out the session is as it was. `settle` and `undo` put calls back
/// that succeeded: how it was when it was settled is kept beside how it is, and no call but these two changes it.
pub struct PortSession {
    port: Port,
    /// How it was when it was settled last.
    settled: Port,
}

// Not derived: then each way out drops it in one call (docs/DECISIONS.md, "Drops").
impl Drop for PortSession {
    fn drop(self) {
        let PortSession {
            port: _,
            settled: _,
        } = self;
    }
}

impl Model for PortSession {
    ghost use Rattle.soup_session.specs.Calls.{PortHeld};

    ghost Value = { PortHeld };

    ghost view = { λ s. record { port = s.port; settled = s.settled } };
}

impl PortSession {
    /// A session that has made no call. A user of 1 to 6 bytes, a password of at most 10. Takes no memory.
    #[tactic(auto, unfolding(crate::specs::Calls::CallsLeave))]
    pub fn new(user: &[u8], password: &[u8]) -> PortSession
        requires user { (1 ≤ length user.now) × (length user.now ≤ 6) }
        requires password { length password.now ≤ 10 }
        ensures leaves { CallsLeave (record { user = user.now; password = password.now }) [] result.port }
        ensures next { next_of result.port ≡ 1 }
        ensures settled { result.settled ≡ result.port }
    {
        let port = Port {
            user: padded(user),
            password: padded(password),
            state: PortState::Down,
            session: [b' '; 10],
            next: 1,
            repeats: 0,
            now: 0,
            heard: 0,
            sent: 0,
        };
        PortSession {
            port,
            settled: port,
        }
    }

    /// It can be put back to how it is now. Takes no memory.
    pub fn settle(&mut self)
        ensures { self.new ≡ record self.old { settled = self.old.port } }
    {
        let port = self.port;
        self.settled = port;
    }

    /// It is as it was when it was settled last, before that as it was at first. Takes no memory.
    pub fn undo(&mut self)
        ensures { self.new ≡ record self.old { port = self.old.settled } }
    {
        let settled = self.settled;
        self.port = settled;
    }

    /// The memory is this one now.
    fn take(&mut self, answered: Answered) -> PortTurn
        ensures port { self.new ≡ record self.old { port = answered.port } }
        ensures out { result.out ≡ answered.out }
        ensures delivered { result.is_delivered ≡ answered.is_delivered }
    {
        let Answered {
            port,
            out,
            is_delivered,
        } = answered;
        self.port = port;
        PortTurn { out, is_delivered }
    }

    /// A link came up: Login Request, with the known session, blank at first, and the number of the next payload. Where
    /// the port isn't down the new link is closed, and nothing changes.
    ///
    /// Source: SoupBinTCP 3.00, "Login Request Packet".
    pub fn on_up(&mut self, alloc: Global, at: u64) -> Result<PortTurn, AllocError>
        ensures leaves { IfOk result (λ t. (terms : LoginTerms) (before : List PortCall)
            → CallsLeave terms before self.old.port
            → CallsLeave terms (OnUp at ∷ before) self.new.port) }
        ensures answers { IfOk result (λ t. (terms : LoginTerms) (before : List PortCall)
            → CallsLeave terms before self.old.port
            → IsAnswer (answer terms before (OnUp at)) t) }
        ensures next { next_of self.new.port ≡ next_of self.old.port }
        ensures settled { self.new.settled ≡ self.old.settled }
        ensures err { OnErr result (self.new ≡ self.old) }
    {
        let answered = on_up(alloc, self.port, at)?;
        Ok(self.take(answered))
    }

    /// A packet of the server on the port's link. Where there is no link it does nothing. Takes no memory.
    ///
    /// The payload of a sequenced packet which is the first of its number is delivered. A packet of another type,
    /// length or time is fault 1, a login that skips a number 5, one of another session 6: the link is closed, and the
    /// port stays faulted.
    ///
    /// Source: SoupBinTCP 3.00, "Packets Sent by the Server".
    pub fn on_packet(&mut self, packet: &Packet, at: u64) -> PortTurn
        requires room { PortHasRoom self.old.port }
        ensures leaves { (terms : LoginTerms) (before : List PortCall) → CallsLeave terms before self.old.port
            → CallsLeave terms (OnPacket packet.now at ∷ before) self.new.port }
        ensures answers { (terms : LoginTerms) (before : List PortCall) → CallsLeave terms before self.old.port
            → IsAnswer (answer terms before (OnPacket packet.now at)) result }
        ensures delivered { (terms : LoginTerms) (before : List PortCall) → CallsLeave terms before self.old.port
            → DeliversEachOnce terms (OnPacket packet.now at ∷ before) }
        ensures next { next_of self.new.port ≤ next_of self.old.port + 1 }
        ensures settled { self.new.settled ≡ self.old.settled }
    {
        let answered = on_packet(self.port, packet, at);
        self.take(answered)
    }

    /// The link is gone. An ended or faulted port stays so.
    pub fn on_gone(&mut self)
        ensures leaves { (terms : LoginTerms) (before : List PortCall) → CallsLeave terms before self.old.port
            → CallsLeave terms (OnGone ∷ before) self.new.port }
        ensures next { next_of self.new.port ≡ next_of self.old.port }
        ensures settled { self.new.settled ≡ self.old.settled }
    {
        let port = on_gone(self.port);
        self.port = port;
    }

    /// Time passed: a link that was silent for more than 15,000 ms is closed; a heartbeat is due where nothing was sent
    /// for more than 1,000 ms while up. Takes no memory.
    ///
    /// Source: SoupBinTCP 3.00, "Heartbeats".
    pub fn on_tick(&mut self, alloc: Global, at: u64) -> PortTurn
        ensures leaves { (terms : LoginTerms) (before : List PortCall) → CallsLeave terms before self.old.port
            → CallsLeave terms (OnTick at ∷ before) self.new.port }
        ensures answers { (terms : LoginTerms) (before : List PortCall) → CallsLeave terms before self.old.port
            → IsAnswer (answer terms before (OnTick at)) result }
        ensures next { next_of self.new.port ≡ next_of self.old.port }
        ensures settled { self.new.settled ≡ self.old.settled }
    {
        let answered = on_tick(alloc, self.port, at);
        self.take(answered)
    }

    /// Whether anything is due at this moment: whether a tick would give the link anything. One that gives it nothing
    /// changes no more than the session's latest moment. Takes no memory.
    ///
    /// Source: SoupBinTCP 3.00, "Heartbeats".
    pub fn is_due(&self, alloc: Global, at: u64) -> bool
        ensures { (terms : LoginTerms) (before : List PortCall) → CallsLeave terms before self.now.port
            → result ≡ nat_lt 0 (length (answer terms before (OnTick at)).outs) }
    {
        on_tick(alloc, self.port, at).out.is_some()
    }

    /// A message goes out while up, in the packet whose payload it is. Takes no memory.
    ///
    /// Source: SoupBinTCP 3.00, "Unsequenced Data Packet".
    pub fn send(&mut self, message: Payload, at: u64) -> PortTurn
        requires up { IsUp self.old.port }
        ensures leaves { (terms : LoginTerms) (before : List PortCall) → CallsLeave terms before self.old.port
            → CallsLeave terms (Send message at ∷ before) self.new.port }
        ensures answers { (terms : LoginTerms) (before : List PortCall) → CallsLeave terms before self.old.port
            → IsAnswer (answer terms before (Send message at)) result }
        ensures next { next_of self.new.port ≡ next_of self.old.port }
        ensures settled { self.new.settled ≡ self.old.settled }
        ensures up { IsUp self.new.port }
    {
        let answered = send(self.port, message, at);
        self.take(answered)
    }

    /// The payload that was delivered last is at fault at the order level: the link is closed, and the port stays
    /// faulted. Takes no memory.
    pub fn fail(&mut self, fault: PortFault) -> PortTurn
        requires up { IsUp self.old.port }
        ensures leaves { (terms : LoginTerms) (before : List PortCall) → CallsLeave terms before self.old.port
            → CallsLeave terms (Fail fault ∷ before) self.new.port }
        ensures answers { (terms : LoginTerms) (before : List PortCall) → CallsLeave terms before self.old.port
            → IsAnswer (answer terms before (Fail fault)) result }
        ensures next { next_of self.new.port ≡ next_of self.old.port }
        ensures settled { self.new.settled ≡ self.old.settled }
    {
        let answered = closes(self.port, PortState::Faulted(fault));
        self.take(answered)
    }

    /// How the port stands. Takes no memory.
    pub fn state(&self) -> PortState
        ensures now { result ≡ self.now.port.state }
        ensures state { (terms : LoginTerms) (before : List PortCall) → CallsLeave terms before self.now.port
            → result ≡ (standing terms before).state }
    {
        self.port.state
    }

    /// The number of the next payload that is wanted. Takes no memory.
    pub fn next(&self) -> u64
        ensures now { result ≡ next_of self.now.port }
        ensures next { (terms : LoginTerms) (before : List PortCall) → CallsLeave terms before self.now.port
            → result ≡ wanted (standing terms before) }
    {
        self.port.next
    }

    /// The session of the last login, ten spaces before the first. Takes no memory.
    pub fn session(&self) -> [u8; 10]
        ensures { (terms : LoginTerms) (before : List PortCall) → CallsLeave terms before self.now.port
            → result ≡ (standing terms before).session }
    {
        self.port.session
    }
}

/// A call on a link closes it just where the session has no link after it. It does nothing: its contract is the law.
pub fn links_end_by_a_close()
    ensures { (terms : LoginTerms) (before : List PortCall) (c : PortCall) → EndsByClose terms before c }
{}

/// What is delivered at a packet is the packet's payload. It does nothing: its contract is the law.
pub fn payloads_are_those_of_their_packets()
    ensures { (terms : LoginTerms) (before : List PortCall) (packet : Packet) (at : ℕ)
        → DeliversOwn terms before packet at }
{}
