//! Events of ports: links and ticks.

ghost use Rattle.std.specs.Prelude.{◌≡◌, ◌<◌, ◌+◌, ◌&&◌, length, true, is_some, IfOk, IfSome};
ghost use Rattle.soup_session.specs.States.{is_up};
ghost use Rattle.gate_law.specs.Settings.{Settings, has_port};
ghost use Rattle.gate_law.specs.Events.{PortUp, PortGone, PortTick, is_the_number};
ghost use Rattle.gate_law.specs.Lists.{Lists};
ghost use Rattle.gate_law.specs.Sessions.{port_state};
ghost use Rattle.gate_sessions.specs.Lines.{IsUpAt};
ghost use Rattle.gate_events.specs.Seen.{batch_seen};
ghost use Rattle.gate_core.specs.State.{ArePartsOf};
ghost use Rattle.gate_core.specs.Steps.{Grows, Ready, Stepped};
ghost use Rattle.gate_core.specs.Expected.{fault_now};

use super::port_packets::fault_of;
use super::{Parts, place_of};
use gate_events::{Batch, PortNumber, ShortList};
use gate_sessions::told_port;
use soup_session::{PortFault, PortState};
use std::alloc::{AllocError, Global};
use std::hash::BuildHasher;

impl<S: BuildHasher + Drop> Parts<S> {
    /// A port's link is up: it becomes the session's, which may close it at once; if another is current, the new one is
    /// closed.
    pub(crate) fn port_up(
        &mut self,
        alloc: Global,
        port: PortNumber,
        link: u64,
        at: u64,
    ) -> Result<Batch, AllocError>
        ensures step { IfOk result (λ b. (s : Settings) (v : Lists) → Ready s v self.old
            → Stepped s (PortUp port link at) (batch_seen b) v self.new) }
        ensures grows { Grows 0 0 self.old self.new }
    {
        let Some(place) = self.port_place(port) else {
            return Ok(Batch::empty(alloc));
        };
        match self.port_link(place) {
            None => {
                let turn = self.ports.up(alloc, place, link, at)?;
                let outs = told_port(&mut self.ports, alloc, place, turn.out, ShortList::new())?;
                Ok(Batch::for_port(alloc, port, outs, None))
            }
            Some(current) if current == link => Ok(Batch::empty(alloc)),
            Some(_) => Batch::refused_port(alloc, port, link),
        }
    }

    /// A port's current link is gone.
    pub(crate) fn port_gone(&mut self, alloc: Global, port: PortNumber, link: u64, at: u64) -> Batch
        ensures step { (s : Settings) (v : Lists) → Ready s v self.old
            → Stepped s (PortGone port link at) (batch_seen result) v self.new }
        ensures grows { Grows 0 0 self.old self.new }
    {
        let Some(place) = self.port_on(port, link) else {
            return Batch::empty(alloc);
        };
        self.ports.gone(place);
        Batch::empty(alloc)
    }

    /// Time passes for a port's session.
    pub(crate) fn port_tick(
        &mut self,
        alloc: Global,
        port: PortNumber,
        at: u64,
    ) -> Result<Batch, AllocError>
        ensures step { IfOk result (λ b. (s : Settings) (v : Lists) → Ready s v self.old
            → Stepped s (PortTick port at) (batch_seen b) v self.new) }
        ensures grows { Grows 0 0 self.old self.new }
    {
        let Some(place) = self.port_place(port) else {
            return Ok(Batch::empty(alloc));
        };
        let turn = self.ports.tick(alloc, place, at);
        let outs = told_port(&mut self.ports, alloc, place, turn.out, ShortList::new())?;
        Ok(Batch::for_port(alloc, port, outs, None))
    }

    /// The index of a port, if the settings have it.
    pub(crate) fn port_place(&self, port: PortNumber) -> Option<usize>
        ensures known { (s : Settings) (v : Lists) → ArePartsOf s v self.now → is_some result ≡ has_port s port }
        ensures place { IfSome result (λ place. (port ≡ place + 1) × (place < length self.now.ports.lines.items)) }
    {
        place_of(port.number(), self.ports.lines.len())
    }

    /// The current link of the port at an index.
    pub(crate) fn port_link(&self, place: usize) -> Option<u64>
        requires place { place < length self.now.ports.lines.items }
        ensures link { (s : Settings) (v : Lists) → ArePartsOf s v self.now → result ≡ v.port_link (place + 1) }
    {
        self.ports.lines[place].link
    }

    /// The state of the port at an index.
    pub(crate) fn port_state(&self, place: usize) -> PortState
        requires place { place < length self.now.ports.lines.items }
        ensures state { (s : Settings) (v : Lists) → ArePartsOf s v self.now
            → result ≡ port_state s (place + 1) (v.port_calls (place + 1)) }
        ensures up { is_up result ≡ true → IsUpAt place self.now.ports.lines.items }
    {
        self.ports.lines[place].state()
    }

    /// The fault of a port, if the settings have the port and it is faulted.
    pub(crate) fn port_fault(&self, port: u16) -> Option<PortFault>
        ensures { (s : Settings) (v : Lists) → ArePartsOf s v self.now
            → result ≡ fault_now s port (v.port_calls port) }
    {
        let place = self.port_place(PortNumber::of(port)?)?;
        fault_of(self.port_state(place))
    }

    /// The index of a port whose current link this is.
    pub(crate) fn port_on(&self, port: PortNumber, link: u64) -> Option<usize>
        ensures on { (s : Settings) (v : Lists) → ArePartsOf s v self.now
            → is_some result ≡ (has_port s port && is_the_number link (v.port_link port)) }
        ensures place { IfSome result (λ place. (port ≡ place + 1) × (place < length self.now.ports.lines.items)) }
    {
        let place = self.port_place(port)?;
        if self.port_link(place) == Some(link) {
            Some(place)
        } else {
            None
        }
    }
}
