//! Whether an event produces anything.

ghost use Rattle.std.specs.Prelude.{◌≡◌};
ghost use Rattle.gate_law.specs.Settings.{Settings};
ghost use Rattle.gate_law.specs.Lists.{Lists};
ghost use Rattle.gate_events.specs.Seen.{event_seen};
ghost use Rattle.gate_core.specs.State.{ArePartsOf};
ghost use Rattle.gate_core.specs.Expected.{client_due, event_due, port_due};

use super::Parts;
use gate_events::{ClientNumber, Event, PortNumber};
use std::alloc::Global;
use std::hash::BuildHasher;

impl<S: BuildHasher + Drop> Parts<S> {
    /// Whether an event produces anything, or may: `false` of a tick that produces nothing.
    pub(crate) fn is_due(&self, alloc: Global, event: &Event) -> bool
        ensures { (s : Settings) (v : Lists) → ArePartsOf s v self.now → result ≡ event_due s v (event_seen event.now) }
    {
        match event {
            Event::ClientTick { client, at } => self.is_client_due(*client, *at),
            Event::PortTick { port, at } => self.is_port_due(alloc, *port, *at),
            Event::ClientUp { .. }
            | Event::ClientMessage { .. }
            | Event::ClientGone { .. }
            | Event::PortUp { .. }
            | Event::PortPacket { .. }
            | Event::PortGone { .. } => true,
        }
    }

    /// Whether a tick of this moment produces output to a client's link.
    fn is_client_due(&self, client: ClientNumber, at: u64) -> bool
        ensures { (s : Settings) (v : Lists) → ArePartsOf s v self.now
            → result ≡ client_due s client (v.client_calls client) at }
    {
        match self.client_place(client) {
            Some(place) => self.clients.lines[place].is_due(at),
            None => false,
        }
    }

    /// Whether a tick of this moment produces output to a port's link.
    fn is_port_due(&self, alloc: Global, port: PortNumber, at: u64) -> bool
        ensures { (s : Settings) (v : Lists) → ArePartsOf s v self.now
            → result ≡ port_due s port (v.port_calls port) at }
    {
        match self.port_place(port) {
            Some(place) => self.ports.lines[place].is_due(alloc, at),
            None => false,
        }
    }
}
