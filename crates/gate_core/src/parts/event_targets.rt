//! Whom an event may be for, by the parts.

ghost use Rattle.std.specs.Prelude.{◌≡◌};
ghost use Rattle.gate_law.specs.Settings.{Settings};
ghost use Rattle.gate_law.specs.Lists.{Lists};
ghost use Rattle.gate_events.specs.Seen.{event_seen};
ghost use Rattle.order_core.specs.order_machine.Runs.{NumbersLeft};
ghost use Rattle.gate_core.specs.State.{IsShaped, ArePartsOf};
ghost use Rattle.gate_core.specs.Targets.{client_for, clients_port, known_client, known_port, port_for};

use super::Parts;
use crate::targets::Targets;
use gate_events::{ClientNumber, Event, PortNumber};
use std::hash::BuildHasher;

impl<S: BuildHasher + Drop> Parts<S> {
    /// Whom the batch of an event may name.
    pub(crate) fn targets(&self, event: &Event) -> Targets
        requires shaped { IsShaped self.now }
        ensures client { (s : Settings) (v : Lists) → ArePartsOf s v self.now → NumbersLeft v.turns
            → result.client ≡ client_for s (event_seen event.now) v }
        ensures port { (s : Settings) (v : Lists) → ArePartsOf s v self.now
            → result.port ≡ port_for s (event_seen event.now) }
    {
        match event {
            Event::ClientUp { client, .. }
            | Event::ClientGone { client, .. }
            | Event::ClientTick { client, .. } => Targets {
                client: self.known_client(*client),
                port: None,
            },
            Event::ClientMessage { client, .. } => Targets {
                client: self.known_client(*client),
                port: self.clients_port(*client),
            },
            Event::PortUp { port, .. }
            | Event::PortGone { port, .. }
            | Event::PortTick { port, .. } => Targets {
                client: None,
                port: self.known_port(*port),
            },
            Event::PortPacket { port, packet, .. } => Targets {
                client: self
                    .orders
                    .client_of(port.number(), packet.payload.as_slice()),
                port: self.known_port(*port),
            },
        }
    }

    /// A client's number, where the settings have it.
    fn known_client(&self, client: ClientNumber) -> Option<u16>
        ensures { (s : Settings) (v : Lists) → ArePartsOf s v self.now → result ≡ known_client s client }
    {
        self.client_place(client)?;
        Some(client.number())
    }

    /// A port's number, where the settings have it.
    fn known_port(&self, port: PortNumber) -> Option<u16>
        ensures { (s : Settings) (v : Lists) → ArePartsOf s v self.now → result ≡ known_port s port }
    {
        self.port_place(port)?;
        Some(port.number())
    }

    /// The number of a client's port, where the settings have the client.
    fn clients_port(&self, client: ClientNumber) -> Option<u16>
        requires shaped { IsShaped self.now }
        ensures { (s : Settings) (v : Lists) → ArePartsOf s v self.now → result ≡ clients_port s client }
    {
        let place = self.client_place(client)?;
        Some((self.port_at(place) + 1) as u16)
    }
}
