//! Whom an event comes from, and whom a batch has output for.

ghost use Rattle.std.specs.Prelude.{◌≡◌, IfOk, map};
ghost use Rattle.gate_events.specs.Seen.{batch_seen, link_out_seen};
ghost use Rattle.gate_events.specs.Sources.{is_from, is_same_source, source_of, output_to};
ghost use Rattle.gate_events.specs.declared.source.Source.TheVariants as sources;

use crate::batch::{Batch, LinkOut};
use crate::client_frame::ClientFrame;
use crate::event::Event;
use crate::number::{ClientNumber, PortNumber};
use std::alloc::{AllocError, Global};

/// Whom an event comes from.
#[derive(Clone, Copy, Debug, PartialEq, Eq)]
pub enum Source {
    /// A client's link.
    Client(ClientNumber),
    /// A port's link.
    Port(PortNumber),
    /// The clock: every tick, be it of a client or of a port.
    Clock,
}

/// Whom a batch has output for.
#[derive(Clone, Copy, Debug, PartialEq, Eq)]
pub enum Recipient {
    /// A client's link.
    Client(ClientNumber),
    /// A port's link.
    Port(PortNumber),
}

impl Source {
    /// Whether it is this client. Takes no memory.
    pub fn is_client(&self, client: ClientNumber) -> bool
        ensures { result ≡ is_same_source (sources.Client client) self.now }
    {
        match self {
            Source::Client(own) => own.number() == client.number(),
            _ => false,
        }
    }

    /// Whether it is this port. Takes no memory.
    pub fn is_port(&self, port: PortNumber) -> bool
        ensures { result ≡ is_same_source (sources.Port port) self.now }
    {
        match self {
            Source::Port(own) => own.number() == port.number(),
            _ => false,
        }
    }

    /// Whether it is the clock. Takes no memory.
    pub fn is_clock(&self) -> bool
        ensures { result ≡ is_same_source sources.Clock self.now }
    {
        match self {
            Source::Clock => true,
            _ => false,
        }
    }
}

impl Event {
    /// Whom it comes from. Takes no memory.
    pub fn source(&self) -> Source
        ensures { result ≡ source_of self.now }
    {
        match self {
            Event::ClientUp { client, .. }
            | Event::ClientMessage { client, .. }
            | Event::ClientGone { client, .. } => Source::Client(*client),
            Event::PortUp { port, .. }
            | Event::PortPacket { port, .. }
            | Event::PortGone { port, .. } => Source::Port(*port),
            Event::ClientTick { .. } | Event::PortTick { .. } => Source::Clock,
        }
    }

    /// Whether it comes from there. Takes no memory.
    pub fn is_from(&self, source: &Source) -> bool
        ensures { result ≡ is_from source.now self.now }
    {
        match self {
            Event::ClientUp { client, .. }
            | Event::ClientMessage { client, .. }
            | Event::ClientGone { client, .. } => source.is_client(*client),
            Event::PortUp { port, .. }
            | Event::PortPacket { port, .. }
            | Event::PortGone { port, .. } => source.is_port(*port),
            Event::ClientTick { .. } | Event::PortTick { .. } => source.is_clock(),
        }
    }

    /// The same event once more.
    pub fn copied(&self, alloc: Global) -> Result<Event, AllocError>
        ensures { IfOk result (λ event. event ≡ self.now) }
    {
        Ok(match self {
            Event::ClientUp { client, link, at } => Event::ClientUp {
                client: *client,
                link: *link,
                at: *at,
            },
            Event::ClientMessage {
                client,
                link,
                at,
                frame,
            } => Event::ClientMessage {
                client: *client,
                link: *link,
                at: *at,
                frame: frame.copied(alloc)?,
            },
            Event::ClientGone { client, link, at } => Event::ClientGone {
                client: *client,
                link: *link,
                at: *at,
            },
            Event::ClientTick { client, at } => Event::ClientTick {
                client: *client,
                at: *at,
            },
            Event::PortUp { port, link, at } => Event::PortUp {
                port: *port,
                link: *link,
                at: *at,
            },
            Event::PortPacket {
                port,
                link,
                at,
                packet,
            } => Event::PortPacket {
                port: *port,
                link: *link,
                at: *at,
                packet: packet.copy(alloc)?,
            },
            Event::PortGone { port, link, at } => Event::PortGone {
                port: *port,
                link: *link,
                at: *at,
            },
            Event::PortTick { port, at } => Event::PortTick {
                port: *port,
                at: *at,
            },
        })
    }
}

impl ClientFrame {
    /// The same frame once more.
    pub fn copied(&self, alloc: Global) -> Result<ClientFrame, AllocError>
        ensures { IfOk result (λ frame. frame ≡ self.now) }
    {
        Ok(ClientFrame {
            fields: self.fields.copied(alloc)?,
        })
    }
}

impl Batch {
    /// The output to a client's or a port's link, in order; nothing where the batch doesn't name it. Takes no memory.
    pub fn output(&self, to: Recipient) -> &[LinkOut]
        ensures { map link_out_seen result.now ≡ output_to to (batch_seen self.now) }
    {
        match to {
            Recipient::Client(client) if self.names_client(client) => &self.client_out,
            Recipient::Port(port) if self.names_port(port) => &self.port_out,
            _ => &[],
        }
    }
}

impl LinkOut {
    /// The same once more.
    pub fn copied(&self, alloc: Global) -> Result<LinkOut, AllocError>
        ensures { IfOk result (λ out. link_out_seen out ≡ link_out_seen self.now) }
    {
        Ok(match self {
            LinkOut::Write { link, bytes } => LinkOut::Write {
                link: *link,
                bytes: Vec::from_slice(alloc, bytes.as_slice())?,
            },
            LinkOut::Close { link } => LinkOut::Close { link: *link },
        })
    }
}
