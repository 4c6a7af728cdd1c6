//! The links that were up when a day stopped.

ghost use Rattle.std.specs.Prelude.{◌≡◌, OnOk};
ghost use Rattle.gate_journal.specs.declared.links.OpenLink.TheVariants as kinds;
ghost use Rattle.gate_journal.specs.Links as spec;
ghost use Rattle.gate_journal.specs.Links.{gone_at, open_after, with_link, without};

use gate_events::{ClientNumber, Event, PortNumber};
use std::alloc::AllocError;

/// A link that came up and hasn't gone.
#[derive(Clone, Copy, Debug, PartialEq, Eq)]
pub enum OpenLink {
    /// A client's.
    Client { client: ClientNumber, link: u64 },
    /// A port's.
    Port { port: PortNumber, link: u64 },
}

impl OpenLink {
    /// Whether it is this link. Takes no memory.
    pub fn is_same(&self, other: &OpenLink) -> bool
        ensures { result ≡ spec.is_same_link self.now other.now }
    {
        match self {
            OpenLink::Client { client, link } => other.is_client(*client, *link),
            OpenLink::Port { port, link } => other.is_port(*port, *link),
        }
    }

    /// Whether it is this link of a client.
    fn is_client(&self, number: ClientNumber, of: u64) -> bool
        ensures { result ≡ spec.is_same_link (kinds.Client number of) self.now }
    {
        match self {
            OpenLink::Client { client, link } => number.number() == client.number() && of == *link,
            OpenLink::Port { .. } => false,
        }
    }

    /// Whether it is this link of a port.
    fn is_port(&self, number: PortNumber, of: u64) -> bool
        ensures { result ≡ spec.is_same_link (kinds.Port number of) self.now }
    {
        match self {
            OpenLink::Client { .. } => false,
            OpenLink::Port { port, link } => number.number() == port.number() && of == *link,
        }
    }

    /// That it is gone, at a moment in milliseconds since 1970. Takes no memory.
    pub fn gone(&self, at: u64) -> Event
        ensures { result ≡ gone_at at self.now }
    {
        match self {
            OpenLink::Client { client, link } => Event::ClientGone {
                client: *client,
                link: *link,
                at,
            },
            OpenLink::Port { port, link } => Event::PortGone {
                port: *port,
                link: *link,
                at,
            },
        }
    }
}

/// The links that are up behind one event more: one that comes stands last. `AllocError` may leave out the one that
/// came.
pub fn follow(up: &mut Vec<OpenLink>, event: &Event) -> Result<(), AllocError>
    ensures { OnOk result (up.new.items ≡ open_after up.old.items event.now) }
{
    match event {
        Event::ClientUp { client, link, .. } => come(
            up,
            OpenLink::Client {
                client: *client,
                link: *link,
            },
        ),
        Event::ClientGone { client, link, .. } => {
            leave(
                up,
                &OpenLink::Client {
                    client: *client,
                    link: *link,
                },
            );
            Ok(())
        }
        Event::PortUp { port, link, .. } => come(
            up,
            OpenLink::Port {
                port: *port,
                link: *link,
            },
        ),
        Event::PortGone { port, link, .. } => {
            leave(
                up,
                &OpenLink::Port {
                    port: *port,
                    link: *link,
                },
            );
            Ok(())
        }
        Event::ClientMessage { .. }
        | Event::ClientTick { .. }
        | Event::PortPacket { .. }
        | Event::PortTick { .. } => Ok(()),
    }
}

/// A link comes up.
fn come(up: &mut Vec<OpenLink>, link: OpenLink) -> Result<(), AllocError>
    ensures { OnOk result (up.new.items ≡ with_link link up.old.items) }
{
    leave(up, &link);
    up.push(link)?;
    Ok(())
}

/// A link is gone.
fn leave(up: &mut Vec<OpenLink>, gone: &OpenLink)
    ensures { up.new.items ≡ without gone.now up.old.items }
{
    up.retain(|link| !gone.is_same(link));
}
