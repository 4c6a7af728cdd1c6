//! The events that a line is.

ghost use Rattle.std.specs.Prelude.{◌≡◌, ◌∷◌, [], IfOk, IsErrOf, map};
ghost use Rattle.gate_journal.specs.gate_law.Events as law;
ghost use Rattle.script_lines.specs.Names.{client_number, port_number};
ghost use Rattle.gate_events.specs.Seen.{event_seen};
ghost use Rattle.script_steps.specs.Events.{ClientGoes, PortGoes, IsNextClient, IsNextPort, ReadsFrames, ReadsPackets};
ghost use Rattle.script_steps.specs.Events.{IsOne, IsMessageEvent, HasFrames, HasPackets, client_link, port_link};
ghost use Rattle.script_steps.specs.Lines.{Becomes, MayStop, NoLinks};

use crate::frames::client_frame;
use crate::links::{ClientLink, PortLink};
use crate::packets::{end_of_session, login_accepted, sequenced};
use fix_fields::Fields;
use gate_core::{ClientFrame, ClientNumber, Core, Event, PortNumber};
use script_lines::{Client, Line, LineFault, Port};
use soup_packets::Packet;
use std::alloc::{AllocError, Global};
use std::hash::BuildHasher;

/// The moment of a script, and the last link of each client and port.
pub struct Links {
    /// The moment, in milliseconds since 1970.
    pub at: u64,
    /// By their numbers.
    pub clients: [ClientLink; 3],
    /// By their numbers.
    pub ports: [PortLink; 2],
}

// Not derived: then each way out drops it in one call (docs/DECISIONS.md, "Drops").
impl Drop for Links {
    fn drop(self) {
        let Links {
            at: _,
            clients: _,
            ports: _,
        } = self;
    }
}

impl Links {
    /// Moment 0, and no link yet. Takes no memory.
    pub fn new(alloc: Global) -> Links
        ensures { NoLinks result }
    {
        Links {
            at: 0,
            clients: [
                ClientLink::new(alloc),
                ClientLink::new(alloc),
                ClientLink::new(alloc),
            ],
            ports: [PortLink::new(alloc), PortLink::new(alloc)],
        }
    }

    /// The events that a line is at the present moment, for a core that is so.
    ///
    /// `NotUnderstood` where a client's message would be too long a frame, and where a reader of bytes says that it
    /// reads no more: of no other line.
    pub fn events_of<S: BuildHasher + Drop>(
        &mut self,
        alloc: Global,
        core: &Core<S>,
        line: Line,
    ) -> Result<Vec<Event>, LineFault>
        ensures events { IfOk result (λ events. Becomes core.now line self.old self.new events.items) }
        ensures stopped { IsErrOf result LineFault.NotUnderstood → MayStop line }
    {
        match line {
            Line::Empty => Ok(Vec::new(alloc)),
            Line::At(moment) => {
                self.at = moment;
                Ok(Vec::new(alloc))
            }
            Line::ClientUp(client) => Ok(self.client_up(alloc, client)?),
            Line::ClientGone(client) => Ok(self.client_gone(alloc, client)?),
            Line::ClientTick(client) => Ok(self.client_tick(alloc, client)?),
            Line::ClientMessage(client, fields) => {
                self.client_message(alloc, core, client, &fields)
            }
            Line::ClientBytes(client, bytes) => self.client_bytes(alloc, client, bytes.as_slice()),
            Line::PortUp(port) => Ok(self.port_up(alloc, port)?),
            Line::PortGone(port) => Ok(self.port_gone(alloc, port)?),
            Line::PortTick(port) => Ok(self.port_tick(alloc, port)?),
            Line::PortEnd(port) => Ok(self.port_packet(alloc, port, end_of_session(alloc))?),
            Line::PortLogin {
                port,
                session,
                number,
            } => {
                let packet = login_accepted(alloc, &session, &number)?;
                Ok(self.port_packet(alloc, port, packet)?)
            }
            Line::PortBytes(port, bytes) => self.port_bytes(alloc, port, bytes.as_slice()),
            Line::Market(port, message) => {
                let packet = sequenced(alloc, &message)?;
                Ok(self.port_packet(alloc, port, packet)?)
            }
        }
    }

    /// A client's next link is up.
    fn client_up(&mut self, alloc: Global, client: Client) -> Result<Vec<Event>, AllocError>
        ensures event { IfOk result (λ events. IsOne
            (law.ClientUp (client_number client) (client_link self.new.clients client) self.old.at) events.items) }
        ensures link { ClientGoes client IsNextClient self.old.clients self.new.clients }
        ensures ports { self.new.ports ≡ self.old.ports }
        ensures moment { self.new.at ≡ self.old.at }
    {
        let link = self.next_client(alloc, client);
        one(
            alloc,
            Event::ClientUp {
                client: ClientNumber::new(client.number()),
                link,
                at: self.at,
            },
        )
    }

    /// A client's next link, of which nothing was read: its number.
    fn next_client(&mut self, alloc: Global, client: Client) -> u64
        ensures number { result ≡ client_link self.new.clients client }
        ensures link { ClientGoes client IsNextClient self.old.clients self.new.clients }
        ensures ports { self.new.ports ≡ self.old.ports }
        ensures moment { self.new.at ≡ self.old.at }
    {
        let link = &mut self.clients[client.index()];
        link.next(alloc);
        link.number
    }

    /// A client's link is gone.
    fn client_gone(&self, alloc: Global, client: Client) -> Result<Vec<Event>, AllocError>
        ensures { IfOk result (λ events. IsOne (law.ClientGone (client_number client)
            (client_link self.now.clients client) self.now.at) events.items) }
    {
        one(
            alloc,
            Event::ClientGone {
                client: ClientNumber::new(client.number()),
                link: self.clients[client.index()].number,
                at: self.at,
            },
        )
    }

    /// Time passes for a client.
    fn client_tick(&self, alloc: Global, client: Client) -> Result<Vec<Event>, AllocError>
        ensures { IfOk result (λ events. IsOne (law.ClientTick (client_number client) self.now.at) events.items) }
    {
        one(
            alloc,
            Event::ClientTick {
                client: ClientNumber::new(client.number()),
                at: self.at,
            },
        )
    }

    /// A client's message: a frame of these fields, with the number that the core expects unless they have one.
    fn client_message<S: BuildHasher + Drop>(
        &self,
        alloc: Global,
        core: &Core<S>,
        client: Client,
        fields: &Fields,
    ) -> Result<Vec<Event>, LineFault>
        ensures { IfOk result (λ events. IsMessageEvent core.now client fields.now
            (client_link self.now.clients client) self.now.at events.items) }
    {
        let number = core.next_in(client.number()).unwrap_or(1);
        let frame = client_frame(alloc, client, fields, number, self.at)?;
        Ok(one(
            alloc,
            Event::ClientMessage {
                client: ClientNumber::new(client.number()),
                link: self.clients[client.index()].number,
                at: self.at,
                frame,
            },
        )?)
    }

    /// Bytes on a client's link: an event for each frame that is whole with them.
    fn client_bytes(
        &mut self,
        alloc: Global,
        client: Client,
        bytes: &[u8],
    ) -> Result<Vec<Event>, LineFault>
        ensures events { IfOk result
            (λ events. HasFrames client bytes.now self.old.at self.old.clients self.new.clients events.items) }
        ensures ports { self.new.ports ≡ self.old.ports }
        ensures moment { self.new.at ≡ self.old.at }
    {
        let frames = self.read_client(alloc, client, bytes)?;
        let link = self.clients[client.index()].number;
        frame_events(
            alloc,
            ClientNumber::new(client.number()),
            link,
            self.at,
            frames,
        )
    }

    /// The frames that are whole with these bytes on a client's link.
    fn read_client(
        &mut self,
        alloc: Global,
        client: Client,
        bytes: &[u8],
    ) -> Result<Vec<Fields>, LineFault>
        ensures link { IfOk result (λ frames. ClientGoes client
            (ReadsFrames bytes.now frames.items) self.old.clients self.new.clients) }
        ensures ports { self.new.ports ≡ self.old.ports }
        ensures moment { self.new.at ≡ self.old.at }
    {
        self.clients[client.index()].read(alloc, bytes)
    }

    /// A port's next link is up.
    fn port_up(&mut self, alloc: Global, port: Port) -> Result<Vec<Event>, AllocError>
        ensures event { IfOk result (λ events. IsOne
            (law.PortUp (port_number port) (port_link self.new.ports port) self.old.at) events.items) }
        ensures link { PortGoes port IsNextPort self.old.ports self.new.ports }
        ensures clients { self.new.clients ≡ self.old.clients }
        ensures moment { self.new.at ≡ self.old.at }
    {
        let link = &mut self.ports[port.index()];
        link.next(alloc);
        one(
            alloc,
            Event::PortUp {
                port: PortNumber::new(port.number()),
                link: link.number,
                at: self.at,
            },
        )
    }

    /// A port's link is gone.
    fn port_gone(&self, alloc: Global, port: Port) -> Result<Vec<Event>, AllocError>
        ensures { IfOk result (λ events. IsOne (law.PortGone (port_number port)
            (port_link self.now.ports port) self.now.at) events.items) }
    {
        one(
            alloc,
            Event::PortGone {
                port: PortNumber::new(port.number()),
                link: self.ports[port.index()].number,
                at: self.at,
            },
        )
    }

    /// Time passes for a port.
    fn port_tick(&self, alloc: Global, port: Port) -> Result<Vec<Event>, AllocError>
        ensures { IfOk result (λ events. IsOne (law.PortTick (port_number port) self.now.at) events.items) }
    {
        one(
            alloc,
            Event::PortTick {
                port: PortNumber::new(port.number()),
                at: self.at,
            },
        )
    }

    /// A packet on a port's link.
    fn port_packet(
        &self,
        alloc: Global,
        port: Port,
        packet: Packet,
    ) -> Result<Vec<Event>, AllocError>
        ensures { IfOk result (λ events. IsOne (law.PortPacket (port_number port)
            (port_link self.now.ports port) self.now.at packet) events.items) }
    {
        one(
            alloc,
            Event::PortPacket {
                port: PortNumber::new(port.number()),
                link: self.ports[port.index()].number,
                at: self.at,
                packet,
            },
        )
    }

    /// Bytes on a port's link: an event for each packet that is whole with them.
    fn port_bytes(
        &mut self,
        alloc: Global,
        port: Port,
        bytes: &[u8],
    ) -> Result<Vec<Event>, LineFault>
        ensures events { IfOk result
            (λ events. HasPackets port bytes.now self.old.at self.old.ports self.new.ports events.items) }
        ensures clients { self.new.clients ≡ self.old.clients }
        ensures moment { self.new.at ≡ self.old.at }
    {
        let packets = self.read_port(alloc, port, bytes)?;
        let link = self.ports[port.index()].number;
        Ok(packet_events(
            alloc,
            PortNumber::new(port.number()),
            link,
            self.at,
            packets,
        )?)
    }

    /// The packets that are whole with these bytes on a port's link.
    fn read_port(
        &mut self,
        alloc: Global,
        port: Port,
        bytes: &[u8],
    ) -> Result<Vec<Packet>, LineFault>
        ensures link { IfOk result (λ packets. PortGoes port
            (ReadsPackets bytes.now packets.items) self.old.ports self.new.ports) }
        ensures clients { self.new.clients ≡ self.old.clients }
        ensures moment { self.new.at ≡ self.old.at }
    {
        self.ports[port.index()].read(alloc, bytes)
    }
}

/// One event.
fn one(alloc: Global, event: Event) -> Result<Vec<Event>, AllocError>
    ensures { IfOk result (λ events. IsOne (event_seen event) events.items) }
{
    Ok(vec![in alloc; event]?)
}

/// An event for each frame on a client's link. `NotUnderstood` where one is too long: a reader of frames gives none.
fn frame_events(
    alloc: Global,
    client: ClientNumber,
    link: u64,
    at: u64,
    frames: Vec<Fields>,
) -> Result<Vec<Event>, LineFault>
    ensures { IfOk result (λ events. map event_seen events.items
        ≡ map (law.ClientMessage client link at) frames.items) }
{
    let mut events = Vec::with_capacity(alloc, frames.len())?;
    for fields in frames {
        let Some(frame) = ClientFrame::of(fields) else {
            return Err(LineFault::NotUnderstood);
        };
        events.push(Event::ClientMessage {
            client,
            link,
            at,
            frame,
        })?;
    }
    Ok(events)
}

/// An event for each packet on a port's link.
fn packet_events(
    alloc: Global,
    port: PortNumber,
    link: u64,
    at: u64,
    packets: Vec<Packet>,
) -> Result<Vec<Event>, AllocError>
    ensures { IfOk result (λ events. map event_seen events.items ≡ map (law.PortPacket port link at) packets.items) }
{
    let mut events = Vec::with_capacity(alloc, packets.len())?;
    for packet in packets {
        events.push(Event::PortPacket {
            port,
            link,
            at,
            packet,
        })?;
    }
    Ok(events)
}
