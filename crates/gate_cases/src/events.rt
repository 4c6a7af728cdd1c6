//! Events of clients and ports, by a word.

use case_lines::number_of;
use gate_events::{ClientFrame, ClientNumber, Event, PortNumber};
use random_world::frame_of;
use soup_packets::{Packet, Payload};
use std::alloc::{AllocError, Global};

/// The link on which an event comes, and its moment.
#[derive(Clone, Copy)]
pub struct Here {
    pub link: u64,
    pub at: u64,
}

/// The event of a word, of the client or port of a number: `client_up`, `gone`, `client` with the text of a message
/// from MsgType (35) on, `port_up`, `port_gone`, `port_packet` with its type and payload, `tick` of a port,
/// `client_tick`. `None` of anything else.
pub fn event_of(
    alloc: Global,
    word: &str,
    number: u16,
    here: Here,
    text: &[u8],
) -> Result<Option<Event>, AllocError> {
    let Some(client) = ClientNumber::of(number) else {
        return Ok(None);
    };
    match word {
        "client" => Ok(message_in(client, here, frame_of(alloc, text)?)),
        "port_packet" => Ok(packet_in(number, here, packet_of(alloc, text)?)),
        _ => Ok(told_of(word, client, number, here)),
    }
}

/// The event of a client's frame.
fn message_in(client: ClientNumber, here: Here, frame: Option<ClientFrame>) -> Option<Event> {
    let frame = frame?;
    let Here { link, at } = here;
    Some(Event::ClientMessage {
        client,
        link,
        at,
        frame,
    })
}

/// The event of a port's packet.
fn packet_in(number: u16, here: Here, packet: Option<Packet>) -> Option<Event> {
    let packet = packet?;
    let port = PortNumber::of(number)?;
    let Here { link, at } = here;
    Some(Event::PortPacket {
        port,
        link,
        at,
        packet,
    })
}

/// A packet of a type and a payload; `None` where there is no type, or the payload is too long.
fn packet_of(alloc: Global, text: &[u8]) -> Result<Option<Packet>, AllocError> {
    let [kind, payload @ ..] = text else {
        return Ok(None);
    };
    if payload.len() > Payload::MOST {
        return Ok(None);
    }
    Ok(Some(Packet {
        kind: *kind,
        payload: Payload::of(alloc, payload)?,
    }))
}

/// The event of a word that says no message and no packet.
fn told_of(word: &str, client: ClientNumber, number: u16, here: Here) -> Option<Event> {
    let port = PortNumber::of(number)?;
    let Here { link, at } = here;
    match word {
        "client_up" => Some(Event::ClientUp { client, link, at }),
        "gone" => Some(Event::ClientGone { client, link, at }),
        "port_up" => Some(Event::PortUp { port, link, at }),
        "port_gone" => Some(Event::PortGone { port, link, at }),
        "tick" => Some(Event::PortTick { port, at }),
        "client_tick" => Some(Event::ClientTick { client, at }),
        _ => None,
    }
}

/// A number of a client or a port.
pub fn small_number(digits: &str) -> Option<u16> {
    u16::try_from(number_of(digits)?).ok()
}
