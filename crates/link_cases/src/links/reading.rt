//! Streams that are read, and what a plain program makes of them.

use super::gate::Kept;
use super::plain_frames::read_frames;
use super::plain_packets::read_packets;
use super::recorded::Form;
use super::streams::Pieces;
use super::tally::Tally;
use gate_events::{ClientNumber, Event, PortNumber};
use link_decoders::Decoder;
use link_io::{ClientReader, LinkFault, PortReader, Progress, Reader};
use seeded_choices::Chance;
use std::alloc::{AllocError, Global};

/// The client's and the port's number, and the link's.
const NUMBER: u16 = 3;

const LINK: u64 = 7;

/// More steps than any stream takes.
const STEPS: u64 = 1_000_000;

/// Reads a stream in pieces by chance, through a gate that gives events back, and counts it: how many events came of
/// it, and whether they and the end are those of the plain program.
pub fn read_stream(
    alloc: Global,
    chance: &mut Chance,
    form: Form,
    stream: &[u8],
    tally: &mut Tally,
) -> Result<(), AllocError> {
    let mut input = Pieces {
        rest: stream,
        chance: chance.next(),
        most: size_of_pieces(chance),
    };
    let mut gate = Kept::new(alloc, chance.next(), chance.below(4).saturating_add(2));
    let fault = match form {
        Form::Frames => fault_of_frames(alloc, &mut input, &mut gate),
        Form::Packets => fault_of_packets(alloc, &mut input, &mut gate),
    };
    count_stream(alloc, form, stream, gate.events.as_slice(), fault, tally)
}

/// Reads a stream of frames, to its end or to a fault.
fn fault_of_frames(alloc: Global, input: &mut Pieces<'_>, gate: &mut Kept) -> Option<LinkFault> {
    let mut reader = ClientReader::new(alloc, ClientNumber::new(NUMBER), LINK, STEPS);
    read_all(alloc, &mut reader, input, gate)
}

/// Reads a stream of packets, to its end or to a fault.
fn fault_of_packets(alloc: Global, input: &mut Pieces<'_>, gate: &mut Kept) -> Option<LinkFault> {
    let mut reader = PortReader::new(alloc, PortNumber::new(NUMBER), LINK, STEPS);
    read_all(alloc, &mut reader, input, gate)
}

/// Counts a stream of which these events came before this fault.
fn count_stream(
    alloc: Global,
    form: Form,
    stream: &[u8],
    events: &[Event],
    fault: Option<LinkFault>,
    tally: &mut Tally,
) -> Result<(), AllocError> {
    let mut units = Vec::new(alloc);
    let is_malformed = match form {
        Form::Frames => read_frames(stream, &mut units)?,
        Form::Packets => read_packets(stream, &mut units)?,
    };
    let is_same = fault == end_of(is_malformed) && are_units(events, units.as_slice());
    tally.count(units.len(), is_malformed, is_same);
    Ok(())
}

/// The fault that a stream ends with.
fn end_of(is_malformed: bool) -> Option<LinkFault> {
    if is_malformed {
        Some(LinkFault::Malformed)
    } else {
        None
    }
}

/// Pieces of one byte, of few, or of as many as a read gives.
fn size_of_pieces(chance: &mut Chance) -> usize {
    match chance.below(4) {
        0 => 1,
        1 => 40,
        _ => 5_000,
    }
}

/// Steps a reader to the end of its stream, or to a fault. A step that memory ran out for is made again.
fn read_all<D: Decoder>(
    alloc: Global,
    reader: &mut Reader<D>,
    input: &mut Pieces<'_>,
    gate: &mut Kept,
) -> Option<LinkFault> {
    for at in 0..STEPS {
        match reader.step(alloc, input, gate, at) {
            Ok(Progress::Ended) => return None,
            Ok(_) => {}
            Err(LinkFault::NoMemory) => {}
            Err(fault) => return Some(fault),
        }
    }
    None
}

/// Whether the events are these units, in order, with moments that never go back.
fn are_units(events: &[Event], units: &[&[u8]]) -> bool {
    let mut last = 0;
    for (event, unit) in events.iter().zip(units) {
        match moment_of(event, unit) {
            Some(at) if at >= last => last = at,
            _ => return false,
        }
    }
    events.len() == units.len()
}

/// The moment of the event, where it is this unit's.
fn moment_of(event: &Event, unit: &[u8]) -> Option<u64> {
    match event {
        Event::ClientMessage {
            client,
            link,
            at,
            frame,
        } if client.number() == NUMBER && *link == LINK && frame.fields().text() == unit => {
            Some(*at)
        }
        Event::PortPacket {
            port,
            link,
            at,
            packet,
        } if port.number() == NUMBER
            && *link == LINK
            && is_packet(packet.kind, packet.payload.as_slice(), unit) => Some(*at),
        _ => None,
    }
}

/// Whether a packet's type and payload are this unit.
fn is_packet(kind: u8, payload: &[u8], unit: &[u8]) -> bool {
    match unit {
        [first, behind @ ..] => kind == *first && payload == behind,
        [] => false,
    }
}
