//! The market's end of a session.

ghost use Rattle.std.specs.Prelude.{◌≡◌, ◌≤◌, ◌<◌, ◌+◌, ◌-◌, ◌++◌, [], ◌∷◌, List, Option, IfOk, IfSome, OnErr, length};
ghost use Rattle.std.specs.Prelude.{map, drop};
ghost use Rattle.std.specs.Prelude.{vec_len, vec_capacity};
ghost use Rattle.ouch_codec.specs.declared.inbound.Inbound.{Inbound};
ghost use Rattle.market_book.specs.market_law.Machine as law;
ghost use Rattle.market_book.specs.market_law.Rows.{row};
ghost use Rattle.market_sim.specs.Outbound.{outbound_bytes};
ghost use Rattle.market_sim.specs.Sim as spec;
ghost use Rattle.market_sim.specs.Sim.{IsReadAs, IsStepOfSim, ReadsEvent};
ghost use Rattle.market_sim.specs.declared.event.SimEvent.TheVariants as events;

use crate::event::SimEvent;
use crate::link::SimLink;
use crate::numbers::number_asked;
use crate::packets::{SESSION, accepts_login, rejects_login, sequenced_packet, server_heartbeat};
use crate::reading::inbound_of;
use crate::saying::{LONGEST, payload_in};
use market_book::Book;
use market_law::{BookRow, Choice};
use ouch_codec::{Inbound, Outbound};
use soup_packets::{Packet, Payload};
use std::alloc::{AllocError, Global};
use std::marker::Model;

/// A market with one SoupBinTCP session, `SESSION001`, which serves one link after another.
///
/// Contracts see the book, every sequenced payload so far, and how the link stands.
#[derive(Drop)]
pub struct Sim {
    book: Book,
    /// The oldest first.
    kept: Vec<Payload>,
    link: SimLink,
}

impl Model for Sim {
    ghost use Rattle.market_sim.specs.Sim.{SimState};

    ghost Value = { SimState };

    ghost view = { λ s. record { book = s.book; kept = s.kept.items; link = s.link } };
}

/// Memory for one message that the market says: as it is kept, and as it goes out.
#[derive(Drop)]
struct Room {
    kept: Vec<u8>,
    sent: Vec<u8>,
    packets: Vec<Packet>,
    ghost kept_room: { (kept.items ≡ []) × (80 ≤ vec_capacity kept) },
    ghost sent_room: { (sent.items ≡ []) × (80 ≤ vec_capacity sent) },
    ghost packets_room: { (packets.items ≡ []) × (1 ≤ vec_capacity packets) },
}

impl Room {
    /// Three growths.
    fn new(alloc: Global) -> Result<Room, AllocError> {
        Ok(Room {
            kept: Vec::with_capacity(alloc, LONGEST)?,
            sent: Vec::with_capacity(alloc, LONGEST)?,
            packets: Vec::with_capacity(alloc, 1)?,
        })
    }
}

impl Sim {
    /// A market without orders, whose session has no message yet. Takes no memory.
    pub fn new(alloc: Global) -> Sim
        ensures { result ≡ spec.opening_sim }
    {
        Sim {
            book: Book::new(alloc),
            kept: Vec::new(alloc),
            link: SimLink::NoLink,
        }
    }

    /// The packets that go out for an event, in order. A packet that isn't the client's to send does nothing; a login
    /// that can't be served is answered by Login Rejected. `AllocError` leaves the market as it was.
    ///
    /// Source: SoupBinTCP 3.00, "Packets Sent by the Server"; OUCH 4.2, "Inbound Messages".
    pub fn step(&mut self, alloc: Global, event: SimEvent) -> Result<Vec<Packet>, AllocError>
        ensures step { IfOk result (λ packets. (read : Option Inbound) × ReadsEvent event read
            × IsStepOfSim (spec.sim_step self.old event read) self.new packets.items) }
        ensures err { OnErr result (self.new ≡ self.old) }
    {
        match event {
            SimEvent::Up => self.turn(alloc, SimLink::Connected),
            SimEvent::Packet(packet, choice) => self.packet(alloc, &packet, choice),
            SimEvent::Act(choice) => self.act(alloc, choice),
            SimEvent::Gone => self.turn(alloc, SimLink::NoLink),
        }
    }

    /// A payload that the book didn't make, of at most `Payload::MOST` bytes, is the next sequenced message: it is
    /// kept, and goes out where a login was accepted. `AllocError` leaves the market as it was.
    pub fn say(&mut self, alloc: Global, payload: &[u8]) -> Result<Vec<Packet>, AllocError>
        requires { length payload.now ≤ 65_534 }
        ensures step { IfOk result (λ packets.
            IsStepOfSim (spec.keeps_said self.old (payload.now ∷ [])) self.new packets.items) }
        ensures err { OnErr result (self.new ≡ self.old) }
    {
        let sent = Payload::of(alloc, payload)?;
        let packets = sent_on(self.link, sent, Vec::with_capacity(alloc, 1)?);
        self.kept.push(Payload::of(alloc, payload)?)?;
        Ok(packets)
    }

    /// What the book has of the order that goes by this token, or went by it before a replace: zeros and no side where
    /// there is none. Takes no memory.
    pub fn row(&self, token: &[u8; 14]) -> BookRow
        ensures { result ≡ row self.now.book.book token.now }
    {
        self.book.row(token)
    }

    /// The link stands so from now on.
    fn turn(&mut self, alloc: Global, link: SimLink) -> Result<Vec<Packet>, AllocError>
        ensures step { IfOk result (λ packets.
            IsStepOfSim (spec.sends_nothing (record self.old { link = link })) self.new packets.items) }
        ensures err { OnErr result (self.new ≡ self.old) }
    {
        self.link = link;
        Ok(Vec::new(alloc))
    }

    /// The link brought a packet.
    fn packet(
        &mut self,
        alloc: Global,
        packet: &Packet,
        choice: Choice,
    ) -> Result<Vec<Packet>, AllocError>
        ensures step { IfOk result (λ packets. (read : Option Inbound) × IsReadAs packet.now.payload read
            × IsStepOfSim (spec.on_packet self.old self.old.link packet.now read choice) self.new packets.items) }
        ensures err { OnErr result (self.new ≡ self.old) }
    {
        let payload = packet.payload.as_slice();
        let read = inbound_of(payload);
        match (self.link, packet.kind) {
            (SimLink::Connected, b'L') => self.log_on(alloc, payload),
            (SimLink::LoggedIn, b'U') => self.hear(alloc, read, choice),
            (SimLink::LoggedIn, b'R') => one(alloc, server_heartbeat(alloc)),
            (SimLink::LoggedIn, b'O') => self.turn(alloc, SimLink::NoLink),
            _ => Ok(Vec::new(alloc)),
        }
    }

    /// A login came.
    fn log_on(&mut self, alloc: Global, payload: &[u8]) -> Result<Vec<Packet>, AllocError>
        ensures step { IfOk result (λ packets. IsStepOfSim
            (spec.answers_login self.old
            (spec.login_number (length self.old.kept) payload.now)) self.new packets.items) }
        ensures err { OnErr result (self.new ≡ self.old) }
    {
        match login_number(self.kept.len(), payload) {
            None => one(alloc, rejects_login(alloc)?),
            Some(number) => {
                let packets = resent(alloc, number, self.kept.as_slice())?;
                self.link = SimLink::LoggedIn;
                Ok(packets)
            }
        }
    }

    /// A message came, or a payload that is none.
    fn hear(
        &mut self,
        alloc: Global,
        read: Option<Inbound>,
        choice: Choice,
    ) -> Result<Vec<Packet>, AllocError>
        ensures step { IfOk result (λ packets.
            IsStepOfSim (spec.hears self.old read choice) self.new packets.items) }
        ensures err { OnErr result (self.new ≡ self.old) }
    {
        let Some(message) = read else {
            return Ok(Vec::new(alloc));
        };
        let room = Room::new(alloc)?;
        self.kept.reserve(1)?;
        let says = self.book.inbound(alloc, &message, choice)?;
        Ok(keep(alloc, &mut self.kept, self.link, room, says.as_slice()))
    }

    /// The market does something by itself.
    fn act(&mut self, alloc: Global, choice: Choice) -> Result<Vec<Packet>, AllocError>
        ensures step { IfOk result (λ packets.
            IsStepOfSim (spec.booked self.old (law.act self.old.book choice)) self.new packets.items) }
        ensures err { OnErr result (self.new ≡ self.old) }
    {
        let room = Room::new(alloc)?;
        self.kept.reserve(1)?;
        let says = self.book.act(alloc, choice)?;
        Ok(keep(alloc, &mut self.kept, self.link, room, says.as_slice()))
    }
}

/// What the book says, at most one message, is kept, and goes out where a login was accepted. Takes no memory: there is
/// room for it.
fn keep(
    alloc: Global,
    kept: &mut Vec<Payload>,
    link: SimLink,
    room: Room,
    says: &[Outbound],
) -> Vec<Packet>
    requires room { vec_len kept.old < vec_capacity kept.old }
    requires few { length says.now ≤ 1 }
    ensures kept { kept.new.items ≡ kept.old.items ++ map outbound_bytes says.now }
    ensures sent { result.items ≡ spec.sent_on link (map outbound_bytes says.now) }
{
    match says {
        [message] => keep_one(kept, link, room, message),
        _ => Vec::new(alloc),
    }
}

/// A message is kept, and goes out where a login was accepted.
fn keep_one(kept: &mut Vec<Payload>, link: SimLink, room: Room, message: &Outbound) -> Vec<Packet>
    requires { vec_len kept.old < vec_capacity kept.old }
    ensures kept { kept.new.items ≡ kept.old.items ++ outbound_bytes message.now ∷ [] }
    ensures sent { result.items ≡ spec.sent_on link (outbound_bytes message.now ∷ []) }
{
    let Room {
        kept: buffer,
        sent,
        packets,
    } = room;
    let _ = kept.push(payload_in(buffer, message));
    sent_on(link, payload_in(sent, message), packets)
}

/// A sequenced packet, where a login was accepted, in a list that is empty and has room for it.
fn sent_on(link: SimLink, payload: Payload, packets: Vec<Packet>) -> Vec<Packet>
    requires empty { packets.items ≡ [] }
    requires room { 1 ≤ vec_capacity packets }
    ensures { result.items ≡ spec.sent_on link (payload ∷ []) }
{
    let mut packets = packets;
    if link == SimLink::LoggedIn {
        let _ = packets.push(sequenced_packet(payload));
    }
    packets
}

/// The number that a login asks from, where it can be served: its session is blank or this one, and the number 1 to the
/// next one.
fn login_number(count: usize, payload: &[u8]) -> Option<u64>
    ensures number { result ≡ spec.login_number count payload.now }
    ensures within { IfSome result (λ number. number ≤ count + 1) }
{
    if payload.len() != 46 {
        return None;
    }
    if !is_session_here(&payload[16..26]) {
        return None;
    }
    known_number(count, number_asked(&payload[26..]))
}

/// A number, where it is at most the one behind so many.
fn known_number(count: usize, number: Option<u64>) -> Option<u64>
    ensures number { result ≡ spec.known_number count number }
    ensures within { IfSome result (λ known. known ≤ count + 1) }
{
    match number {
        Some(number) if number.saturating_sub(1) <= count as u64 => Some(number),
        _ => None,
    }
}

/// Whether a session is blank, or this one.
fn is_session_here(session: &[u8]) -> bool
    ensures { result ≡ spec.is_session_here session.now }
{
    session == b"          ".as_slice() || session == SESSION.as_slice()
}

/// Login Accepted, and every message from a number on.
fn resent(alloc: Global, number: u64, kept: &[Payload]) -> Result<Vec<Packet>, AllocError>
    requires { number ≤ length kept.now + 1 }
    ensures { IfOk result (λ packets. packets.items
        ≡ spec.accepts_login number ∷ map spec.sequenced_packet (drop (number - 1) kept.now)) }
{
    let mut packets = Vec::new(alloc);
    packets.push(accepts_login(alloc, number)?)?;
    let (_, rest) = kept.split_at(number.saturating_sub(1) as usize);
    for payload in rest {
        packets.push(sequenced_packet(payload.copy(alloc)?))?;
    }
    Ok(packets)
}

/// One packet.
fn one(alloc: Global, packet: Packet) -> Result<Vec<Packet>, AllocError>
    ensures { IfOk result (λ packets. packets.items ≡ packet ∷ []) }
{
    let mut packets = Vec::new(alloc);
    packets.push(packet)?;
    Ok(packets)
}
