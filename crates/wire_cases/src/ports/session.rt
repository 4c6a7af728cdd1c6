//! A port's session, and what it gives.

use super::packets::{copies_of, packet_of, show_packet};
use itoa::Buffer;
use soup_packets::{Packet, Payload};
use soup_session::{PortFault, PortOut, PortSession, PortState, PortTurn};
use std::alloc::{AllocError, Global};
use wire_bytes::number_of;
use wire_law::WholeWire;

/// A session, and the moment of its next call.
pub struct Stepped {
    session: PortSession,
    at: u64,
}

/// Written by hand, so that one call drops all.
impl Drop for Stepped {
    fn drop(self) {
        let Stepped { session: _, at: _ } = self;
    }
}

impl Stepped {
    /// A session of the user and password of all cases, of which no call was made, at moment 0.
    pub fn new() -> Stepped {
        Stepped {
            session: PortSession::new(b"USER01", b"PASSWORD"),
            at: 0,
        }
    }

    /// Makes a call, and shows what it gives and how the session stands then. False where it can't be made.
    pub fn step(
        &mut self,
        alloc: Global,
        call: &str,
        bytes: &[u8],
        shown: &mut Vec<u8>,
    ) -> Result<bool, AllocError> {
        match call {
            "at" => return Ok(self.is_at(bytes)),
            "each" => return self.hear_each(alloc, bytes, shown),
            _ => {}
        }
        if !self.call(alloc, call, bytes, shown)? {
            return Ok(false);
        }
        show_state(alloc, &self.session, shown)?;
        Ok(true)
    }

    /// The moment is this from now on; whether it is one.
    fn is_at(&mut self, digits: &[u8]) -> bool {
        match number_of(digits) {
            Some(moment) => {
                self.at = moment;
                true
            }
            None => false,
        }
    }

    /// Makes a call, and shows what it gives. False where it can't be made.
    fn call(
        &mut self,
        alloc: Global,
        call: &str,
        bytes: &[u8],
        shown: &mut Vec<u8>,
    ) -> Result<bool, AllocError> {
        let at = self.at;
        match call {
            "up" => show_turn(&self.session.on_up(alloc, at)?, b"", shown)?,
            "gone" => self.session.on_gone(),
            "tick" => show_turn(&self.session.on_tick(alloc, at), b"", shown)?,
            "hears" => match Packet::get(alloc, bytes)? {
                Some(packet) => return self.hear(&packet, shown),
                None => return Ok(false),
            },
            "sends" => return self.send(alloc, bytes, shown),
            "fails" => return self.fail(bytes, shown),
            "comes" => return self.hear_numbers(alloc, bytes, shown),
            _ => return Ok(false),
        }
        Ok(true)
    }

    /// What a packet that comes gives. A session that has no room for one number more can't hear it.
    fn turn_of(&mut self, packet: &Packet) -> Option<PortTurn> {
        if self.session.next() >= 1 << 60 {
            return None;
        }
        Some(self.session.on_packet(packet, self.at))
    }

    /// A packet comes.
    fn hear(&mut self, packet: &Packet, shown: &mut Vec<u8>) -> Result<bool, AllocError> {
        match self.turn_of(packet) {
            Some(turn) => {
                show_turn(&turn, packet.payload.as_slice(), shown)?;
                Ok(true)
            }
            None => Ok(false),
        }
    }

    /// A message goes out.
    fn send(
        &mut self,
        alloc: Global,
        message: &[u8],
        shown: &mut Vec<u8>,
    ) -> Result<bool, AllocError> {
        if !self.session.state().is_up() || message.len() > Payload::MOST {
            return Ok(false);
        }
        let turn = self.session.send(Payload::of(alloc, message)?, self.at);
        show_turn(&turn, b"", shown)?;
        Ok(true)
    }

    /// The last payload was at fault.
    fn fail(&mut self, number: &[u8], shown: &mut Vec<u8>) -> Result<bool, AllocError> {
        let fault = match number {
            b"1" => PortFault::StrangePacket,
            b"2" => PortFault::UnknownToken,
            b"3" => PortFault::NotLawful,
            b"4" => PortFault::OutsideProfile,
            _ => return Ok(false),
        };
        if !self.session.state().is_up() {
            return Ok(false);
        }
        show_turn(&self.session.fail(fault), b"", shown)?;
        Ok(true)
    }

    /// Sequenced packets of the numbers from one to another come: `FROM TO`. What is delivered of them is shown in one
    /// line.
    fn hear_numbers(
        &mut self,
        alloc: Global,
        numbers: &[u8],
        shown: &mut Vec<u8>,
    ) -> Result<bool, AllocError> {
        let Some((from, to)) = range_of(numbers) else {
            return Ok(false);
        };
        let mut given = Vec::from_slice(alloc, b"given")?;
        for number in from..=to {
            if !self.hear_number(alloc, number, &mut given, shown)? {
                return Ok(false);
            }
        }
        shown.extend_from_slice(given.as_slice())?;
        shown.push(b'\n')?;
        Ok(true)
    }

    /// The sequenced packet of a number comes, and its payload is put behind those that were delivered.
    fn hear_number(
        &mut self,
        alloc: Global,
        number: u64,
        given: &mut Vec<u8>,
        shown: &mut Vec<u8>,
    ) -> Result<bool, AllocError> {
        let mut digits = Buffer::new();
        match packet_of(alloc, b'S', digits.format(number).as_bytes())? {
            Some(packet) => self.hear_given(&packet, given, shown),
            None => Ok(false),
        }
    }

    /// The same of its packet.
    fn hear_given(
        &mut self,
        packet: &Packet,
        given: &mut Vec<u8>,
        shown: &mut Vec<u8>,
    ) -> Result<bool, AllocError> {
        match self.turn_of(packet) {
            Some(turn) => {
                show_out(&turn, shown)?;
                give(&turn, packet, given)?;
                Ok(true)
            }
            None => Ok(false),
        }
    }

    /// Packets of spaces of each type from one to another with each of some lengths: `A-B L L ..`. Each comes by
    /// itself, and is put back. Shows what they show, once where all show the same.
    fn hear_each(
        &mut self,
        alloc: Global,
        packets: &[u8],
        shown: &mut Vec<u8>,
    ) -> Result<bool, AllocError> {
        let [from, b'-', to, b' ', lengths @ ..] = packets else {
            return Ok(false);
        };
        let mut last = Vec::new(alloc);
        for kind in *from..=*to {
            if !self.hear_kind(alloc, kind, lengths, &mut last, shown)? {
                return Ok(false);
            }
        }
        Ok(true)
    }

    /// The same of one type, behind what the last one showed.
    fn hear_kind(
        &mut self,
        alloc: Global,
        kind: u8,
        lengths: &[u8],
        last: &mut Vec<u8>,
        shown: &mut Vec<u8>,
    ) -> Result<bool, AllocError> {
        for length in lengths.split(|byte| *byte == b' ') {
            let Some(length) = number_of(length) else {
                return Ok(false);
            };
            let one = self.shown_of_spaces(alloc, kind, length)?;
            if one.as_slice() != last.as_slice() {
                shown.extend_from_slice(one.as_slice())?;
                *last = one;
            }
        }
        Ok(true)
    }

    /// What a packet of so many spaces shows, which comes and is put back.
    fn shown_of_spaces(
        &mut self,
        alloc: Global,
        kind: u8,
        count: u64,
    ) -> Result<Vec<u8>, AllocError> {
        let mut shown = Vec::new(alloc);
        let spaces = copies_of(alloc, b' ', count.min(100))?;
        if let Some(packet) = packet_of(alloc, kind, spaces.as_slice())? {
            self.hear_in_vain(alloc, &packet, &mut shown)?;
        }
        Ok(shown)
    }

    /// A packet comes, how the session stands then is shown, and that is put back.
    fn hear_in_vain(
        &mut self,
        alloc: Global,
        packet: &Packet,
        shown: &mut Vec<u8>,
    ) -> Result<(), AllocError> {
        self.session.settle();
        self.hear(packet, shown)?;
        show_state(alloc, &self.session, shown)?;
        self.session.undo();
        Ok(())
    }
}

/// Two numbers, with a space between.
fn range_of(numbers: &[u8]) -> Option<(u64, u64)> {
    let at = numbers.iter().position(|byte| *byte == b' ')?;
    Some((number_of(&numbers[..at])?, number_of(&numbers[at + 1..])?))
}

/// Shows what goes out, and the payload of the packet that came, where it is delivered.
fn show_turn(turn: &PortTurn, payload: &[u8], shown: &mut Vec<u8>) -> Result<(), AllocError> {
    show_out(turn, shown)?;
    if turn.is_delivered {
        shown.extend_from_slice(b"given ")?;
        shown.extend_from_slice(payload)?;
        shown.push(b'\n')?;
    }
    Ok(())
}

/// Puts the payload that a packet's turn delivers behind those that were.
fn give(turn: &PortTurn, packet: &Packet, given: &mut Vec<u8>) -> Result<(), AllocError> {
    if !turn.is_delivered {
        return Ok(());
    }
    given.push(b' ')?;
    given.extend_from_slice(packet.payload.as_slice())
}

/// Shows what goes out.
fn show_out(turn: &PortTurn, shown: &mut Vec<u8>) -> Result<(), AllocError> {
    match &turn.out {
        Some(PortOut::Packet(packet)) => show_packet(packet, shown),
        Some(PortOut::Close) => shown.extend_from_slice(b"close\n"),
        None => Ok(()),
    }
}

/// Shows the session's state, the number that it wants next, and the session of its last login.
fn show_state(alloc: Global, session: &PortSession, shown: &mut Vec<u8>) -> Result<(), AllocError> {
    let (name, next) = (state_name(session.state()), session.next());
    shown.extend_from_slice(format!(in alloc; "{name}, wants {next} of [")?.as_bytes())?;
    shown.extend_from_slice(&session.session())?;
    shown.extend_from_slice(b"]\n")
}

fn state_name(state: PortState) -> &'static str {
    match state {
        PortState::Down => "down",
        PortState::LoggingIn => "logging in",
        PortState::Up => "up",
        PortState::Ended => "ended",
        PortState::Faulted(fault) => fault_name(fault),
    }
}

fn fault_name(fault: PortFault) -> &'static str {
    match fault.number() {
        1 => "fault 1",
        2 => "fault 2",
        3 => "fault 3",
        4 => "fault 4",
        5 => "fault 5",
        6 => "fault 6",
        _ => "another fault",
    }
}
