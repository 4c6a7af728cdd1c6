//! A client: a FIX session that enters orders.

use crate::fault::DemoFault;
use fix_framing::{Framer, frame_of_text};
use fix_stamp::stamp;
use std::alloc::Global;
use std::io::{Read, Write};
use std::time::Clock;

/// A client's end of a FIX session with the gateway `GATE`, over a stream.
#[derive(Drop)]
pub struct Client<'a, R, S> {
    rt: &'a R,
    alloc: Global,
    name: &'static str,
    /// MsgSeqNum (34) of the next message.
    next: u64,
    stream: S,
    framer: Framer,
}

impl<'a, R: Clock, S: Read + Write + Drop> Client<'a, R, S> {
    /// A client of this name that has said nothing yet. Takes no memory.
    pub fn new(rt: &'a R, alloc: Global, name: &'static str, stream: S) -> Client<'a, R, S> {
        Client {
            rt,
            alloc,
            name,
            next: 1,
            stream,
            framer: Framer::new(alloc),
        }
    }

    /// Logs on, and waits for the answer.
    pub fn log_on(&mut self) -> Result<(), DemoFault> {
        self.say("A", b"98=0\x01108=30\x01")?;
        self.wait_for(1, 35, b"A")
    }

    /// Logs on with numbers that begin again at 1, and waits for the answer.
    pub(crate) fn log_on_anew(&mut self) -> Result<(), DemoFault> {
        self.next = 1;
        self.say("A", b"98=0\x01108=30\x01141=Y\x01")?;
        self.wait_for(1, 35, b"A")
    }

    /// Logs out, and waits for the answer.
    pub fn log_out(&mut self) -> Result<(), DemoFault> {
        self.say("5", b"")?;
        self.wait_for(1, 35, b"5")
    }

    /// Enters its order of this number from 1, by ClOrdIDs (11) `A1`, `A2` and so on: it buys INTC for the day.
    pub fn enter(&mut self, number: u64) -> Result<(), DemoFault> {
        let mut body = Vec::new(self.alloc);
        push_order(&mut body, number, &self.now())?;
        self.say("D", body.as_slice())
    }

    /// Waits until so many orders are reported as filled.
    pub fn wait_for_fills(&mut self, count: u32) -> Result<(), DemoFault> {
        self.wait_for(count, 39, b"2")
    }

    /// Now, as UTCTimestamp; the first moment of 1970 where the system's can't be had.
    fn now(&self) -> [u8; 21] {
        match self.rt.since_1970() {
            Ok(since) => stamp(u64::try_from(since.as_millis()).unwrap_or(0)),
            Err(_) => stamp(0),
        }
    }

    /// Sends a message of this type with these fields behind its header.
    fn say(&mut self, kind: &str, body: &[u8]) -> Result<(), DemoFault> {
        let mut text = Vec::new(self.alloc);
        self.push_text(&mut text, kind, body)?;
        self.next = self.next.saturating_add(1);
        let message = frame_of_text(self.alloc, text.as_slice())?;
        self.stream.write_all(message.as_slice())?;
        Ok(())
    }

    /// Adds the text of the next message, with its header.
    fn push_text(&self, text: &mut Vec<u8>, kind: &str, body: &[u8]) -> Result<(), DemoFault> {
        let Client { name, next, .. } = self;
        write!(
            text,
            "35={kind}\x0134={next}\x0149={name}\x0156=GATE\x0152="
        )?;
        text.extend_from_slice(&self.now())?;
        text.extend_from_slice(b"\x01")?;
        text.extend_from_slice(body)?;
        Ok(())
    }

    /// Reads messages until so many had this value in this field.
    fn wait_for(&mut self, count: u32, tag: u32, value: &[u8]) -> Result<(), DemoFault> {
        let mut left = count;
        for _ in 0..u64::MAX {
            if left == 0 {
                return Ok(());
            }
            left = left.saturating_sub(self.read_some(tag, value)?);
        }
        Err(DemoFault::NotFinished)
    }

    /// Reads once, and tells how many of the messages that have come by that have this value in this field.
    fn read_some(&mut self, tag: u32, value: &[u8]) -> Result<u32, DemoFault> {
        let mut piece = [0u8; 4096];
        let read = self.stream.read(&mut piece)?;
        if read == 0 {
            return Err(DemoFault::NotFinished);
        }
        let Ok(messages) = self.framer.feed(self.alloc, &piece[..read]) else {
            return Err(DemoFault::NotFinished);
        };
        let mut found = 0u32;
        for fields in &messages {
            if fields.first(tag) == Some(value) {
                found = found.saturating_add(1);
            }
        }
        Ok(found)
    }
}

/// What a client buys as its order of this number: so many shares (38) at this limit (44).
fn terms_of(number: u64) -> (u32, &'static str) {
    match number % 3 {
        1 => (100, "10"),
        2 => (200, "10.5"),
        _ => (300, "11"),
    }
}

/// Adds the fields of the order of this number, entered at this moment.
fn push_order(body: &mut Vec<u8>, number: u64, at: &[u8; 21]) -> Result<(), DemoFault> {
    let (shares, limit) = terms_of(number);
    write!(
        body,
        "11=A{number}\x0121=1\x0138={shares}\x0140=2\x0144={limit}\x01"
    )?;
    body.extend_from_slice(b"54=1\x0155=INTC\x0159=0\x0160=")?;
    body.extend_from_slice(at)?;
    body.extend_from_slice(b"\x01")?;
    Ok(())
}
