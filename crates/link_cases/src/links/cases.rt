//! The lines of the cases, one after another.

use super::endless::read_endless;
use super::reading::read_stream;
use super::recorded::{Form, stream_of};
use super::stepping::Stepped;
use super::tally::Tally;
use super::writing::write_lists;
use case_lines::Lines;
use script_lines::{Line, LineFault, line_of};
use seeded_choices::Chance;
use std::alloc::{AllocError, Global};
use std::io;

/// What a seed makes.
#[derive(Clone, Copy)]
enum Making {
    /// Streams that are read.
    Streams(Form),
    /// Lists that are written.
    Lists,
}

/// What was recorded so far, bodies of frames, and type and payload of packets; and the link that is stepped.
pub struct Links {
    bodies: Vec<Vec<u8>>,
    packets: Vec<Vec<u8>>,
    stepped: Stepped,
}

/// Written by hand, so that one call drops all.
impl Drop for Links {
    fn drop(self) {
        let Links {
            bodies: _,
            packets: _,
            stepped: _,
        } = self;
    }
}

impl Lines for Links {
    fn take(&mut self, alloc: Global, line: &str, shown: &mut Vec<u8>) -> io::Result<()> {
        let text = line.as_bytes();
        if !self.stepped.does(alloc, text, shown)? && !self.does(alloc, text, shown)? {
            note(text, shown)?;
        }
        Ok(())
    }
}

impl Links {
    /// Nothing was recorded.
    pub fn new(alloc: Global) -> Links {
        Links {
            bodies: Vec::new(alloc),
            packets: Vec::new(alloc),
            stepped: Stepped::new(alloc, 1),
        }
    }

    /// Does what a line says; false where it isn't understood.
    fn does(
        &mut self,
        alloc: Global,
        text: &[u8],
        shown: &mut Vec<u8>,
    ) -> Result<bool, AllocError> {
        if let Some(steps) = steps_of(text) {
            show_line(text, shown)?;
            read_endless(alloc, steps).show(shown)?;
            return Ok(true);
        }
        match making_of(text) {
            Some((making, seed, count)) => {
                let tally = self.make(alloc, making, seed, count)?;
                show_line(text, shown)?;
                tally.show(shown)?;
                Ok(true)
            }
            None => self.record(alloc, text),
        }
    }

    /// Records a client's frame by its body, or a port's packet; whether the line is one.
    fn record(&mut self, alloc: Global, text: &[u8]) -> Result<bool, AllocError> {
        match line_of(alloc, text) {
            Ok(line) => self.record_line(alloc, &line),
            Err(LineFault::NoMemory) => Err(AllocError),
            Err(LineFault::NotUnderstood) => Ok(false),
        }
    }

    fn record_line(&mut self, alloc: Global, line: &Line) -> Result<bool, AllocError> {
        match line {
            Line::ClientMessage(_, body) => {
                self.bodies.push(Vec::from_slice(alloc, body.text())?)?;
                Ok(true)
            }
            Line::PortBytes(_, bytes) => self.record_packet(alloc, bytes.as_slice()),
            _ => Ok(false),
        }
    }

    fn record_packet(&mut self, alloc: Global, bytes: &[u8]) -> Result<bool, AllocError> {
        let [_, _, packet @ ..] = bytes else {
            return Ok(false);
        };
        self.packets.push(Vec::from_slice(alloc, packet)?)?;
        Ok(true)
    }

    /// Makes so many streams or lists of a seed, and reads or writes each.
    fn make(
        &self,
        alloc: Global,
        making: Making,
        seed: u64,
        count: u64,
    ) -> Result<Tally, AllocError> {
        let mut tally = Tally::new();
        for row in 0..count {
            let mut chance = Chance::of(seed, row);
            self.make_one(alloc, making, &mut chance, &mut tally)?;
        }
        Ok(tally)
    }

    /// Makes a stream or lists, and reads or writes them.
    fn make_one(
        &self,
        alloc: Global,
        making: Making,
        chance: &mut Chance,
        tally: &mut Tally,
    ) -> Result<(), AllocError> {
        match making {
            Making::Streams(form) => {
                let stream = stream_of(alloc, chance, form, self.units(form))?;
                read_stream(alloc, chance, form, stream.as_slice(), tally)
            }
            Making::Lists => write_lists(alloc, chance, self.packets.as_slice(), tally),
        }
    }

    /// What was recorded of a form.
    fn units(&self, form: Form) -> &[Vec<u8>] {
        match form {
            Form::Frames => self.bodies.as_slice(),
            Form::Packets => self.packets.as_slice(),
        }
    }
}

/// Shows a line, in front of what comes of it.
fn show_line(text: &[u8], shown: &mut Vec<u8>) -> Result<(), AllocError> {
    shown.extend_from_slice(text)?;
    shown.extend_from_slice(b": ")
}

/// Notes a line that isn't understood.
fn note(text: &[u8], shown: &mut Vec<u8>) -> Result<(), AllocError> {
    shown.extend_from_slice(b"not understood: ")?;
    shown.extend_from_slice(text)?;
    shown.extend_from_slice(b"\n")
}

/// `frames SEED COUNT`, `packets SEED COUNT`, `lists SEED COUNT`.
fn making_of(text: &[u8]) -> Option<(Making, u64, u64)> {
    let (word, rest) = words_of(text)?;
    let making = match word {
        b"frames" => Making::Streams(Form::Frames),
        b"packets" => Making::Streams(Form::Packets),
        b"lists" => Making::Lists,
        _ => return None,
    };
    let (seed, count) = words_of(rest)?;
    Some((
        making,
        wire_bytes::number_of(seed)?,
        wire_bytes::number_of(count)?,
    ))
}

/// `steps COUNT`.
fn steps_of(text: &[u8]) -> Option<u64> {
    wire_bytes::number_of(text.strip_prefix(b"steps ")?)
}

/// What stands before the first space, and behind it.
pub fn words_of(text: &[u8]) -> Option<(&[u8], &[u8])> {
    let at = text.iter().position(|byte| *byte == b' ')?;
    Some((&text[..at], &text[at + 1..]))
}
