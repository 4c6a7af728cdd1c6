//! Readers and a writer of one link, each step of which a line asks for and is printed.

use super::cases::words_of;
use super::gate::Kept;
use super::limited::Limited;
use super::tally::print_count;
use gate_events::{ClientNumber, Event, LinkOut, PortNumber, ShortList};
use link_decoders::Decoder;
use link_io::{BatchWriter, ClientReader, LinkFault, PortReader, Progress, Reader, Wrote};
use seeded_choices::Chance;
use std::alloc::{AllocError, Global};
use std::sync::atomic::Ordering;
use wire_bytes::number_of;

/// The client, the port, and the link of both.
const CLIENT: u16 = 2;

const PORT: u16 = 3;

const LINK: u64 = 7;

/// More reads than any stream of a case takes.
const MOST_READS: u32 = 1_000;

/// A client's reader, a port's, and a writer, over one stream and one gate.
pub struct Stepped {
    client: ClientReader,
    port: PortReader,
    writer: BatchWriter,
    stream: Limited,
    gate: Kept,
}

/// Written by hand, so that one call drops all.
impl Drop for Stepped {
    fn drop(self) {
        let Stepped {
            client: _,
            port: _,
            writer: _,
            stream: _,
            gate: _,
        } = self;
    }
}

impl Stepped {
    /// Each with so many steps, 1 at least, over a stream that moves nothing and a gate at which nothing lies.
    pub fn new(alloc: Global, steps: u64) -> Stepped {
        let steps = steps.max(1);
        Stepped {
            client: ClientReader::new(alloc, ClientNumber::new(CLIENT), LINK, steps),
            port: PortReader::new(alloc, PortNumber::new(PORT), LINK, steps),
            writer: BatchWriter::new(alloc, 1, LINK, steps),
            stream: Limited::new(alloc),
            gate: Kept::new(alloc, Chance::of(0, 0), usize::MAX),
        }
    }

    /// Does what a line says, and shows what comes of a step; false where the line isn't one of these.
    pub fn does(
        &mut self,
        alloc: Global,
        line: &[u8],
        shown: &mut Vec<u8>,
    ) -> Result<bool, AllocError> {
        match line {
            b"write" => self.write(alloc, shown)?,
            b"write promptly" => self.write_promptly(alloc, shown)?,
            b"faults" => show_faults(shown)?,
            b"full" => self.gate.is_full = true,
            b"room" => self.gate.is_full = false,
            b"list" => self.gate.lists.insert(0, ShortList::new())?,
            _ => return self.does_words(alloc, line, shown),
        }
        Ok(true)
    }

    /// Does what a line of a word and a number says.
    fn does_words(
        &mut self,
        alloc: Global,
        line: &[u8],
        shown: &mut Vec<u8>,
    ) -> Result<bool, AllocError> {
        let Some((word, rest)) = words_of(line) else {
            return Ok(false);
        };
        if word == b"case".as_slice() {
            show_bytes(line, shown)?;
            return Ok(true);
        }
        let Some(number) = number_of(rest) else {
            return Ok(self.does_text(alloc, word, rest)?);
        };
        match word {
            b"new" => *self = Stepped::new(alloc, number),
            b"client" => {
                let ended = read(
                    alloc,
                    &mut self.client,
                    &mut self.stream,
                    &mut self.gate,
                    number,
                );
                print_count(shown, self.client.skipped(), b" skipped, ")?;
                self.show_read(ended, shown)?;
            }
            b"port" => {
                let ended = read(
                    alloc,
                    &mut self.port,
                    &mut self.stream,
                    &mut self.gate,
                    number,
                );
                self.show_read(ended, shown)?;
            }
            b"close" => self.tell(alloc, LinkOut::Close { link: number })?,
            _ => return Ok(false),
        }
        Ok(true)
    }

    /// Does what a line of a word, numbers and a text says.
    fn does_text(&mut self, alloc: Global, word: &[u8], rest: &[u8]) -> Result<bool, AllocError> {
        let Some((number, text)) = numbered(rest) else {
            return Ok(false);
        };
        match word {
            b"to" => {
                let bytes = bytes_said(alloc, text)?;
                self.tell(
                    alloc,
                    LinkOut::Write {
                        link: number,
                        bytes,
                    },
                )?;
                Ok(true)
            }
            b"moves" => Ok(self.move_bytes(alloc, number, text)?),
            _ => Ok(false),
        }
    }

    /// The stream moves so many bytes a call from now on, and fails behind so many calls; where a text follows, it
    /// gives this.
    fn move_bytes(&mut self, alloc: Global, size: u64, rest: &[u8]) -> Result<bool, AllocError> {
        if let Some(calls) = number_of(rest) {
            self.stream.limit(size, calls);
            return Ok(true);
        }
        let Some((calls, text)) = numbered(rest) else {
            return Ok(false);
        };
        self.stream.limit(size, calls);
        self.stream.give(bytes_said(alloc, text)?);
        Ok(true)
    }

    /// Adds to the list that was laid last.
    fn tell(&mut self, alloc: Global, out: LinkOut) -> Result<(), AllocError> {
        match self.gate.lists.first_mut() {
            Some(list) => list.push(alloc, out),
            None => Ok(()),
        }
    }

    /// Shows what came of a reader's steps, and the events that were put.
    fn show_read(
        &mut self,
        ended: Result<Progress, LinkFault>,
        shown: &mut Vec<u8>,
    ) -> Result<(), AllocError> {
        print_count(shown, self.stream.bytes, b" bytes by ")?;
        print_count(shown, self.stream.calls, b" calls: ")?;
        show_ended(ended, shown)?;
        for event in &self.gate.events {
            show_event(event, shown)?;
        }
        self.gate.events.clear();
        Ok(())
    }

    /// A step of the writer.
    fn write(&mut self, alloc: Global, shown: &mut Vec<u8>) -> Result<(), AllocError> {
        match self.writer.step(alloc, &mut self.stream, &mut self.gate) {
            Ok(wrote) => show_wrote(wrote, shown)?,
            Err(fault) => show_fault(fault, shown)?,
        }
        self.show_written(shown)
    }

    /// A prompt step of the writer.
    fn write_promptly(&mut self, alloc: Global, shown: &mut Vec<u8>) -> Result<(), AllocError> {
        let is_all = self
            .writer
            .step_once(alloc, &mut self.stream, &mut self.gate);
        shown.extend_from_slice(if is_all {
            b"nothing is left\n".as_slice()
        } else {
            b"something is left\n".as_slice()
        })?;
        self.show_written(shown)
    }

    /// Shows what the stream has, its calls, the lists that lie there, and how many bytes of frames the gate was told.
    fn show_written(&mut self, shown: &mut Vec<u8>) -> Result<(), AllocError> {
        print_count(shown, self.stream.calls, b" calls, ")?;
        print_count(shown, self.gate.lists.len() as u64, b" lists left, ")?;
        print_count(
            shown,
            self.gate.sent.load(Ordering::SeqCst),
            b" bytes told, ",
        )?;
        print_count(shown, self.stream.taken.len() as u64, b" written:\n")?;
        show_bytes(self.stream.taken.as_slice(), shown)
    }
}

/// Steps a reader at a moment until a step doesn't read: what that one came to.
fn read<D: Decoder>(
    alloc: Global,
    reader: &mut Reader<D>,
    stream: &mut Limited,
    gate: &mut Kept,
    at: u64,
) -> Result<Progress, LinkFault> {
    for _ in 0..MOST_READS {
        match reader.step(alloc, stream, gate, at) {
            Ok(Progress::Read(_)) => {}
            ended => return ended,
        }
    }
    Ok(Progress::Held)
}

/// Shows what a reader's step came to.
fn show_ended(ended: Result<Progress, LinkFault>, shown: &mut Vec<u8>) -> Result<(), AllocError> {
    match ended {
        Ok(Progress::Ended) => shown.extend_from_slice(b"ended\n"),
        Ok(_) => shown.extend_from_slice(b"held\n"),
        Err(fault) => show_fault(fault, shown),
    }
}

/// Shows what a writer's step did.
fn show_wrote(wrote: Wrote, shown: &mut Vec<u8>) -> Result<(), AllocError> {
    print_count(shown, wrote.bytes, b" bytes")?;
    if wrote.taken {
        shown.extend_from_slice(b", taken")?;
    }
    if wrote.closed {
        shown.extend_from_slice(b", closed")?;
    }
    shown.extend_from_slice(b"\n")
}

/// Shows a fault's number.
fn show_fault(fault: LinkFault, shown: &mut Vec<u8>) -> Result<(), AllocError> {
    shown.extend_from_slice(b"fault ")?;
    print_count(shown, u64::from(fault.number()), b"\n")
}

/// Shows the number of each fault.
fn show_faults(shown: &mut Vec<u8>) -> Result<(), AllocError> {
    for fault in [
        LinkFault::ReadFailed,
        LinkFault::WriteFailed,
        LinkFault::Malformed,
        LinkFault::StepLimit,
        LinkFault::NoMemory,
    ] {
        show_fault(fault, shown)?;
    }
    Ok(())
}

/// Shows an event: its number, its link, its moment, and its frame or its packet.
fn show_event(event: &Event, shown: &mut Vec<u8>) -> Result<(), AllocError> {
    match event {
        Event::ClientMessage {
            client,
            link,
            at,
            frame,
        } => {
            show_head(b"client ", client.number(), *link, *at, shown)?;
            show_bytes(frame.fields().text(), shown)
        }
        Event::PortPacket {
            port,
            link,
            at,
            packet,
        } => {
            show_head(b"port ", port.number(), *link, *at, shown)?;
            shown.extend_from_slice(&[packet.kind])?;
            show_bytes(packet.payload.as_slice(), shown)
        }
        _ => shown.extend_from_slice(b"other\n"),
    }
}

/// Shows whose event it is, its link and its moment.
fn show_head(
    of: &[u8],
    number: u16,
    link: u64,
    at: u64,
    shown: &mut Vec<u8>,
) -> Result<(), AllocError> {
    shown.extend_from_slice(of)?;
    print_count(shown, u64::from(number), b" link ")?;
    print_count(shown, link, b" at ")?;
    print_count(shown, at, b": ")
}

/// Shows bytes and the end of a line, with `|` for SOH.
fn show_bytes(bytes: &[u8], shown: &mut Vec<u8>) -> Result<(), AllocError> {
    for byte in bytes {
        shown.extend_from_slice(&[if *byte == 1 { b'|' } else { *byte }])?;
    }
    shown.extend_from_slice(b"\n")
}

/// The bytes of a text, in which `|` stands for SOH and `~` for a byte 0.
fn bytes_said(alloc: Global, text: &[u8]) -> Result<Vec<u8>, AllocError> {
    let mut bytes = Vec::with_capacity(alloc, text.len())?;
    for byte in text {
        bytes.push(match *byte {
            b'|' => 1,
            b'~' => 0,
            other => other,
        })?;
    }
    Ok(bytes)
}

/// The number of a first word, and what stands behind it.
fn numbered(text: &[u8]) -> Option<(u64, &[u8])> {
    let (word, rest) = words_of(text)?;
    Some((number_of(word)?, rest))
}
