//! Frames, one by one.

use super::put_byte;
use super::reader::{Counts, Front, UnitReader, Way};
use super::streams::{self, verdict};
use case_lines::shown;
use fix_fields::{Fields, is_value, split};
use fix_framing::{FrameFault, Framer, frame, front_body};
use std::alloc::{AllocError, Global};

/// What a call on bytes of frames answers.
pub fn answer(alloc: Global, call: &str, text: &str, bytes: &[u8]) -> Result<String, AllocError> {
    if let Some(answer) = streams::answer::<Framer>(alloc, call, bytes)? {
        return Ok(answer);
    }
    match call {
        "each-byte" => verdict(alloc, is_no_other_byte_read(alloc, bytes)?),
        "bodies" => bodies(alloc, bytes),
        "frames" => framed(alloc, bytes),
        "long" => long(alloc, text.parse::<usize>().unwrap_or(0)),
        _ => String::from_str(alloc, "no such call"),
    }
}

impl UnitReader for Framer {
    /// A heartbeat without a header.
    fn unit() -> &'static [u8] {
        b"8=FIX.4.4\x019=5\x0135=0\x0110=163\x01"
    }

    fn begun(alloc: Global) -> Framer {
        Framer::new(alloc)
    }

    fn counts(&self) -> Counts {
        Counts {
            fed: self.fed(),
            copied: self.copied(),
            skipped: self.skipped(),
        }
    }

    fn bring(&mut self, alloc: Global, piece: &[u8]) -> Result<(), AllocError> {
        self.put(alloc, piece)
    }

    fn show_front(&mut self, text: &mut Vec<u8>) -> Result<Front, AllocError> {
        match self.front() {
            Ok(Some(view)) => {
                text.extend_from_slice(view.text())?;
                for tag in [35, 10, 34] {
                    text.push(b' ')?;
                    text.extend_from_slice(view.first(tag).unwrap_or(b"none"))?;
                }
                Ok(Front::Unit)
            }
            Ok(None) => Ok(Front::Nothing),
            Err(FrameFault::TooLong) => Ok(Front::Over),
            Err(FrameFault::NoMemory) => Err(AllocError),
        }
    }

    fn go_on(&mut self) -> bool {
        self.pass()
    }

    fn take(
        &mut self,
        alloc: Global,
        way: Way,
        piece: &[u8],
        units: &mut Vec<u8>,
    ) -> Result<bool, AllocError> {
        let taken = match way {
            Way::Fed => feed_frames(alloc, self, piece, units),
            Way::Lent => lend_frames(alloc, self, piece, units),
            Way::Moved => move_frames(alloc, self, piece, units),
        };
        match taken {
            Ok(()) => Ok(true),
            Err(FrameFault::TooLong) => Ok(false),
            Err(FrameFault::NoMemory) => Err(AllocError),
        }
    }
}

/// Adds the text of each frame that a piece completes.
fn feed_frames(
    alloc: Global,
    framer: &mut Framer,
    piece: &[u8],
    units: &mut Vec<u8>,
) -> Result<(), FrameFault> {
    for frame in framer.feed(alloc, piece)? {
        units.extend_from_slice(frame.text())?;
    }
    Ok(())
}

/// Puts a piece, and adds the text of each frame that stands in front.
fn lend_frames(
    alloc: Global,
    framer: &mut Framer,
    piece: &[u8],
    units: &mut Vec<u8>,
) -> Result<(), FrameFault> {
    framer.put(alloc, piece)?;
    for _ in 0..=piece.len() {
        match framer.front()? {
            Some(view) => units.extend_from_slice(view.to_fields(alloc)?.text())?,
            None => return Ok(()),
        }
        framer.pass();
    }
    Ok(())
}

/// Puts a piece, and adds the text of each frame that is moved out.
fn move_frames(
    alloc: Global,
    framer: &mut Framer,
    piece: &[u8],
    units: &mut Vec<u8>,
) -> Result<(), FrameFault> {
    framer.put(alloc, piece)?;
    for _ in 0..=piece.len() {
        match framer.next(alloc)? {
            Some(fields) => units.extend_from_slice(fields.text())?,
            None => return Ok(()),
        }
    }
    Ok(())
}

/// Whether a frame is none any more where any of its bytes is any other.
fn is_no_other_byte_read(alloc: Global, frame: &[u8]) -> Result<bool, AllocError> {
    let mut text = Vec::from_slice(alloc, frame)?;
    for at in 0..frame.len() {
        for byte in 0..=u8::MAX {
            if is_read_with(alloc, &mut text, at, byte)? {
                return Ok(false);
            }
        }
    }
    Ok(true)
}

/// Whether a frame is read from bytes of which one is another. They are as before then.
fn is_read_with(
    alloc: Global,
    text: &mut Vec<u8>,
    at: usize,
    byte: u8,
) -> Result<bool, AllocError> {
    let Some(was) = text.get(at).copied() else {
        return Ok(false);
    };
    if byte == was {
        return Ok(false);
    }
    put_byte(text, at, byte);
    let is_read = has_frame(alloc, text.as_slice())?;
    put_byte(text, at, was);
    Ok(is_read)
}

/// Whether a text has a frame, or is the beginning of too long a one.
fn has_frame(alloc: Global, text: &[u8]) -> Result<bool, AllocError> {
    match Framer::new(alloc).feed(alloc, text) {
        Ok(frames) => Ok(!frames.is_empty()),
        Err(FrameFault::TooLong) => Ok(true),
        Err(FrameFault::NoMemory) => Err(AllocError),
    }
}

/// The bodies of whole frames, one behind another, by what their heads announce.
fn bodies(alloc: Global, text: &[u8]) -> Result<String, AllocError> {
    let mut answer = String::new(alloc);
    let mut rest = text;
    for _ in 0..=text.len() {
        let Some((body, behind)) = front_body(rest) else {
            break;
        };
        answer.push_str(shown(alloc, body)?.as_str())?;
        answer.push(';')?;
        rest = behind;
    }
    Ok(answer)
}

/// The frame of a body.
fn framed(alloc: Global, body: &[u8]) -> Result<String, AllocError> {
    match split(alloc, body)? {
        Some(fields) => shown(alloc, frame(alloc, &fields)?.as_slice()),
        None => String::from_str(alloc, "no fields"),
    }
}

/// A frame with a text of so many bytes: how many bytes it has, and whether it is read in each way or too long.
fn long(alloc: Global, bytes: usize) -> Result<String, AllocError> {
    let frame = frame(alloc, &long_fields(alloc, bytes)?)?;
    let (text, size) = (frame.as_slice(), frame.len());
    if streams::is_read_in_each_size::<Framer>(alloc, text)? {
        return format!(in alloc; "{size} bytes, read");
    }
    match Framer::new(alloc).feed(alloc, text) {
        Err(FrameFault::TooLong) => format!(in alloc; "{size} bytes, too long"),
        _ => format!(in alloc; "{size} bytes, otherwise"),
    }
}

/// A message with a text of so many bytes; without one where there are none.
fn long_fields(alloc: Global, bytes: usize) -> Result<Fields, AllocError> {
    let mut fields = Fields::new(alloc);
    let value = vec![in alloc; b'x'; bytes]?;
    fields.push(35, b"0")?;
    if is_value(value.as_slice()) {
        fields.push(58, value.as_slice())?;
    }
    Ok(fields)
}
