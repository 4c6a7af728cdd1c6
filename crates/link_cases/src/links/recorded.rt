//! Streams of what was recorded, with changes.

use super::changing::changed;
use super::plain_frames::{OPENING, SOH, trailer_of};
use seeded_choices::Chance;
use std::alloc::{AllocError, Global};

/// The most units of a stream.
const MOST_UNITS: usize = 6;

/// The most changes of a whole stream.
const MOST_CHANGES: usize = 3;

/// What a stream is made of.
#[derive(Clone, Copy)]
pub enum Form {
    /// Frames, of which their bodies are recorded.
    Frames,
    /// Packets, of which type and payload are recorded.
    Packets,
}

impl Form {
    /// How long a body is in the longest frame, and type and payload in the longest packet.
    fn longest(self) -> usize {
        match self {
            Form::Frames => 8_168,
            Form::Packets => 65_535,
        }
    }

    /// Adds a frame with this body, or a packet of this type and payload.
    fn add(self, alloc: Global, stream: &mut Vec<u8>, unit: &[u8]) -> Result<(), AllocError> {
        match self {
            Form::Frames => add_frame(alloc, stream, unit),
            Form::Packets => add_packet(stream, unit),
        }
    }
}

/// A stream of some units. One in three has a change, and its length and check sum are those that it has then. Up to
/// three changes of the whole follow, after which they need not be.
pub fn stream_of(
    alloc: Global,
    chance: &mut Chance,
    form: Form,
    units: &[Vec<u8>],
) -> Result<Vec<u8>, AllocError> {
    let mut stream = Vec::new(alloc);
    for _ in 0..=chance.below(MOST_UNITS) {
        let unit = one_of(chance, units);
        if chance.once_in(3) {
            let other = changed(alloc, chance, unit, form.longest())?;
            form.add(alloc, &mut stream, other.as_slice())?;
        } else {
            form.add(alloc, &mut stream, unit)?;
        }
    }
    for _ in 0..chance.below(MOST_CHANGES.saturating_add(1)) {
        stream = changed(alloc, chance, stream.as_slice(), form.longest())?;
    }
    Ok(stream)
}

/// One of the units; no bytes where there are none.
pub fn one_of<'a>(chance: &mut Chance, units: &'a [Vec<u8>]) -> &'a [u8] {
    match units.get(chance.below(units.len())) {
        Some(unit) => unit.as_slice(),
        None => &[],
    }
}

/// Adds a frame.
fn add_frame(alloc: Global, stream: &mut Vec<u8>, body: &[u8]) -> Result<(), AllocError> {
    let mut digits = itoa::Buffer::new();
    let mut frame = Vec::from_slice(alloc, OPENING)?;
    frame.extend_from_slice(digits.format(body.len()).as_bytes())?;
    frame.push(SOH)?;
    frame.extend_from_slice(body)?;
    stream.extend_from_slice(frame.as_slice())?;
    stream.extend_from_slice(&trailer_of(frame.as_slice()))
}

/// Adds a packet; nothing where its length has no two bytes.
fn add_packet(stream: &mut Vec<u8>, unit: &[u8]) -> Result<(), AllocError> {
    let Ok(size) = u16::try_from(unit.len()) else {
        return Ok(());
    };
    stream.extend_from_slice(&size.to_be_bytes())?;
    stream.extend_from_slice(unit)
}
