//! The frames of a whole stream, by the rules of the format alone.
//!
//! Source: FIX 4.4 Volume 1, "Message Format"; Volume 2, "Standard Message Header", "CheckSum Calculation". That a
//! frame has at most 8,192 bytes, and a length at most six digits, is the gateway's own.

use super::changing::halves;
use std::alloc::AllocError;

/// BeginString, and the tag of BodyLength.
pub const OPENING: &[u8; 12] = b"8=FIX.4.4\x019=";

/// The most digits of BodyLength, and of a tag.
const MOST_DIGITS: usize = 6;

const MOST_TAG_DIGITS: usize = 9;

/// The bytes of CheckSum's field, and the most of a frame.
const TRAILER: usize = 7;

const LONGEST: usize = 8_192;

pub const SOH: u8 = 1;

/// What stands in front of a stream.
enum Place {
    /// A frame of so many bytes.
    Frame(usize),
    /// A byte that is no frame's.
    Skipped,
    /// What may still become a frame.
    Waiting,
    /// A head that announces more bytes than a frame may have.
    TooLong,
}

/// The text of each frame, in order, into `frames`; whether a head follows that announces too long a frame.
pub fn read_frames<'a>(stream: &'a [u8], frames: &mut Vec<&'a [u8]>) -> Result<bool, AllocError> {
    let mut rest = stream;
    for _ in 0..stream.len() {
        match place_of(rest) {
            Place::Frame(size) => {
                let (frame, behind) = halves(rest, size);
                frames.push(frame)?;
                rest = behind;
            }
            Place::Skipped => (_, rest) = halves(rest, 1),
            Place::Waiting => return Ok(false),
            Place::TooLong => return Ok(true),
        }
    }
    Ok(false)
}

fn place_of(stream: &[u8]) -> Place {
    let Some(behind) = stream.strip_prefix(OPENING) else {
        return if OPENING.starts_with(stream) {
            Place::Waiting
        } else {
            Place::Skipped
        };
    };
    let (digits, behind) = digits_of(behind);
    if digits.len() > MOST_DIGITS {
        return Place::Skipped;
    }
    match behind {
        [] => Place::Waiting,
        [SOH, behind @ ..] if !digits.is_empty() => place_of_body(stream, behind, value_of(digits)),
        _ => Place::Skipped,
    }
}

/// Where the head announces a body of so many bytes. Behind the head `behind` follows.
fn place_of_body(stream: &[u8], behind: &[u8], body: usize) -> Place {
    let head = stream.len().saturating_sub(behind.len());
    let size = head.saturating_add(body).saturating_add(TRAILER);
    if size > LONGEST {
        return Place::TooLong;
    }
    if stream.len() < size {
        return Place::Waiting;
    }
    let (frame, _) = halves(stream, size);
    let (counted, trailer) = halves(frame, size.saturating_sub(TRAILER));
    let (_, body) = halves(counted, head);
    let is_frame = body.starts_with(b"35=")
        && body.last() == Some(&SOH)
        && trailer == trailer_of(counted).as_slice()
        && are_fields(frame);
    if is_frame {
        Place::Frame(size)
    } else {
        Place::Skipped
    }
}

/// CheckSum's field behind this text.
pub fn trailer_of(counted: &[u8]) -> [u8; 7] {
    let mut sum = 0_u8;
    for byte in counted {
        sum = sum.wrapping_add(*byte);
    }
    let digits = [sum / 100, sum / 10 % 10, sum % 10];
    let [hundreds, tens, ones] = digits.map(|digit| b'0'.wrapping_add(digit));
    [b'1', b'0', b'=', hundreds, tens, ones, SOH]
}

/// Whether the text is fields: a tag of one to nine digits and no zero in front, `=`, a value without SOH, SOH.
fn are_fields(text: &[u8]) -> bool {
    let Some(inside) = text.strip_suffix(&[SOH]) else {
        return text.is_empty();
    };
    for field in inside.split(|byte| *byte == SOH) {
        let (tag, behind) = digits_of(field);
        let is_tag = matches!(tag, [b'1'..=b'9', ..]) && tag.len() <= MOST_TAG_DIGITS;
        if !is_tag || !behind.starts_with(b"=") {
            return false;
        }
    }
    true
}

/// The digits that stand in front, and what follows.
fn digits_of(text: &[u8]) -> (&[u8], &[u8]) {
    let count = text.iter().position(|byte| !byte.is_ascii_digit());
    halves(text, count.unwrap_or(text.len()))
}

/// The number of at most six digits.
fn value_of(digits: &[u8]) -> usize {
    let mut value = 0_usize;
    for digit in digits {
        value = value
            .wrapping_mul(10)
            .wrapping_add(usize::from(digit.wrapping_sub(b'0')));
    }
    value
}
