//! Texts of a case, as its lines say them.

use super::between::push_line;
use std::alloc::AllocError;
use wire_bytes::number_of;

/// Where a text that is repeated stands.
#[derive(Clone, Copy)]
enum Place {
    /// Between two bytes.
    Between,
    /// Behind a backslash.
    Escaped,
    /// Behind a backslash and the digit of this value.
    Half(u8),
}

/// Adds a line and its end; of `COUNT* TEXT` the text so many times, and no end of a line.
///
/// In such a text a backslash with two hexadecimal digits is a byte, `@` is which time it is, from 1, `#` the same in
/// thirteen digits, and `%` one more.
pub fn push_said(text: &mut Vec<u8>, line: &[u8]) -> Result<(), AllocError> {
    let Some((count, said)) = repeated(line) else {
        return push_line(text, line);
    };
    for time in 0..count {
        push_once(text, time.saturating_add(1), said)?;
    }
    Ok(())
}

/// The parts of `COUNT* TEXT`.
fn repeated(line: &[u8]) -> Option<(u64, &[u8])> {
    let at = line.iter().position(|byte| *byte == b'*')?;
    let said = line[at + 1..].strip_prefix(b" ")?;
    Some((number_of(&line[..at])?, said))
}

/// Adds a text for this time.
fn push_once(text: &mut Vec<u8>, time: u64, said: &[u8]) -> Result<(), AllocError> {
    let mut place = Place::Between;
    for byte in said {
        place = push_next(text, time, place, *byte)?;
    }
    Ok(())
}

/// Adds what the next byte of a text says, if it is whole; where the text stands then.
fn push_next(text: &mut Vec<u8>, time: u64, place: Place, byte: u8) -> Result<Place, AllocError> {
    match place {
        Place::Between => match byte {
            b'\\' => return Ok(Place::Escaped),
            b'@' => push_number(text, time, 1)?,
            b'#' => push_number(text, time, 13)?,
            b'%' => push_number(text, time.saturating_add(1), 1)?,
            _ => text.push(byte)?,
        },
        Place::Escaped => return Ok(Place::Half(value_of(byte))),
        Place::Half(high) => text.push(high.wrapping_mul(16).wrapping_add(value_of(byte)))?,
    }
    Ok(Place::Between)
}

/// The value of a hexadecimal digit, its letters small.
fn value_of(digit: u8) -> u8 {
    match digit {
        b'0'..=b'9' => digit.wrapping_sub(b'0'),
        b'a'..=b'f' => digit.wrapping_sub(b'a').wrapping_add(10),
        _ => 0,
    }
}

/// Adds a number in so many digits at least.
fn push_number(text: &mut Vec<u8>, number: u64, width: usize) -> Result<(), AllocError> {
    let mut buffer = itoa::Buffer::new();
    let digits = buffer.format(number).as_bytes();
    for _ in digits.len()..width {
        text.push(b'0')?;
    }
    text.extend_from_slice(digits)
}
