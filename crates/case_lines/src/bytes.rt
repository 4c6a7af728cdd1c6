//! Bytes as they are typed and shown: `|` is SOH, a backslash with two hexadecimal digits is a byte, any other
//! character is itself.

use std::alloc::{AllocError, Global};

const SOH: u8 = 1;

/// Where a text of typed bytes stands.
#[derive(Clone, Copy)]
enum Place {
    /// Between two bytes.
    Between,
    /// Behind a backslash.
    Escaped,
    /// Behind a backslash and the digit of this value.
    Half(u8),
}

/// The bytes that are typed so; none where a backslash has no two hexadecimal digits behind it, letters small.
pub fn bytes_of(alloc: Global, text: &str) -> Result<Option<Vec<u8>>, AllocError> {
    let mut bytes = Vec::new(alloc);
    let is_whole = add_bytes(&mut bytes, text.as_bytes())?;
    Ok(if is_whole { Some(bytes) } else { None })
}

/// Adds the bytes that are typed so; false where a backslash has no two digits behind it.
fn add_bytes(bytes: &mut Vec<u8>, text: &[u8]) -> Result<bool, AllocError> {
    let mut place = Place::Between;
    for character in text {
        match (place, value_of(*character)) {
            (Place::Between, _) if *character == b'\\' => place = Place::Escaped,
            (Place::Between, _) => bytes.push(if *character == b'|' { SOH } else { *character })?,
            (Place::Escaped, Some(high)) => place = Place::Half(high),
            (Place::Half(high), Some(low)) => {
                bytes.push(high.wrapping_mul(16).wrapping_add(low))?;
                place = Place::Between;
            }
            _ => return Ok(false),
        }
    }
    Ok(matches!(place, Place::Between))
}

/// The value of a hexadecimal digit, its letters small.
fn value_of(digit: u8) -> Option<u8> {
    match digit {
        b'0'..=b'9' => Some(digit.wrapping_sub(b'0')),
        b'a'..=b'f' => Some(digit.wrapping_sub(b'a').wrapping_add(10)),
        _ => None,
    }
}

/// Bytes as they are typed.
pub fn shown(alloc: Global, bytes: &[u8]) -> Result<String, AllocError> {
    let mut text = String::new(alloc);
    for byte in bytes {
        show(&mut text, *byte)?;
    }
    Ok(text)
}

/// Lines of bytes, each as it is typed.
pub fn shown_lines(alloc: Global, lines: &[u8]) -> Result<String, AllocError> {
    let mut text = String::new(alloc);
    for byte in lines {
        match *byte {
            b'\n' => text.push('\n')?,
            byte => show(&mut text, byte)?,
        }
    }
    Ok(text)
}

/// Adds a byte as it is typed.
fn show(text: &mut String, byte: u8) -> Result<(), AllocError> {
    match byte {
        SOH => text.push('|'),
        b' '..=b'~' if byte != b'\\' && byte != b'|' => text.push(char::from(byte)),
        _ => write!(text, "\\{byte:02x}"),
    }
}
