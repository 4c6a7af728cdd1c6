//! The words of a line, and the bytes that they say.

use case_lines::first_word;
use journal_pages::PageFault;
use std::alloc::{AllocError, Global};
use wire_bytes::number_of;

/// The number of a text's first word, and what stands behind it.
pub fn first_number(text: &str) -> Option<(u64, &str)> {
    let (word, rest) = first_word(text);
    Some((number_of(word.as_bytes())?, rest))
}

/// The fault of a word.
pub fn fault_named(word: &str) -> Option<PageFault> {
    match word {
        "head" => Some(PageFault::Head),
        "kind" => Some(PageFault::Kind),
        "cut" => Some(PageFault::CutShort),
        "payload" => Some(PageFault::Payload),
        "order" => Some(PageFault::Order),
        "number" => Some(PageFault::Number),
        _ => None,
    }
}

/// The bytes that a text says: `text TEXT`, in which `|` stands for SOH; `hex HEX`; `zeros COUNT`; `field COUNT`, a
/// field of so many bytes; `numbered COUNT`, what stands before the records of a page of version 2 with this number;
/// nothing for nothing. `None` for any other.
pub fn bytes_said(alloc: Global, text: &str) -> Result<Option<Vec<u8>>, AllocError> {
    let (word, rest) = first_word(text);
    match word {
        "" => Ok(Some(Vec::new(alloc))),
        "text" => Ok(Some(text_said(alloc, rest)?)),
        "hex" => hex_said(alloc, rest),
        "zeros" => many_said(alloc, b"", 0, b"", rest),
        "field" => many_said(alloc, b"1=", b'0', b"\x01", rest),
        "numbered" => numbered_said(alloc, rest),
        _ => Ok(None),
    }
}

/// What a page of version 2 with this number begins with.
fn numbered_said(alloc: Global, text: &str) -> Result<Option<Vec<u8>>, AllocError> {
    let Some(number) = number_of(text.as_bytes()) else {
        return Ok(None);
    };
    let mut bytes = Vec::from_slice(alloc, b"GJ02")?;
    bytes.extend_from_slice(&number.to_be_bytes())?;
    Ok(Some(bytes))
}

/// A text in which `|` stands for SOH.
fn text_said(alloc: Global, text: &str) -> Result<Vec<u8>, AllocError> {
    let mut bytes = Vec::with_capacity(alloc, text.len())?;
    for byte in text.as_bytes() {
        bytes.push(if *byte == b'|' { 1 } else { *byte })?;
    }
    Ok(bytes)
}

/// The bytes of hexadecimal digits, two a byte.
fn hex_said(alloc: Global, digits: &str) -> Result<Option<Vec<u8>>, AllocError> {
    let mut bytes = Vec::new(alloc);
    for pair in digits.as_bytes().chunks(2) {
        match byte_of(pair) {
            Some(byte) => bytes.push(byte)?,
            None => return Ok(None),
        }
    }
    Ok(Some(bytes))
}

/// The byte of two hexadecimal digits.
fn byte_of(digits: &[u8]) -> Option<u8> {
    let [high, low] = digits else {
        return None;
    };
    let high = char::from(*high).to_digit(16)?;
    let low = char::from(*low).to_digit(16)?;
    Some((high * 16 + low) as u8)
}

/// So many bytes in all: the first ones, one again and again, and the last ones. `None` where the count is none.
fn many_said(
    alloc: Global,
    first: &[u8],
    byte: u8,
    last: &[u8],
    count: &str,
) -> Result<Option<Vec<u8>>, AllocError> {
    match number_of(count.as_bytes()) {
        Some(count) => Ok(Some(many(alloc, first, byte, last, count)?)),
        None => Ok(None),
    }
}

/// The same of this count.
fn many(
    alloc: Global,
    first: &[u8],
    byte: u8,
    last: &[u8],
    count: u64,
) -> Result<Vec<u8>, AllocError> {
    let fixed = first.len().saturating_add(last.len()) as u64;
    let mut bytes = Vec::from_slice(alloc, first)?;
    for _ in fixed..count {
        bytes.push(byte)?;
    }
    bytes.extend_from_slice(last)?;
    Ok(bytes)
}
