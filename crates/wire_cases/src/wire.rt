//! The calls on the wire: messages of fixed length, streams, fields.

mod decoding;
mod fields;
mod frames;
mod layouts;
mod messages;
mod packets;
mod reader;
mod streams;

use case_lines::{bytes_of, first_word};
use std::alloc::{AllocError, Global};

/// What a call answers on what a subject is asked.
pub fn answer(alloc: Global, subject: &str, asked: &str) -> Result<String, AllocError> {
    let (call, text) = first_word(asked);
    match bytes_of(alloc, text)? {
        Some(bytes) => answer_to(alloc, subject, call, text, bytes.as_slice()),
        None => String::from_str(alloc, "no bytes"),
    }
}

/// The same, with what it is asked as a text and as the bytes that are typed so.
fn answer_to(
    alloc: Global,
    subject: &str,
    call: &str,
    text: &str,
    bytes: &[u8],
) -> Result<String, AllocError> {
    match subject {
        "ouch" => decoding::answer(alloc, call, bytes),
        "field" => fields::answer(alloc, call, text, bytes),
        "frames" => frames::answer(alloc, call, text, bytes),
        "packets" => packets::answer(alloc, call, text, bytes),
        _ => messages::answer(alloc, subject, call, bytes),
    }
}

/// A byte is another.
fn put_byte(bytes: &mut Vec<u8>, at: usize, value: u8) {
    if let Some(byte) = bytes.get_mut(at) {
        *byte = value;
    }
}
