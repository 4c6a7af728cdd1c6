//! Records by the format alone, as bytes.

use super::words::{bytes_said, first_number};
use std::alloc::{AllocError, Global};

/// How many bytes stand before a record's payload.
const HEAD: usize = 23;

/// How many bytes stand before a page's records: its name, and of a page of version 2 its number.
pub fn front_size(page: &[u8]) -> usize {
    if page.starts_with(b"GJ02") { 12 } else { 4 }
}

/// What stands in front of a record's payload, but for the payload's length.
#[derive(Clone, Copy)]
struct Head {
    kind: u64,
    source: u64,
    link: u64,
    at: u64,
}

/// The record that a text says: kind, source, link, moment, and the payload as `bytes_said` has it. `None` where it is
/// none.
pub fn record_said(alloc: Global, text: &str) -> Result<Option<Vec<u8>>, AllocError> {
    let Some((head, rest)) = head_said(text) else {
        return Ok(None);
    };
    match bytes_said(alloc, rest)? {
        Some(payload) => Ok(Some(record_of(alloc, head, payload.as_slice())?)),
        None => Ok(None),
    }
}

/// Kind, source, link and moment in front of a text, and what stands behind them.
fn head_said(text: &str) -> Option<(Head, &str)> {
    let (kind, rest) = first_number(text)?;
    let (source, rest) = first_number(rest)?;
    let (link, rest) = first_number(rest)?;
    let (at, rest) = first_number(rest)?;
    let head = Head {
        kind,
        source,
        link,
        at,
    };
    Some((head, rest))
}

/// The bytes of a record.
fn record_of(alloc: Global, head: Head, payload: &[u8]) -> Result<Vec<u8>, AllocError> {
    let mut bytes = Vec::new(alloc);
    bytes.extend_from_slice(&head.kind.to_be_bytes()[7..])?;
    bytes.extend_from_slice(&head.source.to_be_bytes()[6..])?;
    bytes.extend_from_slice(&head.link.to_be_bytes())?;
    bytes.extend_from_slice(&head.at.to_be_bytes())?;
    bytes.extend_from_slice(&(payload.len() as u64).to_be_bytes()[4..])?;
    bytes.extend_from_slice(payload)?;
    Ok(bytes)
}

/// The records of so many ticks of client 1, one each millisecond from 0 on, each with an empty batch. `None` where the
/// text is no number.
pub fn ticks_said(alloc: Global, text: &str) -> Result<Option<Vec<u8>>, AllocError> {
    match first_number(text) {
        Some((count, _)) => Ok(Some(ticks(alloc, count)?)),
        None => Ok(None),
    }
}

/// The records of so many ticks.
fn ticks(alloc: Global, count: u64) -> Result<Vec<u8>, AllocError> {
    let mut bytes = Vec::new(alloc);
    for at in 0..count {
        add_tick(alloc, &mut bytes, at)?;
    }
    Ok(bytes)
}

/// Adds the records of a tick at a moment.
fn add_tick(alloc: Global, bytes: &mut Vec<u8>, at: u64) -> Result<(), AllocError> {
    let tick = Head {
        kind: 7,
        source: 1,
        link: 0,
        at,
    };
    let end = Head {
        kind: 15,
        source: 0,
        link: 0,
        at,
    };
    bytes.extend_from_slice(record_of(alloc, tick, b"")?.as_slice())?;
    bytes.extend_from_slice(record_of(alloc, end, b"")?.as_slice())
}

/// Where the records of a page begin, and where the last one ends.
pub fn places_of(alloc: Global, page: &[u8]) -> Result<Vec<usize>, AllocError> {
    let mut places = Vec::new(alloc);
    let mut at = front_size(page);
    places.push(at)?;
    for _ in 0..page.len() {
        let Some(size) = size_at(page, at) else {
            return Ok(places);
        };
        at = at.saturating_add(size);
        places.push(at)?;
    }
    Ok(places)
}

/// How many bytes the record at a place has: its head, whose last four bytes are its payload's length, and that.
fn size_at(page: &[u8], at: usize) -> Option<usize> {
    let (_, record) = split(page, at);
    let (_, behind) = record.split_first_chunk::<19>()?;
    let size = behind.first_chunk::<4>()?;
    Some(HEAD + u32::from_be_bytes(*size) as usize)
}

/// The bytes up to a place, and those behind it.
pub fn split(bytes: &[u8], place: usize) -> (&[u8], &[u8]) {
    bytes.split_at(place.min(bytes.len()))
}

/// The bytes from one place up to another.
pub fn between(bytes: &[u8], from: usize, to: usize) -> &[u8] {
    let (front, _) = split(bytes, to);
    let (_, middle) = split(front, from);
    middle
}
