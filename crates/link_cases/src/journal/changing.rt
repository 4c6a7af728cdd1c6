//! Pages that are changed in each way of a kind.

use super::reading::{Reader, outcome};
use super::records::{between, front_size, places_of};
use super::tally::Tally;
use std::alloc::{AllocError, Global};

/// In which way pages are changed.
#[derive(Clone, Copy, PartialEq, Eq)]
pub enum Change {
    /// Each byte is every other value.
    Bytes,
    /// Each page ends after each number of its bytes, and is the last.
    Fronts,
    /// Each record of a page is exchanged with the next one.
    Exchanges,
    /// Each page is cut into two and into three, wherever a record ends.
    Cuts,
}

/// What comes of all changes of these pages.
pub fn changed_all(
    alloc: Global,
    reader: Reader,
    change: Change,
    pages: &[Vec<u8>],
) -> Result<Tally, AllocError> {
    let mut tally = Tally::new();
    for number in 0..pages.len() {
        change_page(alloc, reader, change, pages, number, &mut tally)?;
    }
    Ok(tally)
}

/// Counts what comes of all changes of the page of a number.
fn change_page(
    alloc: Global,
    reader: Reader,
    change: Change,
    pages: &[Vec<u8>],
    number: usize,
    tally: &mut Tally,
) -> Result<(), AllocError> {
    let page = page_at(pages, number);
    let places = places_of(alloc, page)?;
    let (firsts, seconds) = counts_of(change, page.len(), places.len());
    for first in 0..firsts {
        for second in 0..seconds {
            let parts = parts_of(alloc, change, page, places.as_slice(), (first, second))?;
            count_changed(alloc, reader, change, pages, number, parts, tally)?;
        }
    }
    Ok(())
}

/// The page of a number; no bytes where there is none.
fn page_at(pages: &[Vec<u8>], number: usize) -> &[u8] {
    match pages.get(number) {
        Some(page) => page.as_slice(),
        None => &[],
    }
}

/// Counts what comes of pages with these in place of the one of a number, where there are some.
fn count_changed(
    alloc: Global,
    reader: Reader,
    change: Change,
    pages: &[Vec<u8>],
    number: usize,
    parts: Vec<Vec<u8>>,
    tally: &mut Tally,
) -> Result<(), AllocError> {
    if parts.is_empty() {
        return Ok(());
    }
    let whole = with_parts(alloc, change, pages, number, parts)?;
    tally.count(outcome(alloc, reader, whole.as_slice())?, number);
    Ok(())
}

/// How many changes of a kind are tried of a page of so many bytes, with so many places where records begin or end:
/// places of a byte and its values, ends, places of a record, pairs of places.
fn counts_of(change: Change, size: usize, places: usize) -> (usize, usize) {
    match change {
        Change::Bytes => (size, 256),
        Change::Fronts => (size, 1),
        Change::Exchanges => (places, 1),
        Change::Cuts => (places, places),
    }
}

/// What a page becomes by a change: the pages in its place; none where nothing is changed.
fn parts_of(
    alloc: Global,
    change: Change,
    page: &[u8],
    places: &[usize],
    at: (usize, usize),
) -> Result<Vec<Vec<u8>>, AllocError> {
    match change {
        Change::Bytes => with_byte(alloc, page, at.0, u8::try_from(at.1).unwrap_or(0)),
        Change::Fronts => one(alloc, between(page, 0, at.0)),
        Change::Exchanges => exchanged(alloc, page, places.get(at.0..).unwrap_or(&[])),
        Change::Cuts => cut(alloc, page, places, at),
    }
}

/// One page.
fn one(alloc: Global, page: &[u8]) -> Result<Vec<Vec<u8>>, AllocError> {
    let mut parts = Vec::new(alloc);
    parts.push(Vec::from_slice(alloc, page)?)?;
    Ok(parts)
}

/// A page in which a byte is another.
fn with_byte(alloc: Global, page: &[u8], at: usize, value: u8) -> Result<Vec<Vec<u8>>, AllocError> {
    if page.get(at) == Some(&value) {
        return Ok(Vec::new(alloc));
    }
    let mut parts = one(alloc, page)?;
    if let Some(other) = parts.first_mut() {
        put_byte(other, at, value);
    }
    Ok(parts)
}

/// A byte is another.
fn put_byte(page: &mut Vec<u8>, at: usize, value: u8) {
    if let Some(byte) = page.get_mut(at) {
        *byte = value;
    }
}

/// A page in which the record between the first two places stands behind the one that follows it.
fn exchanged(alloc: Global, page: &[u8], places: &[usize]) -> Result<Vec<Vec<u8>>, AllocError> {
    let mut parts = Vec::new(alloc);
    if let [a, b, c, ..] = places {
        let order = [
            between(page, 0, *a),
            between(page, *b, *c),
            between(page, *a, *b),
            between(page, *c, page.len()),
        ];
        parts.push(joined(alloc, &order)?)?;
    }
    Ok(parts)
}

/// Texts, one behind another.
fn joined(alloc: Global, texts: &[&[u8]]) -> Result<Vec<u8>, AllocError> {
    let mut whole = Vec::new(alloc);
    for text in texts {
        whole.extend_from_slice(text)?;
    }
    Ok(whole)
}

/// A page as two, where both places are the same, or as three; none where they are in another order, or no record
/// stands in front of the first or behind the second.
fn cut(
    alloc: Global,
    page: &[u8],
    places: &[usize],
    at: (usize, usize),
) -> Result<Vec<Vec<u8>>, AllocError> {
    let (Some(a), Some(b)) = (places.get(at.0), places.get(at.1)) else {
        return Ok(Vec::new(alloc));
    };
    if a <= b && *a > front_size(page) && *b < page.len() {
        cut_at(alloc, page, (at.0, *a), (at.1, *b))
    } else {
        Ok(Vec::new(alloc))
    }
}

/// How many records of a page stand before a place, and the place.
type Cut = (usize, usize);

/// A page as two, where both places are the same, or as three.
fn cut_at(alloc: Global, page: &[u8], a: Cut, b: Cut) -> Result<Vec<Vec<u8>>, AllocError> {
    let mut parts = Vec::new(alloc);
    parts.push(Vec::from_slice(alloc, between(page, 0, a.1))?)?;
    if a.1 < b.1 {
        parts.push(headed(alloc, page, a.0, between(page, a.1, b.1))?)?;
    }
    parts.push(headed(alloc, page, b.0, between(page, b.1, page.len()))?)?;
    Ok(parts)
}

/// A page of these records, which stand behind so many of a page: of its version, and of version 2 with the number that
/// is due there.
fn headed(
    alloc: Global,
    whole: &[u8],
    before: usize,
    records: &[u8],
) -> Result<Vec<u8>, AllocError> {
    match whole {
        [b'G', b'J', b'0', b'2', a, b, c, d, e, f, g, h, ..] => {
            let first = u64::from_be_bytes([*a, *b, *c, *d, *e, *f, *g, *h]);
            let due = first.wrapping_add(before as u64).to_be_bytes();
            joined(alloc, &[b"GJ02", &due, records])
        }
        _ => joined(alloc, &[between(whole, 0, 4), records]),
    }
}

/// Pages with these in place of the one of a number; without those behind it where it is to be the last.
fn with_parts(
    alloc: Global,
    change: Change,
    pages: &[Vec<u8>],
    number: usize,
    parts: Vec<Vec<u8>>,
) -> Result<Vec<Vec<u8>>, AllocError> {
    let mut whole = Vec::new(alloc);
    add_pages(alloc, &mut whole, pages.get(..number).unwrap_or(&[]))?;
    for part in parts {
        whole.push(part)?;
    }
    if change != Change::Fronts {
        add_pages(
            alloc,
            &mut whole,
            pages.get(number.saturating_add(1)..).unwrap_or(&[]),
        )?;
    }
    Ok(whole)
}

/// Adds copies of pages.
fn add_pages(alloc: Global, whole: &mut Vec<Vec<u8>>, pages: &[Vec<u8>]) -> Result<(), AllocError> {
    for page in pages {
        whole.push(Vec::from_slice(alloc, page.as_slice())?)?;
    }
    Ok(())
}
