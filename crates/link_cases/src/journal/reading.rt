//! Pages, read, and what they say written again.

use super::records::{front_size, split};
use super::tally::Outcome;
use gate_events::{Batch, Event};
use gate_journal::History;
use journal_pages::{Page, PageFault};
use std::alloc::{AllocError, Global};
use wire_law::WholeWire;

/// What pages are read as.
#[derive(Clone, Copy)]
pub enum Reader {
    /// The pages of a day.
    Day,
    /// The first of them alone.
    Page,
}

/// What reading pages comes to.
pub fn outcome(alloc: Global, reader: Reader, pages: &[Vec<u8>]) -> Result<Outcome, AllocError> {
    match (reader, pages) {
        (Reader::Page, [page, ..]) => outcome_of_page(alloc, page.as_slice()),
        _ => outcome_of_day(alloc, pages),
    }
}

/// What reading a text as a page comes to, and reading it as such a value: both are to refuse it, or neither.
fn outcome_of_page(alloc: Global, text: &[u8]) -> Result<Outcome, AllocError> {
    let is_value = Page::get(alloc, text)?.is_some();
    match Page::read(alloc, text) {
        Err(PageFault::NoMemory) => Err(AllocError),
        Err(fault) if !is_value => Ok(Outcome::Refused(0, fault)),
        Ok(page) if is_value => outcome_written(alloc, &page, text),
        _ => Ok(Outcome::Other),
    }
}

/// What a page comes to that was read from this text.
fn outcome_written(alloc: Global, page: &Page, text: &[u8]) -> Result<Outcome, AllocError> {
    let mut bytes = Vec::new(alloc);
    page.put(&mut bytes)?;
    if bytes.as_slice() == text {
        Ok(Outcome::Read)
    } else {
        Ok(Outcome::Other)
    }
}

/// What reading the pages of a day comes to.
fn outcome_of_day(alloc: Global, pages: &[Vec<u8>]) -> Result<Outcome, AllocError> {
    match History::read(alloc, pages) {
        Err((_, PageFault::NoMemory)) => Err(AllocError),
        Err((page, fault)) => Ok(Outcome::Refused(page, fault)),
        Ok(history) => outcome_of(alloc, &history, pages),
    }
}

/// What pages come to that are this history.
fn outcome_of(alloc: Global, history: &History, pages: &[Vec<u8>]) -> Result<Outcome, AllocError> {
    let again = pushed_again(alloc, history)?;
    if has_records(alloc, again.pages(), pages)? {
        Ok(Outcome::Read)
    } else {
        Ok(Outcome::Other)
    }
}

/// A history of the same events and batches, pushed one by one.
pub fn pushed_again(alloc: Global, history: &History) -> Result<History, AllocError> {
    let mut again = History::new(alloc);
    push_all(alloc, history, &mut again)?;
    Ok(again)
}

/// Pushes the events and batches of a history into another one.
fn push_all(alloc: Global, history: &History, again: &mut History) -> Result<(), AllocError> {
    let events = history.events(alloc)?;
    let batches = history.batches(alloc)?;
    push_each(events.as_slice(), batches.as_slice(), again)
}

/// Pushes events, each with its batch.
fn push_each(events: &[Event], batches: &[Batch], again: &mut History) -> Result<(), AllocError> {
    for (event, batch) in events.iter().zip(batches) {
        again.push(event, batch)?;
    }
    Ok(())
}

/// Whether pages have the same records as others, one behind another.
pub fn has_records(
    alloc: Global,
    pages: &[Vec<u8>],
    others: &[Vec<u8>],
) -> Result<bool, AllocError> {
    Ok(records_in(alloc, pages)? == records_in(alloc, others)?)
}

/// The records of pages, one behind another.
fn records_in(alloc: Global, pages: &[Vec<u8>]) -> Result<Vec<u8>, AllocError> {
    let mut records = Vec::new(alloc);
    for page in pages {
        let (_, behind) = split(page.as_slice(), front_size(page.as_slice()));
        records.extend_from_slice(behind)?;
    }
    Ok(records)
}
