//! What came of changed pages.

use journal_pages::PageFault;
use std::fmt;

/// What reading pages comes to.
#[derive(Clone, Copy, PartialEq, Eq)]
pub enum Outcome {
    /// They are refused: the number of the page, and why.
    Refused(u32, PageFault),
    /// They are a history, and its events and batches, pushed again, are the same records; or a page that is written as
    /// it was read.
    Read,
    /// They are a history whose events and batches are other records, or a page that is written otherwise.
    Other,
}

/// How many pages were refused, by why, how many were read, and how many otherwise than they are to be: head, kind, cut
/// short, payload, order, number, read, wrong.
#[derive(Clone, Copy)]
pub struct Tally {
    counts: [u64; 8],
}

impl Tally {
    /// Nothing was read.
    pub fn new() -> Tally {
        Tally { counts: [0; 8] }
    }

    /// Counts what came of pages that are the same as before up to a page of this number, which is refused first.
    pub fn count(&mut self, outcome: Outcome, from: usize) {
        if let Some(count) = self.counts.get_mut(place_of(outcome, from)) {
            *count = count.saturating_add(1);
        }
    }
}

/// Where an outcome is counted.
fn place_of(outcome: Outcome, from: usize) -> usize {
    match outcome {
        Outcome::Refused(page, fault) if page as usize >= from => place_of_fault(fault),
        Outcome::Read => 6,
        _ => 7,
    }
}

/// Where a fault is counted. Memory isn't to run out.
fn place_of_fault(fault: PageFault) -> usize {
    match fault {
        PageFault::Head => 0,
        PageFault::Kind => 1,
        PageFault::CutShort => 2,
        PageFault::Payload => 3,
        PageFault::Order => 4,
        PageFault::Number => 5,
        PageFault::NoMemory => 7,
    }
}

impl fmt::Display for Tally {
    fn fmt<W: fmt::Write>(&self, f: &mut fmt::Formatter<W>) -> fmt::Result {
        let [head, kind, cut_short, payload, order, number, read, wrong] = self.counts;
        write!(
            f,
            "refused: head {head}, kind {kind}, cut short {cut_short}, "
        )?;
        write!(f, "payload {payload}, order {order}, number {number}")?;
        write!(f, "; read: {read}; wrong: {wrong}")
    }
}
