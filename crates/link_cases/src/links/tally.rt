//! What came of the streams of a seed.

use std::alloc::AllocError;

/// How many streams there were, what was in them, and how many were read or written otherwise than by the plain
/// program.
#[derive(Clone, Copy)]
pub struct Tally {
    streams: u64,
    units: u64,
    faults: u64,
    differing: u64,
}

impl Tally {
    /// No stream yet.
    pub fn new() -> Tally {
        Tally {
            streams: 0,
            units: 0,
            faults: 0,
            differing: 0,
        }
    }

    /// Counts a stream with so many units.
    pub fn count(&mut self, units: usize, is_fault: bool, is_same: bool) {
        self.streams = self.streams.saturating_add(1);
        self.units = self.units.saturating_add(units as u64);
        self.faults = self.faults.saturating_add(u64::from(is_fault));
        self.differing = self.differing.saturating_add(u64::from(!is_same));
    }

    /// Shows the counts.
    pub fn show(self, shown: &mut Vec<u8>) -> Result<(), AllocError> {
        print_count(shown, self.streams, b" streams, ")?;
        print_count(shown, self.units, b" units, ")?;
        print_count(shown, self.faults, b" faults, ")?;
        print_count(shown, self.differing, b" read or written otherwise\n")
    }
}

/// A number, and what is counted.
pub fn print_count(shown: &mut Vec<u8>, count: u64, of: &[u8]) -> Result<(), AllocError> {
    let mut digits = itoa::Buffer::new();
    shown.extend_from_slice(digits.format(count).as_bytes())?;
    shown.extend_from_slice(of)
}
