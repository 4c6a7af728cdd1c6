//! When skipped bytes are reported.

use link_io::Gate;

/// How many skipped bytes of a link were reported.
#[derive(Drop)]
pub(crate) struct Skips {
    reported: u64,
}

impl Skips {
    /// For a link of which nothing was read. Takes no memory.
    pub(crate) fn new() -> Skips {
        Skips { reported: 0 }
    }

    /// Reports this count if it is the first, or twice the last one reported.
    pub(crate) fn tell_growth<G: Gate>(&mut self, gate: &G, skipped: u64) {
        if skipped / 2 >= self.reported {
            self.tell_all(gate, skipped);
        }
    }

    /// Reports this count unless it was reported.
    pub(crate) fn tell_all<G: Gate>(&mut self, gate: &G, skipped: u64) {
        if skipped > self.reported {
            gate.tell_skipped(skipped);
            self.reported = skipped;
        }
    }
}
