//! A stream without an end, read to the last step.

use super::gate::Kept;
use super::tally::print_count;
use gate_events::ClientNumber;
use link_io::{ClientReader, LinkFault, Progress};
use seeded_choices::Chance;
use std::alloc::{AllocError, Global};
use std::io::{self, Read};

/// A stream that gives `x` for ever, a byte a read.
#[derive(Drop)]
struct Endless {
    reads: u64,
}

impl Read for Endless {
    fn read(&mut self, buf: &mut [u8]) -> io::Result<usize> {
        self.reads = self.reads.saturating_add(1);
        match buf {
            [place, ..] => {
                *place = b'x';
                Ok(1)
            }
            [] => Ok(0),
        }
    }
}

/// What a reader of so many steps did.
#[derive(Clone, Copy)]
pub struct LastStep {
    /// The bytes of all steps, and how many reads were made, up to the step behind the last one.
    bytes: u64,
    reads: u64,
    /// The step that answered a fault, from 1, and the fault's number; 0 where none did, or the step behind it
    /// answered another.
    step: u64,
    fault: u8,
}

impl LastStep {
    /// Shows it.
    pub fn show(self, shown: &mut Vec<u8>) -> Result<(), AllocError> {
        print_count(shown, self.bytes, b" bytes by ")?;
        print_count(shown, self.reads, b" reads, step ")?;
        print_count(shown, self.step, b" is fault ")?;
        print_count(shown, u64::from(self.fault), b"\n")
    }
}

/// Steps a client's reader that has so many steps, 1 at least, over `x` for ever up to its fault, and once more.
pub fn read_endless(alloc: Global, steps: u64) -> LastStep {
    let mut stream = Endless { reads: 0 };
    let mut gate = Kept::new(alloc, Chance::of(0, 0), 2);
    let mut reader = ClientReader::new(alloc, ClientNumber::new(3), 7, steps.max(1));
    let mut last = LastStep {
        bytes: 0,
        reads: 0,
        step: 0,
        fault: 0,
    };
    for step in 1..=steps.max(1) {
        match reader.step(alloc, &mut stream, &mut gate, step) {
            Ok(Progress::Read(count)) => last.bytes = last.bytes.saturating_add(count as u64),
            Ok(_) => {}
            Err(fault) => {
                last.step = step;
                last.fault = fault.number();
                break;
            }
        }
    }
    let again = reader.step(alloc, &mut stream, &mut gate, steps);
    if again != Err(LinkFault::StepLimit) {
        last.fault = 0;
    }
    last.reads = stream.reads;
    last
}
