//! Desks of the fixed settings: steps that are written out; a reader's gate that writes what it has told; two threads
//! at once.

mod both;
mod steps;
mod writers;

use crate::scripts::push_said;
pub use both::left_by_both;
use std::alloc::{AllocError, Global};
use std::sync::Wait;
use std::time::Clock;
use steps::show_steps;
use writers::show_writer;

/// The steps of a desk, each a line, so far.
#[derive(Drop)]
pub struct Desks {
    steps: Vec<u8>,
}

impl Desks {
    /// No step yet. Takes no memory.
    pub fn new(alloc: Global) -> Desks {
        Desks {
            steps: Vec::new(alloc),
        }
    }

    /// Does what a line says, and shows what comes of it.
    pub fn take<R: Wait + Clock>(
        &mut self,
        rt: &R,
        alloc: Global,
        line: &str,
        shown: &mut Vec<u8>,
    ) -> Result<(), AllocError> {
        match line {
            "end" => {
                show_steps(rt, alloc, self.steps.as_slice(), shown)?;
                self.steps.clear();
                Ok(())
            }
            "writer" => show_writer(rt, alloc, shown),
            _ => push_said(&mut self.steps, line.as_bytes()),
        }
    }
}

/// Shows a word and a number.
fn show(shown: &mut Vec<u8>, word: &str, number: u64) -> Result<(), AllocError> {
    let mut digits = itoa::Buffer::new();
    shown.extend_from_slice(word.as_bytes())?;
    shown.push(b' ')?;
    shown.extend_from_slice(digits.format(number).as_bytes())?;
    shown.push(b'\n')?;
    Ok(())
}
