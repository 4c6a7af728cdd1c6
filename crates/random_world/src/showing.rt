//! A world of a seed, played and judged.

use crate::counts::{Counts, counts_of};
use crate::maker::random_steps;
use crate::settings::world_settings;
use crate::shape::Shape;
use gate_audit::play;
use gate_settings::Settings;
use order_accounts::ReadingFault;
use std::alloc::Global;
use std::io::{self, ErrorKind, Write};

/// Plays the world of a shape, prints what came of it, counted, and gives the status to end with: 0 where no batch has
/// a fault and all orders agree, 1 where not, where memory runs out or a write fails, 2 where there are no such
/// settings. What is wrong is told in `faults`.
pub fn show_world<W: Write, F: Write>(
    alloc: Global,
    shape: &Shape,
    output: &mut W,
    faults: &mut F,
) -> u8 {
    match shown(alloc, shape, output) {
        Ok(true) => 0,
        Ok(false) => 1,
        Err(error) if error.kind() == ErrorKind::OutOfMemory => told(faults, "out of memory", 1),
        Err(error) if error.kind() == ErrorKind::InvalidInput => {
            told(faults, "gateway: no such clients or ports", 2)
        }
        Err(error) if error.kind() == ErrorKind::InvalidData => {
            told(faults, "an order's account is too large", 1)
        }
        Err(_) => told(faults, "read or write failed", 1),
    }
}

/// Tells what is wrong, and gives this status.
fn told<F: Write>(faults: &mut F, text: &str, status: u8) -> u8 {
    let _ = writeln!(faults, "{text}");
    status
}

/// Plays the world and prints its counts; whether all is right.
fn shown<W: Write>(alloc: Global, shape: &Shape, output: &mut W) -> io::Result<bool> {
    let Some(settings) = world_settings(alloc, shape.clients, shape.ports)? else {
        return Err(io::Error::from(ErrorKind::InvalidInput));
    };
    let counts = played(alloc, &settings, shape)?;
    writeln!(output, "{counts}")?;
    output.flush()?;
    Ok(counts.is_right())
}

/// What came of the world.
fn played(alloc: Global, settings: &Settings, shape: &Shape) -> io::Result<Counts> {
    let steps = random_steps(alloc, settings, shape)?;
    match play(alloc, settings, steps.as_slice()) {
        Ok(played) => Ok(counts_of(alloc, u64::from(shape.steps), &played)?),
        Err(ReadingFault::NoMemory) => Err(io::Error::from(ErrorKind::OutOfMemory)),
        Err(ReadingFault::TooLarge) => Err(io::Error::from(ErrorKind::InvalidData)),
    }
}
