//! A closed world of a seed, played.

use super::{out_of_memory, refused};
use command_lines::number_between;
use random_world::{Shape, show_world};
use std::io::{self, BufWriter};
use std::process::ExitCode;

/// The world that is asked for, or the status where a number of it is out of its range.
pub(crate) fn asked_shape(
    rt: &HostRuntime,
    seed: &str,
    steps: &str,
    clients: Option<&str>,
    ports: Option<&str>,
) -> Result<Shape, ExitCode> {
    let Some(seed) = number_between(seed, 0, u64::MAX) else {
        return Err(refused(rt, "--seed is a number from 0 to 18446744073709551615"));
    };
    let Some(steps) = number_between(steps, 1, 10_000) else {
        return Err(refused(rt, "--steps is a number from 1 to 10000"));
    };
    let Some(clients) = number_between(clients.unwrap_or("4"), 1, 64) else {
        return Err(refused(rt, "--clients is a number from 1 to 64"));
    };
    let Some(ports) = number_between(ports.unwrap_or("2"), 1, 16) else {
        return Err(refused(rt, "--ports is a number from 1 to 16"));
    };
    Ok(Shape {
        seed,
        steps: steps as u32,
        clients: clients as u16,
        ports: ports as u16,
    })
}

/// Plays a closed world, prints what came of it, and gives the status to end with.
pub(crate) fn play_world(rt: &HostRuntime, shape: &Shape) -> ExitCode {
    let alloc = rt.alloc();
    let Ok(mut output) = BufWriter::new(alloc, io::writer(rt)) else {
        return out_of_memory(rt);
    };
    ExitCode::from(show_world(alloc, shape, &mut output, &mut rt.stderr()))
}
