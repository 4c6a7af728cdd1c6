//! Worlds of seeds.

use super::judging::{Named, judge};
use super::show;
use super::sums::Sums;
use random_world::{Shape, random_steps, show_world, world_settings};
use std::alloc::{AllocError, Global};
use std::io;
use wire_bytes::number_of;

/// `FIRST LAST STEPS CLIENTS PORTS`: the worlds of these seeds, and a line of sums; false where the text isn't so. A
/// world that isn't right has a line of its own in front.
pub fn run_seeds(alloc: Global, text: &str, shown: &mut Vec<u8>) -> io::Result<bool> {
    let Some(numbers) = numbers_in(alloc, text)? else {
        return Ok(false);
    };
    let [first, last, steps, clients, ports] = numbers.as_slice() else {
        return Ok(false);
    };
    let mut sums = Sums::none();
    for seed in *first..last.saturating_add(1) {
        let Some(shape) = shape_of(seed, *steps, *clients, *ports) else {
            return Ok(false);
        };
        if !run_seed(alloc, &shape, &mut sums, shown)? {
            return Ok(false);
        }
    }
    show(shown, format!(in alloc; "{sums}\n")?)?;
    Ok(true)
}

/// `SEED STEPS CLIENTS PORTS`: what `gateway world` prints of this world, what it tells on standard error, and its
/// status; false where the text isn't so.
pub fn show_seed(alloc: Global, text: &str, shown: &mut Vec<u8>) -> io::Result<bool> {
    let Some(numbers) = numbers_in(alloc, text)? else {
        return Ok(false);
    };
    let [seed, steps, clients, ports] = numbers.as_slice() else {
        return Ok(false);
    };
    let Some(shape) = shape_of(*seed, *steps, *clients, *ports) else {
        return Ok(false);
    };
    let mut faults = Vec::new(alloc);
    let status = show_world(alloc, &shape, shown, &mut faults);
    shown.extend_from_slice(faults.as_slice())?;
    show(shown, format!(in alloc; "status {status}\n")?)?;
    Ok(true)
}

/// Numbers with spaces between them; `None` of anything else.
fn numbers_in(alloc: Global, text: &str) -> Result<Option<Vec<u64>>, AllocError> {
    let mut numbers = Vec::new(alloc);
    for word in text.as_bytes().split(|byte| *byte == b' ') {
        match number_of(word) {
            Some(number) => numbers.push(number)?,
            None => return Ok(None),
        }
    }
    Ok(Some(numbers))
}

/// The shape of a world; `None` where a number is too large for it.
fn shape_of(seed: u64, steps: u64, clients: u64, ports: u64) -> Option<Shape> {
    Some(Shape {
        seed,
        steps: u32::try_from(steps).ok()?,
        clients: u16::try_from(clients).ok()?,
        ports: u16::try_from(ports).ok()?,
    })
}

/// The world of a seed; false where there are no such settings.
fn run_seed(
    alloc: Global,
    shape: &Shape,
    sums: &mut Sums,
    shown: &mut Vec<u8>,
) -> io::Result<bool> {
    let Some(settings) = world_settings(alloc, shape.clients, shape.ports)? else {
        return Ok(false);
    };
    let steps = random_steps(alloc, &settings, shape)?;
    let name = format!(in alloc; "seed {}", shape.seed)?;
    let named = Named {
        name: name.as_str().as_bytes(),
        settings: &settings,
        steps: steps.as_slice(),
        counted: u64::from(shape.steps),
    };
    let _played = judge(alloc, named, sums, shown)?;
    Ok(true)
}
