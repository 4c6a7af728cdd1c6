//! Steps, played and judged.

use super::order::judge_orders;
use super::show;
use super::sums::Sums;
use closed_world::WorldStep;
use gate_audit::{Played, play};
use gate_settings::Settings;
use order_accounts::ReadingFault;
use random_world::counts_of;
use std::alloc::{AllocError, Global};
use std::io::{self, ErrorKind};

/// Steps to be played, and their name.
#[derive(Clone, Copy)]
pub struct Named<'a> {
    pub name: &'a [u8],
    pub settings: &'a Settings,
    pub steps: &'a [WorldStep],
    /// How many of the steps are counted.
    pub counted: u64,
}

/// Plays steps, and adds what came of them to sums. What isn't right has a line of its own, behind the name.
pub fn judge(
    alloc: Global,
    named: Named<'_>,
    sums: &mut Sums,
    shown: &mut Vec<u8>,
) -> io::Result<Played> {
    let played = played_of(alloc, named)?;
    judge_played(alloc, named, &played, sums, shown)?;
    Ok(played)
}

/// The same of what came of them.
fn judge_played(
    alloc: Global,
    named: Named<'_>,
    played: &Played,
    sums: &mut Sums,
    shown: &mut Vec<u8>,
) -> Result<(), AllocError> {
    let counts = counts_of(alloc, named.counted, played)?;
    if !counts.is_right() {
        shown.extend_from_slice(named.name)?;
        show(shown, format!(in alloc; ": {counts}\n")?)?;
    }
    sums.add(&counts);
    judge_orders(alloc, named.name, played, sums, shown)
}

/// What comes of steps.
pub fn played_of(alloc: Global, named: Named<'_>) -> io::Result<Played> {
    match play(alloc, named.settings, named.steps) {
        Ok(played) => Ok(played),
        Err(ReadingFault::NoMemory) => Err(io::Error::from(ErrorKind::OutOfMemory)),
        Err(ReadingFault::TooLarge) => Err(io::Error::from(ErrorKind::InvalidData)),
    }
}
