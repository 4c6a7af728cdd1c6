//! Changes of bytes.

use seeded_choices::Chance;
use std::alloc::{AllocError, Global};

/// The most bytes that a change adds where it adds few.
const FEW: usize = 40;

/// The most bytes of what is changed where little is.
const LITTLE: usize = 8;

/// The bytes with one change: a byte is another, some are cut out, doubled, exchanged with all behind them, or some are
/// put in: few, or as many as there are then about `limit`.
pub fn changed(
    alloc: Global,
    chance: &mut Chance,
    bytes: &[u8],
    limit: usize,
) -> Result<Vec<u8>, AllocError> {
    let (first, rest) = halves(bytes, chance.below(bytes.len()));
    let size = if chance.once_in(2) {
        LITTLE
    } else {
        rest.len()
    };
    let (middle, last) = halves(rest, chance.below(size.saturating_add(1)));
    let mut made = Vec::from_slice(alloc, first)?;
    match chance.below(5) {
        0 => add_other_byte(chance, &mut made, rest)?,
        1 => made.extend_from_slice(last)?,
        2 => add_both(&mut made, middle, rest)?,
        3 => add_both(&mut made, last, middle)?,
        _ => {
            let count = count_of_added(chance, bytes.len(), limit);
            add_some(&mut made, chance.byte(), count)?;
            made.extend_from_slice(rest)?;
        }
    }
    Ok(made)
}

/// Adds bytes of which the first is another.
fn add_other_byte(chance: &mut Chance, made: &mut Vec<u8>, bytes: &[u8]) -> Result<(), AllocError> {
    match bytes {
        [byte, behind @ ..] => {
            made.push(*byte ^ chance.byte())?;
            made.extend_from_slice(behind)
        }
        [] => Ok(()),
    }
}

/// Adds bytes, and others behind them.
fn add_both(made: &mut Vec<u8>, bytes: &[u8], others: &[u8]) -> Result<(), AllocError> {
    made.extend_from_slice(bytes)?;
    made.extend_from_slice(others)
}

/// How many bytes are put in: few, or as many as there are then about `limit`.
fn count_of_added(chance: &mut Chance, size: usize, limit: usize) -> usize {
    match chance.below(8) {
        0 => chance.below(limit),
        1 => about(chance, limit).saturating_sub(size),
        _ => chance.below(FEW),
    }
}

/// The limit, one less, or one more.
fn about(chance: &mut Chance, limit: usize) -> usize {
    limit.saturating_add(chance.below(3)).saturating_sub(1)
}

/// The bytes up to a place, and those behind it.
pub fn halves(bytes: &[u8], place: usize) -> (&[u8], &[u8]) {
    bytes.split_at(place.min(bytes.len()))
}

/// Adds so many of a byte.
fn add_some(bytes: &mut Vec<u8>, byte: u8, count: usize) -> Result<(), AllocError> {
    for _ in 0..count {
        bytes.push(byte)?;
    }
    Ok(())
}
