//! Lists of what links are told, and what goes out on one of them.

use super::gate::Kept;
use super::recorded::one_of;
use super::streams::Torn;
use super::tally::Tally;
use gate_events::{LinkOut, ShortList};
use link_io::{BatchWriter, LinkFault};
use seeded_choices::Chance;
use std::alloc::{AllocError, Global};

/// The number of the client or port, and its link.
const NUMBER: u16 = 3;

const LINK: u64 = 7;

/// More steps than any lists take.
const STEPS: u64 = 100_000;

/// The most lists, and the most that a list has.
const MOST_LISTS: usize = 100;

const MOST_OUTS: usize = 5;

/// Writes lists by chance to a link that takes few bytes a write and fails at times, and counts it: whether what went
/// out is what the lists told the link up to one that closes it, or, where a write failed, a beginning of that.
pub fn write_lists(
    alloc: Global,
    chance: &mut Chance,
    units: &[Vec<u8>],
    tally: &mut Tally,
) -> Result<(), AllocError> {
    let lists = lists_of(alloc, chance, units)?;
    let expected = expected_of(alloc, lists.as_slice())?;
    write_expected(alloc, chance, lists, &expected, tally)
}

/// What lists tell the link, and whether one closes it.
#[derive(Drop)]
struct Expected {
    bytes: Vec<u8>,
    is_closing: bool,
}

/// What the lists tell the link, the last list first, up to one that closes it.
fn expected_of(alloc: Global, lists: &[ShortList<LinkOut>]) -> Result<Expected, AllocError> {
    let mut bytes = Vec::new(alloc);
    let is_closing = tell_all(lists, &mut bytes)?;
    Ok(Expected { bytes, is_closing })
}

/// Writes lists that tell the link this, and counts them.
fn write_expected(
    alloc: Global,
    chance: &mut Chance,
    lists: Vec<ShortList<LinkOut>>,
    expected: &Expected,
    tally: &mut Tally,
) -> Result<(), AllocError> {
    let count = lists.len();
    let mut output = torn(alloc, chance, expected.bytes.len())?;
    let mut gate = Kept::new(alloc, chance.next(), 2);
    gate.lists = lists;
    let ended = write_all(alloc, &mut output, &mut gate);
    let is_same = is_written(ended, expected, output.taken.as_slice());
    tally.count(count, ended.is_none(), is_same);
    Ok(())
}

/// A writer of so many bytes in all.
fn torn(alloc: Global, chance: &mut Chance, size: usize) -> Result<Torn, AllocError> {
    Ok(Torn {
        taken: Vec::with_capacity(alloc, size)?,
        chance: chance.next(),
        most: if chance.once_in(2) { 3 } else { 5_000 },
        fails_once_in: if chance.once_in(2) { 20 } else { 1_000_000 },
    })
}

/// Whether these bytes are what was told, where the link was closed or nothing was left, or a beginning of that.
fn is_written(ended: Option<bool>, expected: &Expected, taken: &[u8]) -> bool {
    match ended {
        Some(is_closed) => is_closed == expected.is_closing && taken == expected.bytes.as_slice(),
        None => expected.bytes.as_slice().starts_with(taken),
    }
}

/// Steps a writer until nothing is left or the link is closed, which is answered; `None` where a write failed. Where
/// memory runs out it is stepped again.
fn write_all(alloc: Global, output: &mut Torn, gate: &mut Kept) -> Option<bool> {
    let mut writer = BatchWriter::new(alloc, NUMBER, LINK, STEPS);
    for _ in 0..STEPS {
        match writer.step(alloc, output, gate) {
            Ok(wrote) if wrote.closed => return Some(true),
            Ok(wrote) if !wrote.taken && gate.lists.is_empty() => return Some(false),
            Ok(_) => {}
            Err(LinkFault::NoMemory) => {}
            Err(_) => return None,
        }
    }
    None
}

/// Lists by chance, of which the last is taken first.
fn lists_of(
    alloc: Global,
    chance: &mut Chance,
    units: &[Vec<u8>],
) -> Result<Vec<ShortList<LinkOut>>, AllocError> {
    let mut lists = Vec::new(alloc);
    for _ in 0..chance.below(MOST_LISTS) {
        lists.push(list_of(alloc, chance, units)?)?;
    }
    Ok(lists)
}

/// A list by chance.
fn list_of(
    alloc: Global,
    chance: &mut Chance,
    units: &[Vec<u8>],
) -> Result<ShortList<LinkOut>, AllocError> {
    let mut list = ShortList::new();
    for _ in 0..chance.below(MOST_OUTS) {
        list.push(alloc, out_of(alloc, chance, units)?)?;
    }
    Ok(list)
}

/// What a link is told, by chance.
fn out_of(alloc: Global, chance: &mut Chance, units: &[Vec<u8>]) -> Result<LinkOut, AllocError> {
    let link = if chance.once_in(3) { 8 } else { LINK };
    if chance.once_in(100) {
        return Ok(LinkOut::Close { link });
    }
    let bytes = Vec::from_slice(alloc, one_of(chance, units))?;
    Ok(LinkOut::Write { link, bytes })
}

/// What the lists tell the link, the last list first, up to one that closes it; whether one does.
fn tell_all(lists: &[ShortList<LinkOut>], expected: &mut Vec<u8>) -> Result<bool, AllocError> {
    for list in lists.iter().rev() {
        if tell(list.as_slice(), expected)? {
            return Ok(true);
        }
    }
    Ok(false)
}

/// What a list tells the link; whether it closes it.
fn tell(list: &[LinkOut], expected: &mut Vec<u8>) -> Result<bool, AllocError> {
    let mut is_closing = false;
    for out in list {
        match out {
            LinkOut::Write { link, bytes } if *link == LINK => {
                expected.extend_from_slice(bytes.as_slice())?;
            }
            LinkOut::Close { link } if *link == LINK => is_closing = true,
            _ => {}
        }
    }
    Ok(is_closing)
}
