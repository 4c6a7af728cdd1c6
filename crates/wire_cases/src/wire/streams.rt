//! Streams in pieces of each size and cut at each place, taken from a reader in each of its ways.

use super::reader::{Counts, Front, UnitReader, Way};
use case_lines::shown;
use std::alloc::{AllocError, Global};

const WAYS: [Way; 3] = [Way::Fed, Way::Lent, Way::Moved];

/// Sizes of pieces.
const SIZES: [usize; 5] = [1, 2, 3, 7, 4_096];

/// What a call on a stream answers.
pub fn answer<U: UnitReader + Drop>(
    alloc: Global,
    call: &str,
    bytes: &[u8],
) -> Result<Option<String>, AllocError> {
    let answer = match call {
        "reads" => reads::<U>(alloc, bytes)?,
        "each-cut" => verdict(alloc, is_read_in_each_cut::<U>(alloc, bytes)?)?,
        "thousand" => verdict(alloc, are_a_thousand_read::<U>(alloc, bytes)?)?,
        "fronts" => fronts::<U>(alloc, bytes)?,
        _ => return Ok(None),
    };
    Ok(Some(answer))
}

/// `right`, or that it is not.
pub fn verdict(alloc: Global, is_right: bool) -> Result<String, AllocError> {
    String::from_str(alloc, if is_right { "right" } else { "WRONG" })
}

/// What came of a stream.
#[derive(Drop)]
struct Seen {
    /// The bytes of all units, one behind another.
    units: Vec<u8>,
    counts: Counts,
    /// Whether nothing more is taken, whatever comes.
    is_over: bool,
}

/// Whether a reader takes nothing more, whatever comes: nothing, a whole unit, or a byte.
fn is_over<U: UnitReader + Drop>(alloc: Global, reader: &mut U) -> Result<bool, AllocError> {
    let mut none = Vec::new(alloc);
    for piece in &[b"".as_slice(), U::unit(), b"x"] {
        if reader.take(alloc, Way::Fed, piece, &mut none)? {
            return Ok(false);
        }
        if reader.take(alloc, Way::Moved, piece, &mut none)? || reader.go_on() {
            return Ok(false);
        }
    }
    Ok(none.is_empty())
}

/// What comes of a stream in pieces of one size.
fn read<U: UnitReader + Drop>(
    alloc: Global,
    way: Way,
    stream: &[u8],
    size: usize,
) -> Result<Seen, AllocError> {
    let mut reader = U::begun(alloc);
    let mut units = Vec::new(alloc);
    for piece in stream.chunks(size.max(1)) {
        reader.take(alloc, way, piece, &mut units)?;
    }
    let (counts, is_over) = (reader.counts(), is_over(alloc, &mut reader)?);
    Ok(Seen {
        units,
        counts,
        is_over,
    })
}

/// The units that a stream gives in pieces of each size and in each way, how many bytes are skipped, and whether it is
/// over then; `otherwise` where two of them differ.
fn reads<U: UnitReader + Drop>(alloc: Global, stream: &[u8]) -> Result<String, AllocError> {
    let whole = read::<U>(alloc, Way::Fed, stream, stream.len())?;
    for size in &SIZES {
        for way in &WAYS {
            if !is_same(&whole, &read::<U>(alloc, *way, stream, *size)?) {
                return String::from_str(alloc, "otherwise");
            }
        }
    }
    let units = shown(alloc, whole.units.as_slice())?;
    let end = if whole.is_over { ", over" } else { "" };
    format!(in alloc; "[{units}] skipped {}{end}", whole.counts.skipped)
}

/// Whether the same came of a stream.
fn is_same(one: &Seen, other: &Seen) -> bool {
    one.units.as_slice() == other.units.as_slice()
        && one.counts.skipped == other.counts.skipped
        && one.is_over == other.is_over
}

/// Whether a stream of whole units gives them in three pieces, cut at any two places, in each way.
fn is_read_in_each_cut<U: UnitReader + Drop>(
    alloc: Global,
    stream: &[u8],
) -> Result<bool, AllocError> {
    for i in 0..=stream.len() {
        for j in i..=stream.len() {
            if !is_read_cut::<U>(alloc, stream, i, j)? {
                return Ok(false);
            }
        }
    }
    Ok(true)
}

/// The same of these two places.
fn is_read_cut<U: UnitReader + Drop>(
    alloc: Global,
    stream: &[u8],
    i: usize,
    j: usize,
) -> Result<bool, AllocError> {
    let (front, last) = stream.split_at(j.min(stream.len()));
    let (first, middle) = front.split_at(i.min(front.len()));
    for way in &WAYS {
        if !is_read_from::<U>(alloc, *way, &[first, middle, last], stream)? {
            return Ok(false);
        }
    }
    Ok(true)
}

/// Whether these pieces give these units, and nothing is skipped.
fn is_read_from<U: UnitReader + Drop>(
    alloc: Global,
    way: Way,
    pieces: &[&[u8]],
    units: &[u8],
) -> Result<bool, AllocError> {
    let mut reader = U::begun(alloc);
    let mut given = Vec::new(alloc);
    for piece in pieces {
        reader.take(alloc, way, piece, &mut given)?;
    }
    Ok(given.as_slice() == units && reader.counts().skipped == 0)
}

/// Whether a thousand of these units are read from pieces of each size and in each way: each byte is fed once and
/// copied twice at most, and byte by byte once.
fn are_a_thousand_read<U: UnitReader + Drop>(
    alloc: Global,
    unit: &[u8],
) -> Result<bool, AllocError> {
    let mut stream = Vec::new(alloc);
    for _ in 0..1_000u32 {
        stream.extend_from_slice(unit)?;
    }
    is_read_in_each_size::<U>(alloc, stream.as_slice())
}

/// The same of a stream.
pub fn is_read_in_each_size<U: UnitReader + Drop>(
    alloc: Global,
    stream: &[u8],
) -> Result<bool, AllocError> {
    for size in &SIZES {
        for way in &WAYS {
            if !is_whole(&read::<U>(alloc, *way, stream, *size)?, stream, *size) {
                return Ok(false);
            }
        }
    }
    Ok(true)
}

/// Whether a stream in pieces of a size gave all of its bytes as units, each copied twice at most.
fn is_whole(seen: &Seen, stream: &[u8], size: usize) -> bool {
    let fed = stream.len() as u64;
    seen.units.as_slice() == stream
        && seen.counts.skipped == 0
        && seen.counts.fed == fed
        && seen.counts.copied <= fed.saturating_mul(2)
        && (size > 1 || seen.counts.copied == fed)
}

/// What stands in front of a reader to which nothing came, and, one after another, of one to which a stream came; then
/// how many bytes it was fed, and how many it skipped.
fn fronts<U: UnitReader + Drop>(alloc: Global, stream: &[u8]) -> Result<String, AllocError> {
    let mut reader = U::begun(alloc);
    let mut answer = String::new(alloc);
    show_front(alloc, &mut reader, &mut answer)?;
    reader.bring(alloc, stream)?;
    show_fronts(alloc, &mut reader, stream.len(), &mut answer)?;
    if is_over(alloc, &mut reader)? {
        answer.push_str(" for good;")?;
    }
    let Counts { fed, skipped, .. } = reader.counts();
    write!(answer, " fed {fed}, skipped {skipped}")?;
    Ok(answer)
}

/// Shows what stands in front, at most so many times.
fn show_fronts<U: UnitReader + Drop>(
    alloc: Global,
    reader: &mut U,
    most: usize,
    answer: &mut String,
) -> Result<(), AllocError> {
    for _ in 0..=most {
        if !show_front(alloc, reader, answer)? {
            return Ok(());
        }
    }
    Ok(())
}

/// Shows what stands in front, where it is the same three times, and passes it: whether a unit did.
fn show_front<U: UnitReader + Drop>(
    alloc: Global,
    reader: &mut U,
    answer: &mut String,
) -> Result<bool, AllocError> {
    let mut text = Vec::new(alloc);
    let front = reader.show_front(&mut text)?;
    let is_same = stands_again(alloc, reader, front, text.as_slice())?
        && stands_again(alloc, reader, front, text.as_slice())?;
    let is_unit = front == Front::Unit;
    if !is_same || reader.go_on() != is_unit {
        answer.push_str("otherwise;")?;
        return Ok(false);
    }
    match front {
        Front::Unit => answer.push_str(shown(alloc, text.as_slice())?.as_str())?,
        Front::Nothing => answer.push_str("nothing")?,
        Front::Over => answer.push_str("over")?,
    }
    answer.push(';')?;
    Ok(is_unit)
}

/// Whether the same stands in front.
fn stands_again<U: UnitReader + Drop>(
    alloc: Global,
    reader: &mut U,
    front: Front,
    text: &[u8],
) -> Result<bool, AllocError> {
    let mut again = Vec::new(alloc);
    Ok(reader.show_front(&mut again)? == front && again.as_slice() == text)
}
