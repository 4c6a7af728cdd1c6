//! Files of days, audited.

use crate::calls::add_end;
use crate::streams::size_of;
use case_lines::{bytes_of, first_word};
use journal_audit::{audit_file, audit_so_far, script_file};
use script_steps::fixed_settings;
use std::alloc::{AllocError, Global};

/// What a file without an order prints.
const NO_ORDERS: &[u8] = b"orders 0 agree 0\nstatus 0\n";

/// Whether a day is over.
#[derive(Clone, Copy)]
enum Day {
    IsOver,
    GoesOn,
}

/// Makes a call on a file, and adds what it shows; false where there is none of this word.
pub fn day_call(
    alloc: Global,
    script: &[u8],
    file: &mut Vec<u8>,
    word: &str,
    rest: &str,
    shown: &mut Vec<u8>,
) -> Result<bool, AllocError> {
    match word {
        "day" => write_day(alloc, script, file, shown)?,
        "file" => return add_file(alloc, file, rest),
        "twice" => double(alloc, file)?,
        "cut" => file.truncate(file.len().saturating_sub(size_of(rest))),
        "byte" => change_byte(file, rest),
        _ => return audit_call(alloc, file, word, rest, shown),
    }
    Ok(true)
}

/// Audits a file, or each of many, in the way of a word.
fn audit_call(
    alloc: Global,
    file: &mut Vec<u8>,
    word: &str,
    rest: &str,
    shown: &mut Vec<u8>,
) -> Result<bool, AllocError> {
    match word {
        "audit" => audit(alloc, Day::IsOver, file.as_slice(), shown)?,
        "audit-so-far" => audit(alloc, Day::GoesOn, file.as_slice(), shown)?,
        "each-front" => audit_fronts(alloc, Day::IsOver, file.as_slice(), size_of(rest), shown)?,
        "each-front-so-far" => {
            audit_fronts(alloc, Day::GoesOn, file.as_slice(), size_of(rest), shown)?;
        }
        "each-byte" => audit_changed(alloc, file, shown)?,
        _ => return Ok(false),
    }
    Ok(true)
}

/// The file is the day of a script. What is told is shown.
fn write_day(
    alloc: Global,
    script: &[u8],
    file: &mut Vec<u8>,
    shown: &mut Vec<u8>,
) -> Result<(), AllocError> {
    let (mut input, mut told) = (script, Vec::new(alloc));
    file.clear();
    let status = script_file(alloc, &mut input, file, &mut told);
    add_end(shown, told.as_slice(), status)
}

/// The file has these bytes more, or none where none are said; false where they aren't typed so.
fn add_file(alloc: Global, file: &mut Vec<u8>, typed: &str) -> Result<bool, AllocError> {
    if typed.is_empty() {
        file.clear();
        return Ok(true);
    }
    match bytes_of(alloc, typed)? {
        Some(bytes) => {
            file.extend_from_slice(bytes.as_slice())?;
            Ok(true)
        }
        None => Ok(false),
    }
}

/// The file stands once more behind itself.
fn double(alloc: Global, file: &mut Vec<u8>) -> Result<(), AllocError> {
    let once = Vec::from_slice(alloc, file.as_slice())?;
    file.extend_from_slice(once.as_slice())
}

/// `PLACE VALUE`: a byte is another.
fn change_byte(file: &mut Vec<u8>, asked: &str) {
    let (place, value) = first_word(asked);
    if let Some(byte) = file.get_mut(size_of(place)) {
        *byte = value.parse::<u8>().unwrap_or(0);
    }
}

/// Audits a file of a day of the fixed settings.
fn audit(alloc: Global, day: Day, file: &[u8], shown: &mut Vec<u8>) -> Result<(), AllocError> {
    let settings = fixed_settings(alloc)?;
    let (mut input, mut told) = (file, Vec::new(alloc));
    let status = match day {
        Day::IsOver => audit_file(alloc, &mut input, &settings, shown, &mut told),
        Day::GoesOn => audit_so_far(alloc, &mut input, &settings, shown, &mut told),
    };
    add_end(shown, told.as_slice(), status)
}

/// Audits a file that is cut short after each number of its bytes from this on.
fn audit_fronts(
    alloc: Global,
    day: Day,
    file: &[u8],
    from: usize,
    shown: &mut Vec<u8>,
) -> Result<(), AllocError> {
    for size in from..file.len() {
        shown.extend_from_slice(format!(in alloc; "{size}: ")?.as_bytes())?;
        audit(alloc, day, file.get(..size).unwrap_or(&[]), shown)?;
    }
    Ok(())
}

/// Audits a file with each byte changed in turn, and shows how many of these aren't refused.
fn audit_changed(alloc: Global, file: &mut Vec<u8>, shown: &mut Vec<u8>) -> Result<(), AllocError> {
    let mut passed = 0u64;
    for place in 0..file.len() {
        turn_bit(file, place);
        if has_no_orders(alloc, file.as_slice())? {
            passed = passed.saturating_add(1);
        }
        turn_bit(file, place);
    }
    shown.extend_from_slice(format!(in alloc; "{passed} of {} are read\n", file.len())?.as_bytes())
}

/// The last bit of a byte is the other.
fn turn_bit(file: &mut Vec<u8>, place: usize) {
    if let Some(byte) = file.get_mut(place) {
        *byte ^= 1;
    }
}

/// Whether a file is read, and has no orders.
fn has_no_orders(alloc: Global, file: &[u8]) -> Result<bool, AllocError> {
    let mut shown = Vec::new(alloc);
    audit(alloc, Day::IsOver, file, &mut shown)?;
    Ok(shown.as_slice() == NO_ORDERS)
}
