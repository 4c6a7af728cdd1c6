//! Where the next SOH stands in a text.

ghost use Rattle.std.specs.Prelude.{◌≡◌, ◌≤◌, ◌<◌, ◌+◌, ◌-◌, List, length, drop, take, IsTrue, MatchOption};
ghost use Rattle.fix_fields.specs.Field.{Field, fields_text};
ghost use Rattle.fix_fields.specs.Front.{soh_behind, sohs, AreEnded};

use crate::text::SOH;
use std::simd::prelude::*;

/// So many bytes are looked at at once.
const LANES: usize = 16;

/// Whether an SOH stands at the end of a text, so that one stands from each place of it on; none needs to stand in an
/// empty one. Fields end so.
pub(crate) fn is_ended(text: &[u8]) -> bool
    ensures ended { IsTrue result → AreEnded text.now }
    ensures fields { (fields : List Field) → fields_text fields ≡ text.now → IsTrue result }
{
    text.is_empty() || text.ends_with(&[SOH])
}

/// How many SOHs stand in a text.
pub(crate) fn soh_count(text: &[u8]) -> usize
    ensures { result ≡ sohs text.now }
{
    if text.len() < LANES {
        return soh_count_by_one(text);
    }
    let mut count = 0usize;
    let mut at = 0usize;
    while LANES <= text.len() - at {
        count += soh_count_of_lanes(text, at);
        at += LANES;
    }
    count + soh_count_of_last(text, text.len() - at)
}

/// The same, byte by byte.
fn soh_count_by_one(text: &[u8]) -> usize
    ensures { result ≡ sohs text.now }
{
    let mut count = 0usize;
    for byte in text {
        if *byte == SOH {
            count += 1;
        }
    }
    count
}

/// How many SOHs stand among sixteen bytes.
fn soh_count_of_lanes(text: &[u8], at: usize) -> usize
    requires { at + 16 ≤ length text.now }
    ensures { result ≡ sohs (take 16 (drop at text.now)) }
{
    u8x16::from_slice(&text[at..])
        .simd_eq(u8x16::splat(SOH))
        .to_bitmask()
        .count_ones() as usize
}

/// How many SOHs stand among so many bytes at the end of a text that has sixteen.
fn soh_count_of_last(text: &[u8], size: usize) -> usize
    requires few { size ≤ 16 }
    requires room { 16 ≤ length text.now }
    ensures { result ≡ sohs (drop (length text.now - size) text.now) }
{
    let marks = u8x16::from_slice(&text[text.len() - LANES..])
        .simd_eq(u8x16::splat(SOH))
        .to_bitmask();
    (marks >> (LANES - size)).count_ones() as usize
}

/// Where the first SOH stands from `start` on, where one stands there: sixteen bytes are looked at at once, as long as
/// there are so many. Mostly it stands among the first sixteen.
pub(crate) fn next_soh(text: &[u8], start: usize) -> usize
    requires { soh_behind text.now start < length text.now }
    ensures { result ≡ soh_behind text.now start }
{
    if start + LANES > text.len() {
        return next_soh_by_one(text, start);
    }
    match soh_among(text, start) {
        Some(size) => start + size,
        None => next_soh_further(text, start + LANES),
    }
}

/// The same, wherever it stands.
fn next_soh_further(text: &[u8], start: usize) -> usize
    requires { soh_behind text.now start < length text.now }
    ensures { result ≡ soh_behind text.now start }
{
    let mut end = start;
    while end + LANES <= text.len() {
        if let Some(size) = soh_among(text, end) {
            return end + size;
        }
        end += LANES;
    }
    next_soh_by_one(text, end)
}

/// The same, byte by byte.
fn next_soh_by_one(text: &[u8], start: usize) -> usize
    requires { soh_behind text.now start < length text.now }
    ensures { result ≡ soh_behind text.now start }
{
    let mut end = start;
    while text[end] != SOH {
        end += 1;
    }
    end
}

/// How many bytes stand before the first SOH among sixteen; `None` where there is none.
fn soh_among(text: &[u8], at: usize) -> Option<usize>
    requires { at + 16 ≤ length text.now }
    ensures { MatchOption result (soh_behind text.now at ≡ soh_behind text.now (at + 16))
        (λ size. at + size ≡ soh_behind text.now at) }
{
    let marks = u8x16::from_slice(&text[at..])
        .simd_eq(u8x16::splat(SOH))
        .to_bitmask();
    if marks == 0 {
        None
    } else {
        Some(marks.trailing_zeros() as usize)
    }
}
