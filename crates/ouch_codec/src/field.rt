//! One field at its offset, read or written. The only place that knows numbers to be big-endian.
//!
//! A field whose set has not all bytes is read as an `Option`: `None` where the bytes aren't in the set.
//!
//! Source: OUCH 4.2, "Data Types".

ghost use Rattle.std.specs.Prelude.{◌≡◌, ◌+◌, ◌≤◌, ◌++◌, ◌↔◌, length, take, drop, true, IsTrue};
ghost use Rattle.std.specs.List.{flat_map};
ghost use Rattle.std.specs.Int.{w32, w64, from_be_bytes, to_be_bytes};
ghost use Rattle.ouch_codec.specs.Layout.{is_in};
ghost use Rattle.ouch_codec.specs.Reading.{field_bytes, Reads};
ghost use Rattle.ouch_codec.specs.declared.layout.Kind.TheVariants.{Constant, SideLetter, OrderStateLetter, Printable};
ghost use Rattle.ouch_codec.specs.declared.layout.Kind.TheVariants.{Text, Shares, IntendedShares};

use crate::order_state::OrderState;
use crate::side::Side;
use wire_law::{MOST_SHARES, are_printable, is_printable};

/// The four bytes of a number.
pub fn number_bytes(number: u32) -> [u8; 4]
    ensures { result ≡ to_be_bytes w32 number }
{
    number.to_be_bytes()
}

/// The eight bytes of a long number.
pub fn long_number_bytes(number: u64) -> [u8; 8]
    ensures { result ≡ to_be_bytes w64 number }
{
    number.to_be_bytes()
}

/// The number of the four bytes from `at` on.
pub fn number_at(bytes: &[u8], at: usize) -> u32
    requires { at + 4 ≤ length bytes.now }
    ensures { result ≡ from_be_bytes w32 (take 4 (drop at bytes.now)) }
{
    u32::from_be_bytes([bytes[at], bytes[at + 1], bytes[at + 2], bytes[at + 3]])
}

/// The number of the eight bytes from `at` on.
pub fn long_number_at(bytes: &[u8], at: usize) -> u64
    requires { at + 8 ≤ length bytes.now }
    ensures { result ≡ from_be_bytes w64 (take 8 (drop at bytes.now)) }
{
    u64::from_be_bytes([
        bytes[at],
        bytes[at + 1],
        bytes[at + 2],
        bytes[at + 3],
        bytes[at + 4],
        bytes[at + 5],
        bytes[at + 6],
        bytes[at + 7],
    ])
}

/// The shares of an order at an offset, or `None` where they aren't 1 to 999,999.
pub fn shares_at(bytes: &[u8], at: usize) -> Option<u32>
    requires { at + 4 ≤ length bytes.now }
    ensures { Reads Shares at bytes.now result }
{
    let shares = number_at(bytes, at);
    if (1..=MOST_SHARES).contains(&shares) {
        Some(shares)
    } else {
        None
    }
}

/// The intended shares of a cancel at an offset, or `None` where they are more than 999,999.
pub fn intended_shares_at(bytes: &[u8], at: usize) -> Option<u32>
    requires { at + 4 ≤ length bytes.now }
    ensures { Reads IntendedShares at bytes.now result }
{
    let shares = number_at(bytes, at);
    if shares <= MOST_SHARES {
        Some(shares)
    } else {
        None
    }
}

/// The printable byte at an offset, or `None` where it is another.
pub fn printable_at(bytes: &[u8], at: usize) -> Option<u8>
    requires { at + 1 ≤ length bytes.now }
    ensures { Reads Printable at bytes.now result }
{
    let byte = bytes[at];
    if is_printable(byte) { Some(byte) } else { None }
}

/// The text of `N` bytes at an offset, its padding included, or `None` where one of them isn't printable.
///
/// It is always inlined: a text that is given through memory costs more than its test.
#[inline(always)]
pub fn text_at<const N: usize>(bytes: &[u8], at: usize) -> Option<[u8; N]>
    requires { at + N ≤ length bytes.now }
    ensures { Reads (Text N) at bytes.now result }
{
    let mut text = [0; N];
    text.copy_from_slice(&bytes[at..at + N]);
    if are_printable(&text) {
        Some(text)
    } else {
        None
    }
}

/// The side whose letter stands at an offset, or `None` where it is no side's.
pub fn side_at(bytes: &[u8], at: usize) -> Option<Side>
    requires { at + 1 ≤ length bytes.now }
    ensures { Reads SideLetter at bytes.now result }
{
    Side::of_letter(bytes[at])
}

/// The order state whose letter stands at an offset, or `None` where it is neither's.
pub fn order_state_at(bytes: &[u8], at: usize) -> Option<OrderState>
    requires { at + 1 ≤ length bytes.now }
    ensures { Reads OrderStateLetter at bytes.now result }
{
    OrderState::of_letter(bytes[at])
}

/// Whether the bytes are as many as a message of this type has, and begin with its letter.
pub fn is_of_type(bytes: &[u8], letter: u8, len: usize) -> bool
    requires { 1 ≤ len }
    ensures { IsTrue result ↔ (length bytes.now ≡ len)
        × (is_in (Constant letter) (field_bytes (Constant letter) 0 bytes.now) ≡ true) }
{
    bytes.len() == len && bytes[0] == letter
}

/// Writes the fields one after another over `out`, which they fill.
pub fn put_fields(out: &mut [u8], fields: &[&[u8]])
    requires { length out.old ≡ length (flat_map (λ field. field.now) fields.now) }
    ensures { out.new ≡ flat_map (λ field. field.now) fields.now }
{
    let mut at = 0;
    for field in fields {
        put_at(out, at, field);
        at += field.len();
    }
}

/// Writes one field from `at` on. What stands before it stays.
fn put_at(out: &mut [u8], at: usize, field: &[u8])
    requires { at + length field.now ≤ length out.old }
    ensures { take (at + length field.now) out.new ≡ take at out.old ++ field.now }
{
    out[at..at + field.len()].copy_from_slice(field);
}
