//! Fields written into a text that has room for them.

ghost use Rattle.std.specs.Prelude.{◌≡◌, ◌≤◌, ◌<◌, ◌+◌, ◌%◌, ◌++◌, ◌∷◌, [], length, take, decimal, OnOk};
ghost use Rattle.fix_fields.specs.Field.{IsTag};

use fix_fields::SOH;
use itoa::{Buffer, write_digits};
use std::alloc::AllocError;

/// The bytes that a field takes at most beside its value: nine digits, `=` and SOH.
pub(crate) const ROUND_A_VALUE: usize = 11;

/// So many bytes of a text are in use: there is room for so many more behind them. `AllocError` leaves those as they
/// were. One growth at most.
#[inline(always)]
pub(crate) fn reserve(text: &mut Vec<u8>, used: usize, more: usize) -> Result<(), AllocError>
    requires { used ≤ length text.old.items }
    ensures room { OnOk result (used + more ≤ length text.new.items) }
    ensures kept { take used text.new.items ≡ take used text.old.items }
    ensures used { used ≤ length text.new.items }
{
    if more <= text.len() - used {
        return Ok(());
    }
    grow(text, more)
}

/// Room for so many bytes more behind a text, and zeros in all of it. `AllocError` leaves the text as it was. One
/// growth at most.
pub(crate) fn grow(text: &mut Vec<u8>, more: usize) -> Result<(), AllocError>
    ensures room { OnOk result (length text.old.items + more ≤ length text.new.items) }
    ensures kept { take (length text.old.items) text.new.items ≡ text.old.items }
    ensures longer { length text.old.items ≤ length text.new.items }
{
    text.reserve(more)?;
    let room = text.capacity();
    text.resize(room, 0)
}

/// Writes a field at a place of a text: its value are the first of these bytes, so many, and the others are written
/// over. Gives the place behind it.
pub(crate) fn put_few(text: &mut [u8], at: usize, tag: u32, bytes: &[u8; 16], count: usize) -> usize
    requires tag { IsTag tag }
    requires count { count ≤ 16 }
    requires room { at + 27 ≤ length text.old }
    ensures written { take result text.new
        ≡ take at text.old ++ (decimal tag ++ 61 ∷ (take count bytes.now ++ 1 ∷ [])) }
    ensures within { result ≤ length text.new }
    ensures length { length text.new ≡ length text.old }
{
    let start = put_tag(text, at, tag);
    put(text, start, bytes);
    put(text, start + count, &[SOH]);
    start + count + 1
}

/// Writes a field with a value of one byte at a place of a text. Gives the place behind it.
#[inline(always)]
pub(crate) fn put_byte(text: &mut [u8], at: usize, tag: u32, value: u8) -> usize
    requires tag { IsTag tag }
    requires room { at + 12 ≤ length text.old }
    ensures written { take result text.new ≡ take at text.old ++ (decimal tag ++ 61 ∷ value ∷ 1 ∷ []) }
    ensures within { result ≤ length text.new }
    ensures length { length text.new ≡ length text.old }
{
    let start = put_tag(text, at, tag);
    put(text, start, &[value, SOH]);
    start + 2
}

/// Writes a field with a number in decimal at a place of a text, and over at most 19 bytes behind it. Gives the place
/// behind it.
#[inline(always)]
pub(crate) fn put_number(text: &mut [u8], at: usize, tag: u32, number: u64) -> usize
    requires tag { IsTag tag }
    requires room { at + 31 ≤ length text.old }
    ensures written { take result text.new ≡ take at text.old ++ (decimal tag ++ 61 ∷ (decimal number ++ 1 ∷ [])) }
    ensures within { result ≤ length text.new }
    ensures length { length text.new ≡ length text.old }
{
    let start = put_tag(text, at, tag);
    if number < 1_000 {
        return put_short(text, start, number as u32, SOH);
    }
    put_large(text, start, number, SOH)
}

/// Writes a field at a place of a text, and over at most 19 bytes behind it: its value are a number in decimal, a point
/// and the first of these digits, so many. Gives the place behind it.
pub(crate) fn put_decimal(
    text: &mut [u8],
    at: usize,
    tag: u32,
    whole: u64,
    fraction: &[u8; 4],
    count: usize,
) -> usize
    requires tag { IsTag tag }
    requires count { count ≤ 4 }
    requires room { at + 36 ≤ length text.old }
    ensures written { take result text.new ≡ take at text.old
        ++ (decimal tag ++ 61 ∷ ((decimal whole ++ 46 ∷ take count fraction.now) ++ 1 ∷ [])) }
    ensures within { result ≤ length text.new }
    ensures length { length text.new ≡ length text.old }
{
    let start = put_tag(text, at, tag);
    let end = put_digits(text, start, whole, b'.');
    put(text, end, fraction);
    put(text, end + count, &[SOH]);
    end + count + 1
}

/// Writes a number in decimal and a byte behind it at a place of a text, and over at most 19 bytes behind both. Gives
/// the place behind both.
fn put_digits(text: &mut [u8], at: usize, number: u64, last: u8) -> usize
    requires room { at + 21 ≤ length text.old }
    ensures written { take result text.new ≡ take at text.old ++ (decimal number ++ last ∷ []) }
    ensures length { length text.new ≡ length text.old }
    ensures end { result ≤ at + 21 }
{
    if number < 1_000 {
        return put_short(text, at, number as u32, last);
    }
    put_large(text, at, number, last)
}

/// The same of a number from 1,000 on.
fn put_large(text: &mut [u8], at: usize, number: u64, last: u8) -> usize
    requires number { 1_000 ≤ number }
    requires room { at + 21 ≤ length text.old }
    ensures written { take result text.new ≡ take at text.old ++ (decimal number ++ last ∷ []) }
    ensures length { length text.new ≡ length text.old }
    ensures end { result ≤ at + 21 }
{
    if number < 1_000_000 {
        return put_thousands(text, at, number as u32, last);
    }
    put_long(text, at, number, last)
}

/// Writes a number from 1,000 to 999,999 in decimal and a byte behind it at a place of a text. Gives the place behind
/// both.
fn put_thousands(text: &mut [u8], at: usize, number: u32, last: u8) -> usize
    requires number { (1_000 ≤ number) × (number < 1_000_000) }
    requires room { at + 7 ≤ length text.old }
    ensures written { take result text.new ≡ take at text.old ++ (decimal number ++ last ∷ []) }
    ensures length { length text.new ≡ length text.old }
    ensures end { result ≤ at + 7 }
{
    let (tens, ones) = (last_digit(number / 10), last_digit(number));
    let (thousands, hundreds) = (last_digit(number / 1_000), last_digit(number / 100));
    if number < 10_000 {
        put(text, at, &[thousands, hundreds, tens, ones, last]);
        return at + 5;
    }
    let front = last_digit(number / 10_000);
    if number < 100_000 {
        put(text, at, &[front, thousands, hundreds, tens, ones, last]);
        return at + 6;
    }
    let first = last_digit(number / 100_000);
    put(
        text,
        at,
        &[first, front, thousands, hundreds, tens, ones, last],
    );
    at + 7
}

/// Writes any number in decimal and a byte behind it at a place of a text, and over at most 19 bytes behind both. Gives
/// the place behind both.
fn put_long(text: &mut [u8], at: usize, number: u64, last: u8) -> usize
    requires room { at + 21 ≤ length text.old }
    ensures written { take result text.new ≡ take at text.old ++ (decimal number ++ last ∷ []) }
    ensures length { length text.new ≡ length text.old }
    ensures end { result ≤ at + 21 }
{
    let mut digits = [0; 40];
    let first = write_digits(number, &mut digits, 20);
    put(text, at, &digits[first..first + 20]);
    put(text, at + 20 - first, &[last]);
    at + 21 - first
}

/// Writes a field whose value has so many bytes at a place of a text. Gives the place behind it.
pub(crate) fn put_array<const N: usize>(
    text: &mut [u8],
    at: usize,
    tag: u32,
    value: &[u8; N],
) -> usize
    requires tag { IsTag tag }
    requires room { at + length value.now + 11 ≤ length text.old }
    ensures written { take result text.new ≡ take at text.old ++ (decimal tag ++ 61 ∷ (value.now ++ 1 ∷ [])) }
    ensures within { result ≤ length text.new }
    ensures length { length text.new ≡ length text.old }
{
    let start = put_tag(text, at, tag);
    put(text, start, value);
    put(text, start + N, &[SOH]);
    start + N + 1
}

/// Writes a field at a place of a text. Gives the place behind it.
pub(crate) fn put_field(text: &mut [u8], at: usize, tag: u32, value: &[u8]) -> usize
    requires tag { IsTag tag }
    requires room { at + length value.now + 11 ≤ length text.old }
    ensures written { take result text.new ≡ take at text.old ++ (decimal tag ++ 61 ∷ (value.now ++ 1 ∷ [])) }
    ensures within { result ≤ length text.new }
    ensures length { length text.new ≡ length text.old }
{
    let start = put_tag(text, at, tag);
    put(text, start, value);
    put(text, start + value.len(), &[SOH]);
    start + value.len() + 1
}

/// Writes a tag and `=` at a place of a text. Gives the place behind them.
#[inline(always)]
fn put_tag(text: &mut [u8], at: usize, tag: u32) -> usize
    requires tag { IsTag tag }
    requires room { at + 10 ≤ length text.old }
    ensures written { take result text.new ≡ take at text.old ++ (decimal tag ++ 61 ∷ []) }
    ensures length { length text.new ≡ length text.old }
    ensures end { result ≤ at + 10 }
{
    if tag >= 1_000 {
        return put_long_tag(text, at, tag);
    }
    put_short(text, at, tag, b'=')
}

/// Writes a number below 1,000 in decimal and a byte behind it at a place of a text. Gives the place behind both.
fn put_short(text: &mut [u8], at: usize, number: u32, last: u8) -> usize
    requires number { number < 1_000 }
    requires room { at + 4 ≤ length text.old }
    ensures written { take result text.new ≡ take at text.old ++ (decimal number ++ last ∷ []) }
    ensures length { length text.new ≡ length text.old }
    ensures end { result ≤ at + 4 }
{
    if number >= 100 {
        let digits = [
            last_digit(number / 100),
            last_digit(number / 10),
            last_digit(number),
            last,
        ];
        put(text, at, &digits);
        return at + 4;
    }
    if number >= 10 {
        put(
            text,
            at,
            &[last_digit(number / 10), last_digit(number), last],
        );
        return at + 3;
    }
    put(text, at, &[last_digit(number), last]);
    at + 2
}

/// The same of any tag.
fn put_long_tag(text: &mut [u8], at: usize, tag: u32) -> usize
    requires tag { IsTag tag }
    requires room { at + 10 ≤ length text.old }
    ensures written { take result text.new ≡ take at text.old ++ (decimal tag ++ 61 ∷ []) }
    ensures length { length text.new ≡ length text.old }
    ensures end { result ≤ at + 10 }
{
    let mut buffer = Buffer::new();
    let digits = buffer.format(tag).as_bytes();
    put(text, at, digits);
    let end = at + digits.len();
    put(text, end, b"=");
    end + 1
}

/// The last digit of a number.
fn last_digit(number: u32) -> u8
    ensures { result ≡ 48 + number % 10 }
{
    b'0' + (number % 10) as u8
}

/// Writes bytes at a place of a text.
pub(crate) fn put(text: &mut [u8], at: usize, bytes: &[u8])
    requires { at + length bytes.now ≤ length text.old }
    ensures written { take (at + length bytes.now) text.new ≡ take at text.old ++ bytes.now }
    ensures length { length text.new ≡ length text.old }
{
    text[at..at + bytes.len()].copy_from_slice(bytes);
}
