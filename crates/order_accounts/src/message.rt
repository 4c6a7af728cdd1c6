//! What is read from a FIX message, whatever its fields are. Nothing is judged: a text that isn't digits has a number
//! too, the one that the definition gives it.

ghost use Rattle.std.specs.Prelude.{◌≡◌, ◌<◌, ◌+◌, ◌*◌, ◌^◌, ◌&&◌};
ghost use Rattle.std.specs.Result.{OkIff};
ghost use Rattle.std.specs.Char.{digit_value};
ghost use Rattle.std.specs.Str.Parse.{digits_value};
ghost use Rattle.order_law.specs.fix_fields.Field as tags;
ghost use Rattle.order_law.specs.Messages as messages;
ghost use Rattle.order_law.specs.Reading as spec;

use crate::reading_fault::ReadingFault;
use fix_fields::Fields;
use fixed_point::{WorthRefusal, parse_worth};

/// The value of a tag, or no bytes where there is none.
pub fn text(message: &Fields, tag: u32) -> &[u8]
    ensures { result.now ≡ tags.text tag message.now }
{
    match message.first(tag) {
        Some(value) => value,
        None => &[],
    }
}

/// The value of a tag is this text.
pub fn is(message: &Fields, tag: u32, wanted: &[u8]) -> bool
    ensures { result ≡ tags.is tag wanted.now message.now }
{
    text(message, tag) == wanted
}

/// It is a report on the order with this OrderID.
pub fn is_report_on(message: &Fields, order: &[u8]) -> bool
    ensures { result ≡ spec.is_report_on order.now message.now }
{
    is(message, 35, b"8") && is(message, 37, order)
}

/// The first byte of a value, 0 where there is none.
pub fn character(message: &Fields, tag: u32) -> u8
    ensures { result ≡ tags.character tag message.now }
{
    match text(message, tag).first() {
        Some(byte) => *byte,
        None => 0,
    }
}

/// The number in a value's digits, below 2^128.
pub fn number(message: &Fields, tag: u32) -> Result<u128, ReadingFault>
    ensures { let number = messages.number tag message.now in OkIff result (number < 2 ^ 128) number }
{
    number_of(text(message, tag))
}

/// The number in a value's digits, below 2^32.
pub fn number32(message: &Fields, tag: u32) -> Result<u32, ReadingFault>
    ensures { let number = messages.number tag message.now in OkIff result (number < 2 ^ 32) number }
{
    let number = number(message, tag)?;
    if number > u128::from(u32::MAX) {
        return Err(ReadingFault::TooLarge);
    }
    Ok(number as u32)
}

/// The 1/10,000 that a price says, below 2^128; 0 where it says none.
pub fn price(message: &Fields, tag: u32) -> Result<u128, ReadingFault>
    ensures { let price = spec.price_in tag message.now in OkIff result (price < 2 ^ 128) price }
{
    match parse_worth(text(message, tag)) {
        Ok(units) => Ok(units),
        Err(WorthRefusal::NoWorth) => Ok(0),
        Err(WorthRefusal::TooLarge) => Err(ReadingFault::TooLarge),
    }
}

/// The number in these digits, below 2^128.
fn number_of(digits: &[u8]) -> Result<u128, ReadingFault>
    ensures { let number = digits_value 10 digits.now in OkIff result (number < 2 ^ 128) number }
{
    let mut number = 0;
    for byte in digits {
        number = sum(product(number, 10)?, u128::from(digit_of(*byte)))?;
    }
    Ok(number)
}

/// What a byte counts among digits: `0` to `9` themselves, letters from 10 on, any other byte 36.
fn digit_of(byte: u8) -> u8
    ensures { result ≡ digit_value byte }
{
    match byte {
        b'0'..=b'9' => byte - b'0',
        b'A'..=b'Z' => byte - b'A' + 10,
        b'a'..=b'z' => byte - b'a' + 10,
        _ => 36,
    }
}

/// A sum, below 2^128.
pub fn sum(a: u128, b: u128) -> Result<u128, ReadingFault>
    ensures { OkIff result (a + b < 2 ^ 128) (a + b) }
{
    a.checked_add(b).ok_or(ReadingFault::TooLarge)
}

/// A product, below 2^128.
pub fn product(a: u128, b: u128) -> Result<u128, ReadingFault>
    ensures { OkIff result (a * b < 2 ^ 128) (a * b) }
{
    a.checked_mul(b).ok_or(ReadingFault::TooLarge)
}
