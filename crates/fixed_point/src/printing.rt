//! From amounts to texts.

ghost use Rattle.std.specs.Prelude.{◌≡◌, ◌≤◌, Some, IfOk};
ghost use Rattle.fixed_point.specs.Decimal.{worth};
ghost use Rattle.fixed_point.specs.Price.{four_digits, fraction_text, significant, price_text};

use itoa::Buffer;
use std::alloc::{AllocError, Global};
use std::marker::Model;

/// Room for the text of every price: 40 digits, a point and four digits.
const ROOM: usize = 45;

/// The one text of a price in 1/10,000, without memory of its own: `23.45` of 234,500, `23` of 230,000. Contracts see
/// the list of its bytes.
///
/// The whole part without zeros in front, and where the fraction isn't 0 a point and the fraction without zeros at its
/// end. Any number has a text, as an average or a sum may lie outside the range of `Price4`; read as a decimal, it is
/// the number again.
///
/// Source: FIX 4.4 Volume 1, data type Price.
#[derive(Drop)]
pub struct PriceText {
    bytes: [u8; ROOM],
    len: usize,
}

impl Model for PriceText {
    ghost use Rattle.std.specs.Prelude.{ℕ, List, ◌≤◌, take};

    ghost Value = { List ℕ };

    ghost view = { λ text. take text.len text.bytes };

    ghost invariant = { λ text. text.len ≤ 45 };
}

impl PriceText {
    ghost use Rattle.std.specs.Prelude.{[], ◌+◌, ◌++◌, decimal, length};

    /// The text of a price by its whole part, and its fraction in 1/10,000, 0 to 9,999. Takes no memory.
    pub fn of(whole: u128, fraction: u16) -> PriceText
        ensures { result ≡ decimal whole ++ fraction_text fraction }
    {
        let mut text = PriceText::empty();
        let mut buffer = Buffer::new();
        text.push(buffer.format(whole).as_bytes());
        if fraction > 0 {
            text.push(b".");
            text.push(&fraction_digits(fraction)[..significant_digits(fraction)]);
        }
        text
    }

    /// Its bytes.
    pub fn as_slice(&self) -> &[u8]
        ensures { result.now ≡ self.now }
    {
        &self.bytes[..self.len]
    }

    /// No text yet.
    fn empty() -> PriceText
        ensures { result ≡ [] }
    {
        PriceText {
            bytes: [0; ROOM],
            len: 0,
        }
    }

    /// Adds bytes, for which there is room.
    fn push(&mut self, more: &[u8])
        requires { length self.old + length more.now ≤ 45 }
        ensures { self.new ≡ self.old ++ more.now }
    {
        let end = self.len + more.len();
        self.bytes[self.len..end].copy_from_slice(more);
        self.len = end;
    }
}

/// The one text of a price in 1/10,000, as `PriceText` has it, in memory of its own. One growth. The one error is that
/// memory ran out, and leaves nothing behind.
#[tactic(auto, unfolding(crate::specs::Price::price_text))]
pub fn print_price(alloc: Global, units: u128) -> Result<Vec<u8>, AllocError>
    ensures text { IfOk result (λ text. text.items ≡ price_text units) }
    ensures denotes { IfOk result (λ text. worth text.items ≡ Some units) }
{
    let text = PriceText::of(units / 10_000, (units % 10_000) as u16);
    Vec::from_slice(alloc, text.as_slice())
}

/// The four digits of a fraction in 1/10,000, which is below 10,000. Takes no memory.
pub fn fraction_digits(fraction: u16) -> [u8; 4]
    ensures { result ≡ four_digits fraction }
{
    [
        b'0' + (fraction / 1000) as u8,
        b'0' + (fraction / 100 % 10) as u8,
        b'0' + (fraction / 10 % 10) as u8,
        b'0' + (fraction % 10) as u8,
    ]
}

/// How many of the four digits of a fraction stand up to the last that is no 0, or 1 where all are. Takes no memory.
pub fn significant_digits(fraction: u16) -> usize
    ensures value { result ≡ significant fraction }
    ensures at_most_four { result ≤ 4 }
{
    if fraction % 1000 == 0 {
        1
    } else if fraction % 100 == 0 {
        2
    } else if fraction % 10 == 0 {
        3
    } else {
        4
    }
}
