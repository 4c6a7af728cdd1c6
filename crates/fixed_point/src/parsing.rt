//! From texts to amounts.

ghost use Rattle.std.specs.Prelude.{◌≡◌, ◌^◌, ◌≤◌, Some, IfOk};
ghost use Rattle.fixed_point.specs.Decimal.{amount, most_shares, price, quantity, within};

use crate::decimal::{parts_of, sign_of, size_of};
use crate::price4::Price4;
use crate::refusal::DecimalRefusal;
use crate::shares::Shares;

/// The price that a FIX float says, in 1/10,000 of the currency unit: `23.45` is 234,500.
///
/// Every text of any length has one answer, zeros in front and behind change nothing, and `-0` is 0. Refused, the first
/// that holds: `NotFloat` (anything but an optional `-` and then digits with at most one point and at least one digit),
/// `NotExact` (finer than 1/10,000; nothing is ever rounded), `OutOfRange` (below `Price4::LEAST` or above
/// `Price4::MOST`). Takes no memory.
///
/// Source: FIX 4.4 Volume 1, data type float; the range is that of OUCH 4.2, "Data Types", price.
#[tactic(auto, unfolding(crate::specs::Decimal::price))]
pub fn parse_price(text: &[u8]) -> Result<Price4, DecimalRefusal>
    ensures { result ≡ price text.now }
{
    let units = read_amount(text, 4, Price4::LEAST, Price4::MOST)?;
    Ok(Price4::new(units))
}

/// The number of shares that a FIX float says, `least` or more: `300.0` is 300.
///
/// A plain count, since a least of 0 lets 0 in, which is no `Shares`. Every text of any length has one answer, zeros in
/// front and behind change nothing, and `-0` is 0. Refused, the first that holds: `NotFloat` (anything but an optional
/// `-` and then digits with at most one point and at least one digit), `NotExact` (a part of a share; nothing is ever
/// rounded), `OutOfRange` (below `least` or above `Shares::MOST`). Takes no memory.
///
/// Source: FIX 4.4 Volume 1, data type float; the greatest is that of OUCH 4.2, "Enter Order Message", shares.
#[tactic(auto, unfolding(crate::specs::Decimal::quantity))]
pub fn parse_qty(text: &[u8], least: u32) -> Result<u32, DecimalRefusal>
    requires { least ≤ most_shares }
    ensures value { result ≡ quantity least text.now }
    ensures least { IfOk result (λ n. least ≤ n) }
    ensures most { IfOk result (λ n. n ≤ most_shares) }
{
    read_amount(text, 0, least, Shares::MOST)
}

/// The number from `least` to `most` that a text says in 1 / 10 ^ `places`.
fn read_amount(text: &[u8], places: usize, least: u32, most: u32) -> Result<u32, DecimalRefusal>
    requires { places ≤ 4 }
    ensures value { result ≡ amount (10 ^ places) least most text.now }
    ensures least { IfOk result (λ n. least ≤ n) }
    ensures most { IfOk result (λ n. n ≤ most) }
{
    let (negative, rest) = sign_of(text);
    let (whole, behind) = parts_of(rest);
    let size = size_of(whole, behind, places)?;
    in_range(negative, size, least, most)
}

/// The size as an amount, where it is from `least` to `most` and not below zero.
fn in_range(negative: bool, size: u64, least: u32, most: u32) -> Result<u32, DecimalRefusal>
    ensures value { result ≡ within least most negative (Some size) }
    ensures least { IfOk result (λ n. least ≤ n) }
    ensures most { IfOk result (λ n. n ≤ most) }
{
    if negative && size > 0 {
        return Err(DecimalRefusal::OutOfRange);
    }
    if size < u64::from(least) {
        return Err(DecimalRefusal::OutOfRange);
    }
    if size > u64::from(most) {
        return Err(DecimalRefusal::OutOfRange);
    }
    Ok(size as u32)
}
