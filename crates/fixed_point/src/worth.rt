//! What a text is worth, with no range: as reports carry prices and averages.

ghost use Rattle.std.specs.Prelude.{◌≡◌, ◌≤◌, ◌<◌, ◌+◌, ◌-◌, ◌*◌, ◌^◌, ◌++◌, ℕ, true, false, Some, SomeIff, length};
ghost use Rattle.wire_bytes.specs.Digits.{number_of};
ghost use Rattle.fixed_point.specs.Decimal as decimal;
ghost use Rattle.fixed_point.specs.Worth.{counted};

use crate::decimal::{are_of_float, parts_of, sign_of};
use crate::digits::{are_zeros, exact_on, power_of_ten};
use thiserror::Error;

/// Why a text gives no number of 1/10,000.
#[derive(Clone, Copy, Debug, PartialEq, Eq, Drop, Error)]
pub enum WorthRefusal {
    /// The text is worth nothing: it is no float, or finer than 1/10,000, or below zero.
    #[error("no worth")]
    NoWorth,
    /// The text is worth 2^128 or more, in 1/10,000.
    #[error("too large")]
    TooLarge,
}

/// What a FIX float is worth, in 1/10,000 of the currency unit, with no range: `1000000.5` is 10,000,005,000.
///
/// Every text of any length has one answer, zeros in front and behind change nothing, and `-0` is 0. Refused: `NoWorth`
/// (anything but an optional `-` and then digits with at most one point and at least one digit; finer than 1/10,000,
/// since nothing is ever rounded; below zero), `TooLarge` (it has a worth, of 2^128 or more). Takes no memory.
///
/// Source: FIX 4.4 Volume 1, data type float.
pub fn parse_worth(text: &[u8]) -> Result<u128, WorthRefusal>
    ensures { result ≡ counted (decimal.worth text.now) }
{
    let (negative, rest) = sign_of(text);
    let (whole, behind) = parts_of(rest);
    if !are_of_float(whole, behind) {
        return Err(WorthRefusal::NoWorth);
    }
    let (near, far) = behind.split_at(behind.len().min(4));
    if !are_zeros(far) {
        return Err(WorthRefusal::NoWorth);
    }
    signed(negative, units_of(whole, near))
}

/// How many 1/10,000 these digits before and behind the point make; `None` for 2^128 and more.
fn units_of(whole: &[u8], behind: &[u8]) -> Option<u128>
    requires { length behind.now ≤ 4 }
    ensures { let digits = number_of whole.now * 10 ^ length behind.now + number_of behind.now in
        let units = digits * 10 ^ (4 - length behind.now) in
        SomeIff result (units < 2 ^ 128) units }
{
    let number = exact_on(exact_on(0, whole)?, behind)?;
    number.checked_mul(u128::from(power_of_ten(4 - behind.len())))
}

/// The worth of so many 1/10,000 with their sign; `None` stands for 2^128 and more.
fn signed(negative: bool, units: Option<u128>) -> Result<u128, WorthRefusal>
    ensures { (n : ℕ) → SomeIff units (n < 2 ^ 128) n → result ≡ counted (decimal.not_below_zero negative (Some n)) }
{
    let Some(units) = units else {
        return Err(too_large(negative));
    };
    if negative && units > 0 {
        return Err(WorthRefusal::NoWorth);
    }
    Ok(units)
}

/// Why 2^128 and more with their sign are refused.
fn too_large(negative: bool) -> WorthRefusal
    ensures below { negative ≡ true → result ≡ WorthRefusal.NoWorth }
    ensures above { negative ≡ false → result ≡ WorthRefusal.TooLarge }
{
    if negative {
        WorthRefusal::NoWorth
    } else {
        WorthRefusal::TooLarge
    }
}
