//! The parts of a decimal text, and the size of the fraction that they make.

ghost use Rattle.std.specs.Prelude.{◌≡◌, ◌^◌, ◌≤◌, ◌++◌, false, is_some};
ghost use Rattle.fixed_point.specs.Decimal as decimal;
ghost use Rattle.fixed_point.specs.Steps.{scaled_size};

use crate::digits::{TOO_LARGE, are_zeros, power_of_ten, read_on};
use crate::refusal::DecimalRefusal;
use wire_bytes::are_digits;

/// Whether a `-` stands in front, and what stands behind it.
pub fn sign_of(text: &[u8]) -> (bool, &[u8])
    ensures sign { result.0 ≡ decimal.is_negative text.now }
    ensures rest { result.1.now ≡ decimal.without_sign text.now }
{
    if let [b'-', rest @ ..] = text {
        return (true, rest);
    }
    (false, text)
}

/// What stands before the first point, and what stands behind it.
pub fn parts_of(text: &[u8]) -> (&[u8], &[u8])
    ensures whole { result.0.now ≡ decimal.whole text.now }
    ensures behind { result.1.now ≡ decimal.behind text.now }
{
    for (i, byte) in text.iter().enumerate() {
        if *byte == b'.' {
            return (&text[..i], &text[i + 1..]);
        }
    }
    (text, &[])
}

/// How many 1 / 10 ^ `places` these digits before and behind the point make, `TOO_LARGE` at most.
pub fn size_of(whole: &[u8], behind: &[u8], places: usize) -> Result<u64, DecimalRefusal>
    requires { places ≤ 4 }
    ensures { result ≡ scaled_size (10 ^ places) (decimal.fraction_of false whole.now behind.now) }
{
    if whole.len() == 0 && behind.len() == 0 {
        return Err(DecimalRefusal::NotFloat);
    }
    let (near, far) = behind.split_at(behind.len().min(places));
    let Some(start) = read_on(0, whole) else {
        return Err(DecimalRefusal::NotFloat);
    };
    let Some(number) = read_on(start, near) else {
        return Err(DecimalRefusal::NotFloat);
    };
    if !are_digits(far) {
        return Err(DecimalRefusal::NotFloat);
    }
    if !are_zeros(far) {
        return Err(DecimalRefusal::NotExact);
    }
    Ok((number * power_of_ten(places - near.len())).min(TOO_LARGE))
}

/// Whether a text denotes a number: an optional `-`, and then digits with at most one point and at least one digit.
/// Takes no memory.
///
/// Source: FIX 4.4 Volume 1, data type float.
#[tactic(auto, unfolding(crate::specs::Decimal::fraction))]
pub fn is_float(text: &[u8]) -> bool
    ensures { result ≡ is_some (decimal.fraction text.now) }
{
    let (_, rest) = sign_of(text);
    let (whole, behind) = parts_of(rest);
    are_of_float(whole, behind)
}

/// Whether these parts before and behind the point are those of a float.
pub fn are_of_float(whole: &[u8], behind: &[u8]) -> bool
    ensures { result ≡ decimal.are_digits (whole.now ++ behind.now) }
{
    whole.len() + behind.len() > 0 && are_digits(whole) && are_digits(behind)
}
