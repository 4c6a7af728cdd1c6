//! Digits that are read on behind others: up to a cap, since a number that is too large is out of range and no reason
//! to stop looking for what is no digit; and up to 2^128, where a worth has no range. `wire_bytes` reads all
//! others.

ghost use Rattle.std.specs.Prelude.{◌≡◌, ◌^◌, ◌≤◌, ◌<◌, ◌+◌, ◌*◌, ◌==◌, IfSome, SomeIff, length};
ghost use Rattle.std.specs.List.{list_all};
ghost use Rattle.wire_bytes.specs.Digits.{number_of};
ghost use Rattle.fixed_point.specs.Steps as steps;

/// Above every amount; a number that reaches it stays there, so that no number of digits makes it wrap.
pub const TOO_LARGE: u64 = 100_000_000_000;

/// The number that these digits make behind those of `start`, `TOO_LARGE` at most; `None` where one is no digit.
pub fn read_on(start: u64, digits: &[u8]) -> Option<u64>
    requires { start ≤ 100_000_000_000 }
    ensures value { result ≡ steps.read_on start digits.now }
    ensures at_most { IfSome result (λ n. n ≤ 100_000_000_000) }
{
    let mut number = start;
    for byte in digits {
        if !byte.is_ascii_digit() {
            return None;
        }
        number = (10 * number + u64::from(*byte - b'0')).min(TOO_LARGE);
    }
    Some(number)
}

/// The number that these digits make behind those of `start`; `None` for 2^128 and more.
pub fn exact_on(start: u128, digits: &[u8]) -> Option<u128>
    ensures { let number = start * 10 ^ length digits.now + number_of digits.now in
        SomeIff result (number < 2 ^ 128) number }
{
    let mut number = start;
    for byte in digits {
        let digit = u128::from(byte.saturating_sub(b'0'));
        number = number.checked_mul(10)?.checked_add(digit)?;
    }
    Some(number)
}

/// Whether each of these bytes is the digit 0.
pub fn are_zeros(bytes: &[u8]) -> bool
    ensures { result ≡ list_all (λ byte. byte == 48) bytes.now }
{
    bytes.iter().all(|byte| *byte == b'0')
}

/// 10 to the power of 0 to 4.
pub fn power_of_ten(exponent: usize) -> u64
    requires { exponent ≤ 4 }
    ensures value { result ≡ 10 ^ exponent }
    ensures at_most { result ≤ 10_000 }
{
    match exponent {
        0 => 1,
        1 => 10,
        2 => 100,
        3 => 1_000,
        _ => 10_000,
    }
}
