//! Digits, and the number that they write.

ghost use Rattle.std.specs.Prelude.{◌≡◌, ◌≤◌, ◌^◌, length, SomeIff};
ghost use Rattle.std.specs.Char.{is_ascii_digit};
ghost use Rattle.std.specs.List.{list_all, prefix_len};
ghost use Rattle.wire_bytes.specs.Digits as spec;
ghost use Rattle.wire_bytes.specs.Digits.{AreDigitsBelow};

/// The number that these digits write, zeros in front allowed; `None` where a byte is no digit, and for 2^64 and more.
///
/// No digits write 0: a caller that wants one at least, or fewer than so many, or a smaller number, looks for itself.
/// Takes no memory.
///
/// Source: FIX 4.4 Volume 1, data type int, without its sign; SoupBinTCP 3.00, "Data Types", numeric.
pub fn number_of(digits: &[u8]) -> Option<u64>
    ensures { SomeIff result (AreDigitsBelow (2 ^ 64) digits.now) (spec.number_of digits.now) }
{
    let mut number = 0u64;
    for byte in digits {
        if !byte.is_ascii_digit() {
            return None;
        }
        number = number
            .checked_mul(10)?
            .checked_add(u64::from(*byte - b'0'))?;
    }
    Some(number)
}

/// Whether each of these bytes is a digit. Takes no memory.
pub fn are_digits(bytes: &[u8]) -> bool
    ensures { result ≡ list_all is_ascii_digit bytes.now }
{
    bytes.iter().all(|byte| byte.is_ascii_digit())
}

/// How many digits stand in front of a text. Takes no memory.
pub fn digits_in_front(text: &[u8]) -> usize
    ensures count { result ≡ prefix_len is_ascii_digit text.now }
    ensures within { result ≤ length text.now }
{
    for (i, byte) in text.iter().enumerate() {
        if !byte.is_ascii_digit() {
            return i;
        }
    }
    text.len()
}
