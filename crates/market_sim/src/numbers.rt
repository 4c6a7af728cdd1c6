//! The number of a login, in a field of 20 bytes.
//!
//! Source: SoupBinTCP 3.00, "Login Request Packet", "Login Accepted Packet".

ghost use Rattle.std.specs.Prelude.{◌≡◌};
ghost use Rattle.market_sim.specs.Numbers as numbers;

use itoa::Buffer;
use wire_bytes::number_of;

/// A number padded left with spaces to 20 bytes.
pub fn padded_number(number: u64) -> [u8; 20]
    ensures { result ≡ numbers.padded_number number }
{
    let mut buffer = Buffer::new();
    let digits = buffer.format(number).as_bytes();
    let mut field = [b' '; 20];
    field[20 - digits.len()..].copy_from_slice(digits);
    field
}

/// The number of a field: spaces, and then digits of 1 or more, below 2^64.
pub fn number_asked(field: &[u8]) -> Option<u64>
    ensures { result ≡ numbers.number_asked field.now }
{
    let digits = behind_spaces(field);
    if digits.is_empty() {
        return None;
    }
    let number = number_of(digits)?;
    if number == 0 {
        return None;
    }
    Some(number)
}

/// A field without the spaces in front.
fn behind_spaces(field: &[u8]) -> &[u8]
    ensures { result.now ≡ numbers.behind_spaces field.now }
{
    let mut rest = field;
    while !rest.is_empty() && rest[0] == b' ' {
        rest = &rest[1..];
    }
    rest
}
