//! Bytes by their hexadecimal digits.

ghost use Rattle.std.specs.Prelude.{◌≡◌, ◌+◌, ◌*◌, IfOk, IfSome, is_some, ◌&&◌};
ghost use Rattle.std.specs.Char.{digit_value};
ghost use Rattle.script_lines.specs.MarketLines.{IsReadWhere};
ghost use Rattle.script_lines.specs.Hexadecimal.{is_digit, are_bytes, bytes_in};

use crate::fault::LineFault;
use std::alloc::Global;

/// The bytes that hexadecimal digits say, two a byte, the high one first, of either case.
///
/// `NotUnderstood` where another byte stands among them, or their number is odd.
pub fn bytes_of(alloc: Global, digits: &[u8]) -> Result<Vec<u8>, LineFault>
    ensures bytes { IfOk result (λ bytes. bytes.items ≡ bytes_in digits.now) }
    ensures understood { IsReadWhere (are_bytes digits.now) result }
{
    let mut bytes = Vec::with_capacity(alloc, digits.len() / 2)?;
    let mut rest = digits;
    while let [high, low, after @ ..] = rest {
        match byte_of(*high, *low) {
            Some(byte) => bytes.push(byte)?,
            None => return Err(LineFault::NotUnderstood),
        }
        rest = after;
    }
    if !rest.is_empty() {
        return Err(LineFault::NotUnderstood);
    }
    Ok(bytes)
}

/// The byte of two hexadecimal digits.
fn byte_of(high: u8, low: u8) -> Option<u8>
    ensures byte { IfSome result (λ byte. byte ≡ digit_value high * 16 + digit_value low) }
    ensures form { is_some result ≡ (is_digit high && is_digit low) }
{
    let high = char::from(high).to_digit(16)?;
    let low = char::from(low).to_digit(16)?;
    Some((high * 16 + low) as u8)
}
