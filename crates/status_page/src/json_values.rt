//! Values of JSON.

ghost use Rattle.std.specs.Prelude.{◌≡◌, ◌++◌, ◌∷◌, [], IfOk, OnOk, decimal, string_bytes};
ghost use Rattle.serde_json.specs.View.{view};
ghost use Rattle.status_page.specs.Json as spec;

use fix_stamp::stamp;
use serde_json::Value;
use std::alloc::{AllocError, Global};

/// A text; a byte that isn't printable ASCII is a dot.
pub(crate) fn text_value(alloc: Global, text: &[u8]) -> Result<Value, AllocError>
    ensures { IfOk result (λ v. view v ≡ spec.text_data text.now) }
{
    Ok(Value::String(printable(alloc, text)?))
}

/// A text's bytes, of which those that aren't printable ASCII are dots.
pub(crate) fn printable(alloc: Global, text: &[u8]) -> Result<String, AllocError>
    ensures { IfOk result (λ shown. string_bytes shown ≡ spec.printable text.now) }
{
    let mut shown = String::new(alloc);
    for byte in text {
        push_printable(&mut shown, *byte)?;
    }
    Ok(shown)
}

/// Adds a byte so.
fn push_printable(shown: &mut String, byte: u8) -> Result<(), AllocError>
    ensures { OnOk result (string_bytes shown.new ≡ string_bytes shown.old ++ spec.printable_byte byte ∷ []) }
{
    if 32 <= byte && byte <= 126 {
        shown.push(char::from(byte))
    } else {
        shown.push_str(".")
    }
}

/// A moment as a UTCTimestamp.
pub(crate) fn moment_value(alloc: Global, at: u64) -> Result<Value, AllocError>
    ensures { IfOk result (λ v. view v ≡ spec.moment_data at) }
{
    text_value(alloc, &stamp(at))
}

/// When a day ends, where that is known.
pub(crate) fn end_value(alloc: Global, ends: Option<u64>) -> Result<Value, AllocError>
    ensures { IfOk result (λ v. view v ≡ spec.end_data ends) }
{
    match ends {
        Some(ends) => moment_value(alloc, ends),
        None => Ok(Value::Null),
    }
}

/// The digits of a number that may be larger than 64 bits hold: a number of JSON would be read as a float.
pub(crate) fn digits(alloc: Global, number: u128) -> Result<String, AllocError>
    ensures { IfOk result (λ text. string_bytes text ≡ decimal number) }
{
    format!(in alloc; "{number}")
}

/// The number of a link, where there is one.
pub(crate) fn link_value(link: Option<u64>) -> Value
    ensures { view result ≡ spec.link_data link }
{
    match link {
        Some(number) => Value::from(number),
        None => Value::Null,
    }
}
