//! What is read from the fields of a message. Where a tag stands twice, the first is read.

ghost use Rattle.std.specs.Prelude.{◌≡◌, ◌<◌, ◌^◌, ◌∷◌, [], IfSome, bytes_eq};
ghost use Rattle.fix_types.specs.fix_fields.Field.{IsValue};
ghost use Rattle.fix_types.specs.fix_fields.Field as tags;
ghost use Rattle.session_law.specs.Messages as law;

use fix_types::Fields;
use wire_bytes::{is_same_text, number_of};

/// The value of a tag, or no bytes where there is none.
pub fn text<'a>(m: &'a Fields, tag: u32) -> &'a [u8]
    ensures text { result.now ≡ tags.text tag m.now }
    ensures inside { IsValue result.now }
{
    match m.first(tag) {
        Some(value) => value,
        None => b"",
    }
}

/// Whether the value of a tag is this; a tag that is missing has no bytes.
pub fn is(m: &Fields, tag: u32, wanted: &[u8]) -> bool
    ensures { result ≡ tags.is tag wanted.now m.now }
{
    is_same_text(text(m, tag), wanted)
}

/// Whether the value of a tag is this one byte.
pub fn is_letter(m: &Fields, tag: u32, wanted: u8) -> bool
    ensures { result ≡ tags.is tag (wanted ∷ []) m.now }
{
    is_byte(text(m, tag), wanted)
}

/// Whether a text is this one byte.
pub fn is_byte(text: &[u8], wanted: u8) -> bool
    ensures { result ≡ bytes_eq text.now (wanted ∷ []) }
{
    text.len() == 1 && text[0] == wanted
}

/// Whether a tag is there.
pub fn has(m: &Fields, tag: u32) -> bool
    ensures { result ≡ tags.has tag m.now }
{
    m.first(tag).is_some()
}

/// The number of a tag, where it is there and 1 to 18 digits.
pub fn number(m: &Fields, tag: u32) -> Option<u64>
    ensures value { result ≡ law.short_number tag m.now }
    ensures small { IfSome result (λ n. n < 10 ^ 18) }
{
    number_in(m.first(tag)?)
}

/// The number that 1 to 18 digits write.
fn number_in(value: &[u8]) -> Option<u64>
    ensures value { result ≡ law.number_in value.now }
    ensures small { IfSome result (λ n. n < 10 ^ 18) }
{
    if value.is_empty() {
        return None;
    }
    if value.len() > 18 {
        return None;
    }
    number_of(value)
}
