//! The words of a line.

ghost use Rattle.std.specs.Prelude.{◌≡◌, ◌++◌, ◌∷◌, OnOk, decimal};
ghost use Rattle.gate_lines.specs.Words as shown;

use itoa::Buffer;
use std::alloc::AllocError;

/// Adds the name of a client or a port: a letter and its number.
pub(crate) fn push_name(text: &mut Vec<u8>, letter: u8, number: u16) -> Result<(), AllocError>
    ensures { OnOk result (text.new.items ≡ text.old.items ++ letter ∷ decimal number) }
{
    text.push(letter)?;
    push_digits(text, u32::from(number))
}

/// Adds a space and a word without its padding.
pub(crate) fn push_word(text: &mut Vec<u8>, word: &[u8]) -> Result<(), AllocError>
    ensures { OnOk result (text.new.items ≡ text.old.items ++ shown.word word.now) }
{
    text.push(b' ')?;
    text.extend_from_slice(trimmed(word))
}

/// A word without its padding.
fn trimmed(word: &[u8]) -> &[u8]
    ensures { result.now ≡ shown.trimmed word.now }
{
    word.trim_ascii_end()
}

/// Adds a space and a number.
pub(crate) fn push_number(text: &mut Vec<u8>, number: u32) -> Result<(), AllocError>
    ensures { OnOk result (text.new.items ≡ text.old.items ++ shown.shown_number number) }
{
    text.push(b' ')?;
    push_digits(text, number)
}

/// Adds the decimal digits of a number.
pub(crate) fn push_digits(text: &mut Vec<u8>, number: u32) -> Result<(), AllocError>
    ensures { OnOk result (text.new.items ≡ text.old.items ++ decimal number) }
{
    let mut buffer = Buffer::new();
    text.extend_from_slice(buffer.format(number).as_bytes())
}
