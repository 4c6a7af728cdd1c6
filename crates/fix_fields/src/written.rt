//! How a field is written.

ghost use Rattle.std.specs.Prelude.{◌≡◌, ◌≤◌, ◌+◌, ◌%◌, ◌++◌, ◌∷◌, [], length, decimal, OnOk, OnErr};
ghost use Rattle.std.specs.Vec.{vec_len, vec_capacity};
ghost use Rattle.fix_fields.specs.Field.{IsTag};

use crate::text::SOH;
use itoa::Buffer;
use std::alloc::AllocError;

/// So many bytes are written one by one.
const FEW: usize = 16;

/// The digits that a tag has at most.
const LONGEST_TAG: usize = 9;

/// Appends a field to a text: all of it, or nothing where memory runs out. One growth at most.
pub(crate) fn append_field(text: &mut Vec<u8>, tag: u32, value: &[u8]) -> Result<(), AllocError>
    requires { IsTag tag }
    ensures ok { OnOk result (text.new.items ≡ text.old.items ++ (decimal tag ++ 61 ∷ (value.now ++ 1 ∷ []))) }
    ensures err { OnErr result (text.new.items ≡ text.old.items) }
{
    let Some(size) = value.len().checked_add(LONGEST_TAG + 2) else {
        return Err(AllocError);
    };
    text.reserve(size)?;
    append_tag(text, tag);
    text.push_reserved(b'=');
    append_bytes(text, value);
    text.push_reserved(SOH);
    Ok(())
}

/// Appends the digits of a tag, for which there is room. A tag of three digits or fewer is written digit by digit.
fn append_tag(text: &mut Vec<u8>, tag: u32)
    requires tag { IsTag tag }
    requires room { vec_len text.old + 9 ≤ vec_capacity text.old }
    ensures items { text.new.items ≡ text.old.items ++ decimal tag }
    ensures len { vec_len text.new ≤ vec_len text.old + 9 }
    ensures capacity { vec_capacity text.old ≤ vec_capacity text.new }
{
    if tag >= 1_000 {
        let mut buffer = Buffer::new();
        append_bytes(text, buffer.format(tag).as_bytes());
        return;
    }
    if tag >= 100 {
        text.push_reserved(last_digit(tag / 100));
        text.push_reserved(last_digit(tag / 10));
        text.push_reserved(last_digit(tag));
        return;
    }
    if tag >= 10 {
        text.push_reserved(last_digit(tag / 10));
    }
    text.push_reserved(last_digit(tag));
}

/// The last digit of a number.
fn last_digit(number: u32) -> u8
    ensures { result ≡ 48 + number % 10 }
{
    b'0' + (number % 10) as u8
}

/// Appends bytes for which there is room: a few one by one, which is sooner done than a copy.
fn append_bytes(text: &mut Vec<u8>, bytes: &[u8])
    requires { vec_len text.old + length bytes.now ≤ vec_capacity text.old }
    ensures items { text.new.items ≡ text.old.items ++ bytes.now }
    ensures len { vec_len text.new ≡ vec_len text.old + length bytes.now }
    ensures capacity { vec_capacity text.old ≤ vec_capacity text.new }
{
    if bytes.len() > FEW {
        text.extend_from_slice(bytes).unwrap();
        return;
    }
    for byte in bytes {
        text.push_reserved(*byte);
    }
}
