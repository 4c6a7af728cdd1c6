//! Frames to a client, as they are shown.

ghost use Rattle.std.specs.Prelude.{◌≡◌, ◌++◌, OnOk, IfOk, map};
ghost use Rattle.gate_lines.specs.Frames as shown;
ghost use Rattle.fix_fields.specs.Lent.{lent};

use crate::flags::Flags;
use crate::words::push_digits;
use fix_fields::{Field, Fields, SOH, split};
use std::alloc::{AllocError, Global};

/// Adds a frame: whole where the flags ask for it, else its fields with `|` between them, without those of framing,
/// names and moments. Nothing where the bytes are no fields.
///
/// Source: FIX 4.4 Volume 2, "Standard Message Header", "Standard Message Trailer".
pub(crate) fn push_frame(
    alloc: Global,
    text: &mut Vec<u8>,
    flags: Flags,
    bytes: &[u8],
) -> Result<(), AllocError>
    ensures { OnOk result (text.new.items ≡ text.old.items ++ shown.shown_frame flags bytes.now) }
{
    if flags.raw {
        return push_whole(text, bytes);
    }
    match split(alloc, bytes)? {
        Some(fields) => push_fields(alloc, text, flags.num, &fields),
        None => Ok(()),
    }
}

/// Adds all bytes of a frame, with `|` for each SOH.
fn push_whole(text: &mut Vec<u8>, bytes: &[u8]) -> Result<(), AllocError>
    ensures { OnOk result (text.new.items ≡ text.old.items ++ map shown.barred bytes.now) }
{
    for byte in bytes {
        text.push(if *byte == SOH { b'|' } else { *byte })?;
    }
    Ok(())
}

/// Adds the fields that are shown, with `|` between them.
fn push_fields(
    alloc: Global,
    text: &mut Vec<u8>,
    with_number: bool,
    fields: &Fields,
) -> Result<(), AllocError>
    ensures { OnOk result (text.new.items ≡ text.old.items ++ shown.shown_fields with_number fields.now) }
{
    let shown = shown_text(alloc, with_number, fields)?;
    match shown.as_slice().split_first() {
        Some((_, behind)) => text.extend_from_slice(behind),
        None => Ok(()),
    }
}

/// The fields that are shown, with `|` before each.
fn shown_text(alloc: Global, with_number: bool, fields: &Fields) -> Result<Vec<u8>, AllocError>
    ensures { IfOk result (λ text. text.items ≡ shown.shown_behind_bars with_number fields.now) }
{
    let mut text = Vec::new(alloc);
    for i in 0..fields.len() {
        push_field(&mut text, with_number, fields.at(i))?;
    }
    Ok(text)
}

/// Adds a `|` and a field, where the field is shown.
fn push_field(text: &mut Vec<u8>, with_number: bool, field: Field<'_>) -> Result<(), AllocError>
    ensures { OnOk result (text.new.items ≡ text.old.items ++ shown.shown_field with_number (lent field.entry)) }
{
    if !is_shown(with_number, field.tag) {
        return Ok(());
    }
    text.push(b'|')?;
    push_digits(text, field.tag)?;
    text.push(b'=')?;
    text.extend_from_slice(field.value)
}

/// Whether a field of this tag is shown: all are but BeginString (8), BodyLength (9), CheckSum (10), SenderCompID
/// (49), TargetCompID (56), SendingTime (52), OrigSendingTime (122) and TransactTime (60); MsgSeqNum (34) is where it
/// is asked for.
fn is_shown(with_number: bool, tag: u32) -> bool
    ensures { result ≡ shown.is_shown with_number tag }
{
    match tag {
        8 | 9 | 10 | 49 | 52 | 56 | 60 | 122 => false,
        34 => with_number,
        _ => true,
    }
}
