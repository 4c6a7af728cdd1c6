//! Reading the fields of a message that has passed its table.

ghost use Rattle.std.specs.Prelude.{◌≡◌, ◌<◌, ◌^◌, true, IfOk, IfSome, is_some};
ghost use Rattle.fix_fields.specs.Field.{IsValue, first_value};
ghost use Rattle.fix_values.specs.declared.format.Format.TheVariants as formats;
ghost use Rattle.fix_values.specs.Formats.{passes};
ghost use Rattle.fix_values.specs.Letters.{exec_type_of, response_of, ord_status_of};
ghost use Rattle.fix_values.specs.Slots.{text_of, char_of, number_of_tag, order_id_at, optional_char, optional_number};

use crate::character::Character;
use crate::cl_ord_id::ClOrdId;
use crate::cxl_rej_response_to::CxlRejResponseTo;
use crate::exec_type::ExecType;
use crate::float_text::FloatText;
use crate::format::number_of;
use crate::ord_status::OrdStatus;
use fix_fields::{Fields, Text};
use std::alloc::{AllocError, Global};

/// The value of the first field with this tag.
fn value_at(fields: &Fields, tag: u32) -> &[u8]
    requires { is_some (first_value tag fields.now) ≡ true }
    ensures text { result.now ≡ text_of tag fields.now }
    ensures value { IsValue result.now }
{
    fields.first(tag).unwrap()
}

/// The text of a field.
pub fn text_at(alloc: Global, fields: &Fields, tag: u32) -> Result<Text, AllocError>
    requires { is_some (first_value tag fields.now) ≡ true }
    ensures { IfOk result (λ text. text ≡ text_of tag fields.now) }
{
    Text::copied(alloc, value_at(fields, tag))
}

/// The ClOrdID in a field.
pub fn id_at(alloc: Global, fields: &Fields, tag: u32) -> Result<ClOrdId, AllocError>
    requires there { is_some (first_value tag fields.now) ≡ true }
    requires format { passes formats.ClOrdId (first_value tag fields.now) ≡ true }
    ensures { IfOk result (λ id. id ≡ text_of tag fields.now) }
{
    ClOrdId::copied(alloc, value_at(fields, tag))
}

/// The float in a field, as it was written.
pub fn float_at(alloc: Global, fields: &Fields, tag: u32) -> Result<FloatText, AllocError>
    requires there { is_some (first_value tag fields.now) ≡ true }
    requires format { passes formats.Float (first_value tag fields.now) ≡ true }
    ensures { IfOk result (λ float. float ≡ text_of tag fields.now) }
{
    FloatText::copied(alloc, value_at(fields, tag))
}

/// The one byte of a field.
pub fn char_at(fields: &Fields, tag: u32) -> Character
    requires there { is_some (first_value tag fields.now) ≡ true }
    requires format { passes formats.Char (first_value tag fields.now) ≡ true }
    ensures { result ≡ char_of tag fields.now }
{
    Character::new(value_at(fields, tag)[0])
}

/// The number in a field.
pub fn number_in(fields: &Fields, tag: u32) -> u64
    requires there { is_some (first_value tag fields.now) ≡ true }
    requires format { passes formats.Number (first_value tag fields.now) ≡ true }
    ensures number { result ≡ number_of_tag tag fields.now }
    ensures kept { result < 2 ^ 64 }
{
    number_of(value_at(fields, tag)).unwrap()
}

/// The text of a field, where it is there.
pub fn optional_text_at(
    alloc: Global,
    fields: &Fields,
    tag: u32,
) -> Result<Option<Text>, AllocError>
    ensures { IfOk result (λ text. text ≡ first_value tag fields.now) }
{
    match fields.first(tag) {
        None => Ok(None),
        Some(value) => Ok(Some(Text::copied(alloc, value)?)),
    }
}

/// The ClOrdID in a field, where it is there.
pub fn optional_id_at(
    alloc: Global,
    fields: &Fields,
    tag: u32,
) -> Result<Option<ClOrdId>, AllocError>
    requires { passes formats.ClOrdId (first_value tag fields.now) ≡ true }
    ensures { IfOk result (λ id. id ≡ first_value tag fields.now) }
{
    match fields.first(tag) {
        None => Ok(None),
        Some(value) => Ok(Some(ClOrdId::copied(alloc, value)?)),
    }
}

/// The float in a field as it was written, where it is there.
pub fn optional_float_at(
    alloc: Global,
    fields: &Fields,
    tag: u32,
) -> Result<Option<FloatText>, AllocError>
    requires { passes formats.Float (first_value tag fields.now) ≡ true }
    ensures { IfOk result (λ float. float ≡ first_value tag fields.now) }
{
    match fields.first(tag) {
        None => Ok(None),
        Some(value) => Ok(Some(FloatText::copied(alloc, value)?)),
    }
}

/// The one byte of a field, where it is there.
pub fn optional_char_at(fields: &Fields, tag: u32) -> Option<Character>
    requires { passes formats.Char (first_value tag fields.now) ≡ true }
    ensures { result ≡ optional_char tag fields.now }
{
    match fields.first(tag) {
        None => None,
        Some(value) => Some(Character::new(value[0])),
    }
}

/// The number in a field, where it is there.
pub fn optional_number_in(fields: &Fields, tag: u32) -> Option<u64>
    requires { passes formats.Number (first_value tag fields.now) ≡ true }
    ensures number { result ≡ optional_number tag fields.now }
    ensures kept { IfSome result (λ n. n < 2 ^ 64) }
{
    match fields.first(tag) {
        None => None,
        Some(value) => number_of(value),
    }
}

/// The letter of ExecType in a field.
pub fn exec_type_at(fields: &Fields, tag: u32) -> ExecType
    requires there { is_some (first_value tag fields.now) ≡ true }
    requires format { passes formats.ExecType (first_value tag fields.now) ≡ true }
    ensures { result ≡ exec_type_of (char_of tag fields.now) }
{
    ExecType::of_letter(value_at(fields, tag)[0]).unwrap()
}

/// The letter of OrdStatus in a field.
pub fn ord_status_at(fields: &Fields, tag: u32) -> OrdStatus
    requires there { is_some (first_value tag fields.now) ≡ true }
    requires format { passes formats.OrdStatus (first_value tag fields.now) ≡ true }
    ensures { result ≡ ord_status_of (char_of tag fields.now) }
{
    OrdStatus::of_letter(value_at(fields, tag)[0]).unwrap()
}

/// The digit of CxlRejResponseTo in a field.
pub fn response_at(fields: &Fields, tag: u32) -> CxlRejResponseTo
    requires there { is_some (first_value tag fields.now) ≡ true }
    requires format { passes formats.CxlRejResponseTo (first_value tag fields.now) ≡ true }
    ensures { result ≡ response_of (char_of tag fields.now) }
{
    CxlRejResponseTo::of_letter(value_at(fields, tag)[0]).unwrap()
}

/// The number of an order in a field, `None` where it is `NONE`.
pub fn order_id_in(fields: &Fields, tag: u32) -> Option<u64>
    requires there { is_some (first_value tag fields.now) ≡ true }
    requires format { passes formats.OrderId (first_value tag fields.now) ≡ true }
    ensures number { result ≡ order_id_at tag fields.now }
    ensures kept { IfSome result (λ n. n < 2 ^ 64) }
{
    let text = value_at(fields, tag);
    number_of(text)
}
