//! Adding the fields of a message, one after another.

ghost use Rattle.std.specs.Prelude.{◌≡◌, ◌<◌, ◌^◌, ◌++◌, ◌∷◌, [], true, OnOk, IfSome, decimal};
ghost use Rattle.fix_fields.specs.Field.{IsTag, IsValue};
ghost use Rattle.fixed_point.specs.Price.{fraction_text};
ghost use Rattle.fix_values.specs.declared.format.Format.TheVariants as formats;
ghost use Rattle.fix_values.specs.Texts.{is_cl_ord_id, is_float};
ghost use Rattle.fix_values.specs.Formats.{passes};
ghost use Rattle.fix_values.specs.Slots.{slot, field_slot, slot_fields, char_text, number_text, order_id_text};

use crate::character::Character;
use crate::cl_ord_id::ClOrdId;
use crate::field_value::{FieldValue, Said};
use crate::float_text::FloatText;
use fix_fields::Text;
use fix_printing::PrintedFields;
use fixed_point::{fraction_digits, significant_digits};
use std::alloc::AllocError;

/// Adds a letter.
#[inline(always)]
pub fn push_letter(fields: &mut PrintedFields, tag: u32, letter: u8) -> Result<(), AllocError>
    requires tag { IsTag tag }
    requires letter { IsValue (letter ∷ []) }
    ensures { OnOk result (fields.new ≡ fields.old ++ slot_fields (field_slot tag (letter ∷ []))) }
{
    fields.push_byte(tag, letter)
}

/// Adds a value of one byte.
#[inline(always)]
pub fn push_char(fields: &mut PrintedFields, tag: u32, value: Character) -> Result<(), AllocError>
    requires { IsTag tag }
    ensures { OnOk result (fields.new ≡ fields.old ++ slot_fields (field_slot tag (value ∷ []))) }
{
    push_letter(fields, tag, value.byte())
}

/// Adds a value of one byte, where there is one.
pub fn push_optional_char(
    fields: &mut PrintedFields,
    tag: u32,
    value: Option<Character>,
) -> Result<(), AllocError>
    requires { IsTag tag }
    ensures { OnOk result (fields.new ≡ fields.old ++ slot_fields (slot tag (char_text value))) }
{
    match value {
        None => Ok(()),
        Some(value) => push_char(fields, tag, value),
    }
}

/// Adds a text.
pub fn push_text(fields: &mut PrintedFields, tag: u32, text: &Text) -> Result<(), AllocError>
    requires { IsTag tag }
    ensures { OnOk result (fields.new ≡ fields.old ++ slot_fields (field_slot tag text.now)) }
{
    fields.push_text(tag, text)
}

/// Adds a text, where there is one.
pub fn push_optional_text(
    fields: &mut PrintedFields,
    tag: u32,
    text: &Option<Text>,
) -> Result<(), AllocError>
    requires { IsTag tag }
    ensures { OnOk result (fields.new ≡ fields.old ++ slot_fields (slot tag text.now)) }
{
    match text {
        None => Ok(()),
        Some(text) => push_text(fields, tag, text),
    }
}

/// Adds a value of any type.
pub fn push_value(
    fields: &mut PrintedFields,
    tag: u32,
    value: &FieldValue,
) -> Result<(), AllocError>
    requires { IsTag tag }
    ensures { OnOk result (fields.new ≡ fields.old ++ slot_fields (field_slot tag value.now)) }
{
    match &value.said {
        Said::Number(number) => push_number(fields, tag, *number),
        Said::Price { whole, fraction } => push_price(fields, tag, *whole, *fraction),
        Said::Letter(letter) => push_letter(fields, tag, *letter),
        Said::Text(text) => push_text(fields, tag, text),
    }
}

/// Adds a value of any type, where there is one.
pub fn push_optional_value(
    fields: &mut PrintedFields,
    tag: u32,
    value: &Option<FieldValue>,
) -> Result<(), AllocError>
    requires { IsTag tag }
    ensures { OnOk result (fields.new ≡ fields.old ++ slot_fields (slot tag value.now)) }
{
    match value {
        None => Ok(()),
        Some(value) => push_value(fields, tag, value),
    }
}

/// Adds a float as it was written.
pub fn push_float(fields: &mut PrintedFields, tag: u32, float: &FloatText) -> Result<(), AllocError>
    requires { IsTag tag }
    ensures written { OnOk result (fields.new ≡ fields.old ++ slot_fields (field_slot tag float.now)) }
    ensures kept { is_float float.now ≡ true }
{
    fields.push(tag, float.as_slice())
}

/// Adds a float as it was written, where there is one.
pub fn push_optional_float(
    fields: &mut PrintedFields,
    tag: u32,
    float: &Option<FloatText>,
) -> Result<(), AllocError>
    requires { IsTag tag }
    ensures written { OnOk result (fields.new ≡ fields.old ++ slot_fields (slot tag float.now)) }
    ensures kept { passes formats.Float float.now ≡ true }
{
    match float {
        None => Ok(()),
        Some(float) => push_float(fields, tag, float),
    }
}

/// Adds a ClOrdID, where there is one.
pub fn push_optional_id(
    fields: &mut PrintedFields,
    tag: u32,
    id: &Option<ClOrdId>,
) -> Result<(), AllocError>
    requires { IsTag tag }
    ensures written { OnOk result (fields.new ≡ fields.old ++ slot_fields (slot tag id.now)) }
    ensures kept { passes formats.ClOrdId id.now ≡ true }
{
    match id {
        None => Ok(()),
        Some(id) => push_id(fields, tag, id),
    }
}

/// Adds a number in decimal.
#[inline(always)]
pub fn push_number(fields: &mut PrintedFields, tag: u32, number: u64) -> Result<(), AllocError>
    requires { IsTag tag }
    ensures written { OnOk result (fields.new ≡ fields.old ++ slot_fields (field_slot tag (decimal number))) }
    ensures kept { number < 2 ^ 64 }
{
    fields.push_number(tag, number)
}

/// Adds a number in decimal, where there is one.
pub fn push_optional_number(
    fields: &mut PrintedFields,
    tag: u32,
    number: Option<u64>,
) -> Result<(), AllocError>
    requires { IsTag tag }
    ensures written { OnOk result (fields.new ≡ fields.old ++ slot_fields (slot tag (number_text number))) }
    ensures kept { IfSome number (λ n. n < 2 ^ 64) }
{
    match number {
        None => Ok(()),
        Some(number) => push_number(fields, tag, number),
    }
}

/// Adds a ClOrdID.
pub fn push_id(fields: &mut PrintedFields, tag: u32, id: &ClOrdId) -> Result<(), AllocError>
    requires { IsTag tag }
    ensures written { OnOk result (fields.new ≡ fields.old ++ slot_fields (field_slot tag id.now)) }
    ensures kept { is_cl_ord_id id.now ≡ true }
{
    fields.push_text(tag, id.text())
}

/// Adds the number of an order in decimal, or `NONE` where there is none.
pub fn push_order_id(
    fields: &mut PrintedFields,
    tag: u32,
    order_id: Option<u64>,
) -> Result<(), AllocError>
    requires { IsTag tag }
    ensures written { OnOk result (fields.new ≡ fields.old ++ slot_fields (field_slot tag (order_id_text order_id))) }
    ensures kept { IfSome order_id (λ n. n < 2 ^ 64) }
{
    match order_id {
        None => fields.push(tag, b"NONE"),
        Some(number) => push_number(fields, tag, number),
    }
}

/// Adds a price by its whole part, and its fraction in 1/10,000. One without a fraction is a number.
fn push_price(
    fields: &mut PrintedFields,
    tag: u32,
    whole: u64,
    fraction: u16,
) -> Result<(), AllocError>
    requires tag { IsTag tag }
    requires value { IsValue (decimal whole ++ fraction_text fraction) }
    ensures { OnOk result (fields.new
        ≡ fields.old ++ slot_fields (field_slot tag (decimal whole ++ fraction_text fraction))) }
{
    if fraction == 0 {
        return push_number(fields, tag, whole);
    }
    let digits = fraction_digits(fraction);
    fields.push_decimal(tag, whole, &digits, significant_digits(fraction))
}
