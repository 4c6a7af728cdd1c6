//! The table of what a message's fields have to be, and the first that isn't.

ghost use Rattle.std.specs.Prelude.{◌≡◌, MatchOption, true, false};
ghost use Rattle.std.specs.Option.{option_copied};
ghost use Rattle.wire_bytes.specs.Digits.{number_of as digits_number};
ghost use Rattle.fix_fields.specs.Reasons.{session_reject_number};
ghost use Rattle.fix_values.specs.Formats as spec;
ghost use Rattle.fix_values.specs.Texts as texts;

use crate::cxl_rej_response_to::CxlRejResponseTo;
use crate::exec_type::ExecType;
use crate::ord_status::OrdStatus;
use fix_fields::{Fields, SessionRefusal, SessionRejectReason};
use fixed_point::is_float;

/// What the value of a field has to be.
#[derive(Clone, Copy)]
pub enum Format {
    /// 1 to 64 bytes.
    ClOrdId,
    /// One byte.
    Char,
    /// A decimal text.
    Float,
    /// 1 to 20 digits of a number that 64 bits hold.
    Number,
    /// A letter of `ExecType`.
    ExecType,
    /// A letter of `OrdStatus`.
    OrdStatus,
    /// `NONE`, or a number as `Number` is.
    OrderId,
    /// A digit of `CxlRejResponseTo`.
    CxlRejResponseTo,
}

/// A row of a message's table: the value of this tag has this format, where it is there.
#[derive(Clone, Copy)]
pub struct Row {
    pub tag: u32,
    pub format: Format,
}

/// Whether a value has this format.
pub fn fits(format: Format, value: &[u8]) -> bool
    ensures { result ≡ spec.fits format value.now }
{
    match format {
        Format::ClOrdId => is_cl_ord_id(value),
        Format::Char => value.len() == 1,
        Format::Float => is_float(value),
        Format::Number => is_number(value),
        Format::ExecType => is_exec_type(value),
        Format::OrdStatus => is_ord_status(value),
        Format::OrderId => is_order_id(value),
        Format::CxlRejResponseTo => is_response(value),
    }
}

/// Whether a text may be a ClOrdID: 1 to 64 bytes.
fn is_cl_ord_id(value: &[u8]) -> bool
    ensures { result ≡ texts.is_cl_ord_id value.now }
{
    value.len() >= 1 && value.len() <= 64
}

/// Whether a text is 1 to 20 digits of a number that 64 bits hold.
fn is_number(value: &[u8]) -> bool
    ensures { result ≡ spec.is_number value.now }
{
    number_of(value).is_some()
}

/// Whether a text is a letter of ExecType (150).
fn is_exec_type(value: &[u8]) -> bool
    ensures { result ≡ spec.is_letter_of spec.exec_types value.now }
{
    value.len() == 1 && ExecType::of_letter(value[0]).is_some()
}

/// Whether a text is a letter of OrdStatus (39).
fn is_ord_status(value: &[u8]) -> bool
    ensures { result ≡ spec.is_letter_of spec.ord_statuses value.now }
{
    value.len() == 1 && OrdStatus::of_letter(value[0]).is_some()
}

/// Whether a text is a digit of CxlRejResponseTo (434).
fn is_response(value: &[u8]) -> bool
    ensures { result ≡ spec.is_letter_of spec.responses value.now }
{
    value.len() == 1 && CxlRejResponseTo::of_letter(value[0]).is_some()
}

/// Whether a text is `NONE` or a number.
fn is_order_id(value: &[u8]) -> bool
    ensures { result ≡ spec.is_order_id value.now }
{
    is_none(value) || is_number(value)
}

/// Whether a text is `NONE`, as OrderID (37) has it of an order that isn't known.
fn is_none(value: &[u8]) -> bool
    ensures { result ≡ spec.is_none_text value.now }
{
    value == b"NONE".as_slice()
}

/// The number that 1 to 20 digits write; `None` where a byte is no digit or 64 bits don't hold it.
pub fn number_of(digits: &[u8]) -> Option<u64>
    ensures { MatchOption result
        (spec.is_number digits.now ≡ false)
        (λ n. (spec.is_number digits.now ≡ true) × (n ≡ digits_number digits.now)) }
{
    if digits.is_empty() {
        return None;
    }
    if digits.len() > 20 {
        return None;
    }
    wire_bytes::number_of(digits)
}

/// What a value of another format is refused with.
fn misfit_reason(format: Format) -> SessionRejectReason
    ensures { session_reject_number result ≡ spec.misfit_reason format }
{
    match format {
        Format::ClOrdId | Format::ExecType | Format::OrdStatus | Format::CxlRejResponseTo => {
            SessionRejectReason::ValueIsIncorrect
        }
        Format::Char | Format::Float | Format::Number | Format::OrderId => {
            SessionRejectReason::IncorrectDataFormat
        }
    }
}

/// The first refusal that fields meet: the first of these tags that none has, or else the first of these rows whose
/// value has another format. Takes no memory.
pub fn first_refusal(fields: &Fields, tags: &[u32], rows: &[Row]) -> Option<SessionRefusal>
    ensures { result ≡ spec.first_refusal tags.now rows.now fields.now }
{
    match first_missing(fields, tags) {
        Some(refusal) => Some(refusal),
        None => first_misfit(fields, rows),
    }
}

fn first_missing(fields: &Fields, tags: &[u32]) -> Option<SessionRefusal>
    ensures { result ≡ spec.first_missing tags.now fields.now }
{
    for tag in tags {
        if fields.first(*tag).is_none() {
            return Some(SessionRefusal {
                tag: *tag,
                reason: SessionRejectReason::RequiredTagMissing.number(),
            });
        }
    }
    None
}

fn first_misfit(fields: &Fields, rows: &[Row]) -> Option<SessionRefusal>
    ensures { result ≡ spec.first_misfit rows.now fields.now }
{
    for row in rows {
        if !passes(row.format, fields.first(row.tag)) {
            return Some(SessionRefusal {
                tag: row.tag,
                reason: misfit_reason(row.format).number(),
            });
        }
    }
    None
}

/// Whether a value has this format, where it is there.
fn passes(format: Format, value: Option<&[u8]>) -> bool
    ensures { result ≡ spec.passes format (option_copied value.entry) }
{
    match value {
        None => true,
        Some(value) => fits(format, value),
    }
}
