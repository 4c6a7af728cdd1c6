//! The fields of an execution report, in the order in which they are written.

ghost use Rattle.std.specs.Prelude.{◌≡◌, OnOk};
ghost use Rattle.fix_values.specs.Slots.{appended};
ghost use Rattle.fix_types.specs.Report.{head_slots, amount_slots, KeepsHead, KeepsAmounts};

use crate::report::Report;
use fix_printing::PrintedFields;
use fix_values::writing::{
    push_char, push_id, push_letter, push_number, push_optional_id, push_optional_number,
    push_optional_value, push_text, push_value,
};
use std::alloc::AllocError;

/// Adds what a report is of, and what happened.
pub fn push_head(fields: &mut PrintedFields, report: &Report) -> Result<(), AllocError>
    ensures written { OnOk result (fields.new ≡ appended fields.old (head_slots report.now)) }
    ensures kept { OnOk result (KeepsHead report.now) }
{
    push_number(fields, 37, report.order_id)?;
    push_id(fields, 11, &report.cl_ord_id)?;
    push_optional_id(fields, 41, &report.orig_cl_ord_id)?;
    push_number(fields, 17, report.exec_id)?;
    push_optional_number(fields, 19, report.exec_ref_id)?;
    push_letter(fields, 150, report.exec_type.letter())?;
    push_letter(fields, 39, report.ord_status.letter())?;
    push_optional_number(fields, 103, report.ord_rej_reason)?;
    push_optional_number(fields, 378, report.exec_restatement_reason)
}

/// Adds the order's terms and amounts.
pub fn push_amounts(fields: &mut PrintedFields, report: &Report) -> Result<(), AllocError>
    ensures written { OnOk result (fields.new ≡ appended fields.old (amount_slots report.now)) }
    ensures kept { OnOk result (KeepsAmounts report.now) }
{
    push_text(fields, 55, &report.symbol)?;
    push_char(fields, 54, report.side)?;
    push_value(fields, 38, &report.order_qty)?;
    push_optional_value(fields, 44, &report.price)?;
    push_optional_number(fields, 32, report.last_qty)?;
    push_optional_value(fields, 31, &report.last_px)?;
    push_number(fields, 151, report.leaves_qty)?;
    push_number(fields, 14, report.cum_qty)?;
    push_value(fields, 6, &report.avg_px)?;
    push_optional_value(fields, 58, &report.text)
}
