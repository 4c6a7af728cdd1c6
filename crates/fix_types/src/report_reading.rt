//! Reading an execution report from fields that have passed its table.

ghost use Rattle.std.specs.Prelude.{◌≡◌, true, is_some, None, IfOk};
ghost use Rattle.fix_values.specs.Field.{first_value};
ghost use Rattle.fix_types.specs.Report.{report_refusal, report_of, IsReport};
ghost use Rattle.fix_types.specs.Terms.{report_texts_of};

use crate::report::Report;
use fix_fields::{Fields, Text};
use fix_values::FieldValue;
use fix_values::reading::{
    char_at, exec_type_at, id_at, number_in, optional_id_at, optional_number_in, optional_text_at,
    ord_status_at, text_at,
};
use std::alloc::{AllocError, Global};

/// The texts of a report, but for its ids and its symbol. They are read in a call of their own: where memory is wanting
/// the report has few values then that are dropped.
#[derive(Drop)]
pub struct ReportTexts {
    /// OrderQty (38).
    pub order_qty: Text,
    /// Price (44).
    pub price: Option<Text>,
    /// LastPx (31).
    pub last_px: Option<Text>,
    /// AvgPx (6).
    pub avg_px: Text,
    /// Text (58).
    pub text: Option<Text>,
}

/// The report that fields say, which meet no refusal.
pub fn read_report(alloc: Global, fields: &Fields) -> Result<Report, AllocError>
    requires { report_refusal fields.now ≡ None }
    ensures said { IfOk result (λ report. report ≡ report_of fields.now) }
    ensures kept { IfOk result IsReport }
{
    let cl_ord_id = id_at(alloc, fields, 11)?;
    let orig_cl_ord_id = optional_id_at(alloc, fields, 41)?;
    let symbol = text_at(alloc, fields, 55)?;
    let texts = report_texts_at(alloc, fields)?;
    Ok(Report {
        order_id: number_in(fields, 37),
        cl_ord_id,
        orig_cl_ord_id,
        exec_id: number_in(fields, 17),
        exec_ref_id: optional_number_in(fields, 19),
        exec_type: exec_type_at(fields, 150),
        ord_status: ord_status_at(fields, 39),
        ord_rej_reason: optional_number_in(fields, 103),
        exec_restatement_reason: optional_number_in(fields, 378),
        symbol,
        side: char_at(fields, 54),
        order_qty: FieldValue::text(texts.order_qty),
        price: texts.price.map(FieldValue::text),
        last_qty: optional_number_in(fields, 32),
        last_px: texts.last_px.map(FieldValue::text),
        leaves_qty: number_in(fields, 151),
        cum_qty: number_in(fields, 14),
        avg_px: FieldValue::text(texts.avg_px),
        text: texts.text.map(FieldValue::text),
    })
}

/// The texts of a report, but for its ids and its symbol.
fn report_texts_at(alloc: Global, fields: &Fields) -> Result<ReportTexts, AllocError>
    requires quantity { is_some (first_value 38 fields.now) ≡ true }
    requires average { is_some (first_value 6 fields.now) ≡ true }
    ensures { IfOk result (λ texts. texts ≡ report_texts_of fields.now) }
{
    Ok(ReportTexts {
        order_qty: text_at(alloc, fields, 38)?,
        price: optional_text_at(alloc, fields, 44)?,
        last_px: optional_text_at(alloc, fields, 31)?,
        avg_px: text_at(alloc, fields, 6)?,
        text: optional_text_at(alloc, fields, 58)?,
    })
}
