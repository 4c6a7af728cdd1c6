//! ExecutionReport: 35=8.

use crate::report_fields::{push_amounts, push_head};
use crate::report_reading::read_report;
use fix_fields::{Fields, Text};
use fix_printing::PrintedFields;
use fix_values::writing::push_letter;
use fix_values::{
    Character, ClOrdId, ExecType, FieldValue, Format, OrdStatus, Row, TextFault, first_refusal,
};
use std::alloc::{AllocError, Global};
use wire_law::TextWire;

/// What the gateway tells a client of an order. Its total, its prices and its text are field values, since a refused
/// order's total and price are its own texts.
///
/// Source: FIX 4.4 Volume 4, "Execution Report", with the fields that this gateway writes, in this order.
#[derive(Debug)]
pub struct Report {
    /// OrderID (37): the gateway's number of the order.
    pub order_id: u64,
    /// ClOrdID (11).
    pub cl_ord_id: ClOrdId,
    /// OrigClOrdID (41).
    pub orig_cl_ord_id: Option<ClOrdId>,
    /// ExecID (17): the number of this report.
    pub exec_id: u64,
    /// ExecRefID (19): the report whose trade was broken.
    pub exec_ref_id: Option<u64>,
    /// ExecType (150).
    pub exec_type: ExecType,
    /// OrdStatus (39).
    pub ord_status: OrdStatus,
    /// OrdRejReason (103).
    pub ord_rej_reason: Option<u64>,
    /// ExecRestatementReason (378).
    pub exec_restatement_reason: Option<u64>,
    /// Symbol (55).
    pub symbol: Text,
    /// Side (54).
    pub side: Character,
    /// OrderQty (38).
    pub order_qty: FieldValue,
    /// Price (44).
    pub price: Option<FieldValue>,
    /// LastQty (32).
    pub last_qty: Option<u64>,
    /// LastPx (31).
    pub last_px: Option<FieldValue>,
    /// LeavesQty (151): the shares that are open.
    pub leaves_qty: u64,
    /// CumQty (14): the shares that are executed.
    pub cum_qty: u64,
    /// AvgPx (6).
    pub avg_px: FieldValue,
    /// Text (58).
    pub text: Option<FieldValue>,
}

// Not derived: then each way out drops it in one call (docs/DECISIONS.md, "Drops").
impl Drop for Report {
    fn drop(self) {
        let Report {
            order_id: _,
            cl_ord_id: _,
            orig_cl_ord_id: _,
            exec_id: _,
            exec_ref_id: _,
            exec_type: _,
            ord_status: _,
            ord_rej_reason: _,
            exec_restatement_reason: _,
            symbol: _,
            side: _,
            order_qty: _,
            price: _,
            last_qty: _,
            last_px: _,
            leaves_qty: _,
            cum_qty: _,
            avg_px: _,
            text: _,
        } = self;
    }
}

/// The tags that have to be there, in the order in which they are judged.
const REQUIRED: [u32; 11] = [37, 11, 17, 150, 39, 55, 54, 38, 151, 14, 6];

/// What values have to be, in the order in which they are judged.
#[rattlefmt::skip]
const ROWS: [Row; 13] = [
    Row { tag: 37, format: Format::Number },
    Row { tag: 11, format: Format::ClOrdId },
    Row { tag: 41, format: Format::ClOrdId },
    Row { tag: 17, format: Format::Number },
    Row { tag: 19, format: Format::Number },
    Row { tag: 150, format: Format::ExecType },
    Row { tag: 39, format: Format::OrdStatus },
    Row { tag: 103, format: Format::Number },
    Row { tag: 378, format: Format::Number },
    Row { tag: 54, format: Format::Char },
    Row { tag: 32, format: Format::Number },
    Row { tag: 151, format: Format::Number },
    Row { tag: 14, format: Format::Number },
];

impl Report {
    ghost use Rattle.std.specs.Prelude.{◌≡◌, ◌++◌, OnOk};
    ghost use Rattle.fix_types.specs.Report.{report_body, IsReport};

    /// Adds the report's fields without its type (35), as they stand behind a header. `AllocError` leaves the first of
    /// them.
    pub fn push_body(&self, fields: &mut PrintedFields) -> Result<(), AllocError>
        ensures body { OnOk result (fields.new ≡ fields.old ++ report_body self.now) }
        ensures kept { OnOk result (IsReport self.now) }
    {
        push_head(fields, self)?;
        push_amounts(fields, self)
    }
}

impl TextWire<Fields, TextFault> for Report {
    ghost use Rattle.fix_values.specs.declared.refusal.TextFault.TheVariants.{NoMemory};
    ghost use Rattle.std.specs.Prelude.{◌≡◌, None, IfOk, IfErr, MatchResult};
    ghost use Rattle.fix_types.specs.declared.report.Report.{Report};
    ghost use Rattle.fix_values.specs.Formats.{TellsFault};
    ghost use Rattle.fix_types.specs.Report.{report_fields, report_refusal, report_of, IsReport};

    ghost text = { report_fields };

    ghost is_value = { IsReport };

    ghost is_no_memory = { λ fault. fault ≡ NoMemory };

    fn put(&self, alloc: Global) -> Result<Fields, AllocError> {
        let mut fields = PrintedFields::with_capacity(alloc, 256)?;
        push_letter(&mut fields, 35, b'8')?;
        self.push_body(&mut fields)?;
        fields.to_fields(alloc)
    }

    fn get(alloc: Global, fields: &Fields) -> Result<Self, TextFault>
        ensures read { (value : Report) → IsReport value → fields.now ≡ report_fields value
            → MatchResult result (λ read. read ≡ value) (λ fault. fault ≡ NoMemory) }
        ensures kept { IfOk result IsReport }
        ensures said { IfOk result (λ said. (report_refusal fields.now ≡ None) × (said ≡ report_of fields.now)) }
        ensures refused { IfErr result (TellsFault (report_refusal fields.now)) }
    {
        match first_refusal(fields, &REQUIRED, &ROWS) {
            Some(refusal) => Err(TextFault::Refused(refusal)),
            None => Ok(read_report(alloc, fields)?),
        }
    }
}
