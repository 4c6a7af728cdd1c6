//! OrderCancelReject: 35=9.

ghost use Rattle.std.specs.Prelude.{◌≡◌, None, IfOk, OnOk};
ghost use Rattle.fix_types.specs.CancelReject.{cancel_reject_body, cancel_reject_in};
ghost use Rattle.fix_types.specs.CancelReject.{cancel_reject_refusal, IsCancelReject};

use fix_fields::{Fields, Text};
use fix_printing::PrintedFields;
use fix_values::reading::{id_at, number_in, ord_status_at, order_id_in, response_at, text_at};
use fix_values::writing::{push_id, push_letter, push_number, push_order_id, push_text};
use fix_values::{ClOrdId, CxlRejResponseTo, Format, OrdStatus, Row, TextFault, first_refusal};
use std::alloc::{AllocError, Global};
use wire_law::TextWire;

/// What the gateway tells a client whose cancel or replace isn't done.
///
/// Source: FIX 4.4 Volume 4, "Order Cancel Reject", with the fields that this gateway writes, in this order.
#[derive(Debug)]
pub struct CancelReject {
    /// OrderID (37): the gateway's number of the order; `None` is written `NONE`, where 41 names no order.
    pub order_id: Option<u64>,
    /// ClOrdID (11): the request's own.
    pub cl_ord_id: ClOrdId,
    /// OrigClOrdID (41), as the request gave it.
    pub orig_cl_ord_id: ClOrdId,
    /// OrdStatus (39): how the order stands.
    pub ord_status: OrdStatus,
    /// CxlRejResponseTo (434): which request it answers.
    pub cxl_rej_response_to: CxlRejResponseTo,
    /// CxlRejReason (102).
    pub cxl_rej_reason: u64,
    /// Text (58).
    pub text: Text,
}

// Not derived: then each way out drops it in one call (docs/DECISIONS.md, "Drops").
impl Drop for CancelReject {
    fn drop(self) {
        let CancelReject {
            order_id: _,
            cl_ord_id: _,
            orig_cl_ord_id: _,
            ord_status: _,
            cxl_rej_response_to: _,
            cxl_rej_reason: _,
            text: _,
        } = self;
    }
}

/// The tags that have to be there, in the order in which they are judged.
const REQUIRED: [u32; 7] = [37, 11, 41, 39, 434, 102, 58];

/// What values have to be, in the order in which they are judged.
#[rattlefmt::skip]
const ROWS: [Row; 6] = [
    Row { tag: 37, format: Format::OrderId },
    Row { tag: 11, format: Format::ClOrdId },
    Row { tag: 41, format: Format::ClOrdId },
    Row { tag: 39, format: Format::OrdStatus },
    Row { tag: 434, format: Format::CxlRejResponseTo },
    Row { tag: 102, format: Format::Number },
];

impl CancelReject {
    ghost use Rattle.std.specs.Prelude.{◌++◌};

    /// Adds the reject's fields without its type (35), as they stand behind a header. `AllocError` leaves the first of
    /// them.
    pub fn push_body(&self, fields: &mut PrintedFields) -> Result<(), AllocError>
        ensures body { OnOk result (fields.new ≡ fields.old ++ cancel_reject_body self.now) }
        ensures kept { OnOk result (IsCancelReject self.now) }
    {
        push_order_id(fields, 37, self.order_id)?;
        push_id(fields, 11, &self.cl_ord_id)?;
        push_id(fields, 41, &self.orig_cl_ord_id)?;
        push_letter(fields, 39, self.ord_status.letter())?;
        push_letter(fields, 434, self.cxl_rej_response_to.letter())?;
        push_number(fields, 102, self.cxl_rej_reason)?;
        push_text(fields, 58, &self.text)
    }
}

impl TextWire<Fields, TextFault> for CancelReject {
    ghost use Rattle.fix_values.specs.declared.refusal.TextFault.TheVariants.{NoMemory};
    ghost use Rattle.std.specs.Prelude.{◌≡◌, None, IfOk, IfErr, MatchResult};
    ghost use Rattle.fix_types.specs.declared.cancel_reject.CancelReject.{CancelReject};
    ghost use Rattle.fix_values.specs.Formats.{TellsFault};
    ghost use Rattle.fix_types.specs.CancelReject.{cancel_reject_fields, cancel_reject_refusal, cancel_reject_in};
    ghost use Rattle.fix_types.specs.CancelReject.{IsCancelReject};

    ghost text = { cancel_reject_fields };

    ghost is_value = { IsCancelReject };

    ghost is_no_memory = { λ fault. fault ≡ NoMemory };

    fn put(&self, alloc: Global) -> Result<Fields, AllocError> {
        let mut fields = PrintedFields::with_capacity(alloc, 96)?;
        push_letter(&mut fields, 35, b'9')?;
        self.push_body(&mut fields)?;
        fields.to_fields(alloc)
    }

    fn get(alloc: Global, fields: &Fields) -> Result<Self, TextFault>
        ensures read { (value : CancelReject) → IsCancelReject value → fields.now ≡ cancel_reject_fields value
            → MatchResult result (λ read. read ≡ value) (λ fault. fault ≡ NoMemory) }
        ensures kept { IfOk result IsCancelReject }
        ensures said { IfOk result (λ said. (cancel_reject_refusal fields.now ≡ None)
            × (said ≡ cancel_reject_in fields.now)) }
        ensures refused { IfErr result (TellsFault (cancel_reject_refusal fields.now)) }
    {
        match first_refusal(fields, &REQUIRED, &ROWS) {
            Some(refusal) => Err(TextFault::Refused(refusal)),
            None => Ok(read_cancel_reject(alloc, fields)?),
        }
    }
}

/// The reject that fields say, which meet no refusal.
fn read_cancel_reject(alloc: Global, fields: &Fields) -> Result<CancelReject, AllocError>
    requires { cancel_reject_refusal fields.now ≡ None }
    ensures said { IfOk result (λ reject. reject ≡ cancel_reject_in fields.now) }
    ensures kept { IfOk result IsCancelReject }
{
    Ok(CancelReject {
        order_id: order_id_in(fields, 37),
        cl_ord_id: id_at(alloc, fields, 11)?,
        orig_cl_ord_id: id_at(alloc, fields, 41)?,
        ord_status: ord_status_at(fields, 39),
        cxl_rej_response_to: response_at(fields, 434),
        cxl_rej_reason: number_in(fields, 102),
        text: text_at(alloc, fields, 58)?,
    })
}
