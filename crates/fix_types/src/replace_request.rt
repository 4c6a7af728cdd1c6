//! OrderCancelReplaceRequest: 35=G.

ghost use Rattle.std.specs.Prelude.{◌≡◌, OnOk};
ghost use Rattle.fix_values.specs.Slots.{appended};
ghost use Rattle.fix_types.specs.ReplaceRequest.{replace_request_slots, IsReplaceRequest};

use crate::replace_request_reading::read_replace_request;
use crate::requests::replace_refusal;
use crate::terms::copied_terms;
use fix_fields::{Fields, Text};
use fix_printing::PrintedFields;
use fix_values::writing::{
    push_char, push_float, push_id, push_letter, push_optional_char, push_optional_float,
    push_optional_text,
};
use fix_values::{Character, ClOrdId, FloatText, TextFault, copied_text};
use std::alloc::{AllocError, Global};
use wire_law::TextWire;

/// What a client asks with a replace: the texts of its fields, which are judged elsewhere.
///
/// Side, symbol and capacity can't be replaced: they may be missing, and are judged where they are there.
/// Source: FIX 4.4 Volume 4, "Order Cancel/Replace Request"; tags that it doesn't name here are passed over.
#[derive(Debug)]
pub struct ReplaceRequest {
    /// ClOrdID (11): the request's own.
    pub cl_ord_id: ClOrdId,
    /// OrigClOrdID (41): that of the order, or of the last replace of it.
    pub orig_cl_ord_id: ClOrdId,
    /// Side (54).
    pub side: Option<Character>,
    /// Symbol (55).
    pub symbol: Option<Text>,
    /// OrderQty (38): the total, with what is executed already.
    pub order_qty: FloatText,
    /// OrdType (40).
    pub ord_type: Character,
    /// Price (44).
    pub price: Option<FloatText>,
    /// TimeInForce (59).
    pub time_in_force: Option<Character>,
    /// ExecInst (18).
    pub exec_inst: Option<Text>,
    /// OrderCapacity (528).
    pub order_capacity: Option<Character>,
    /// MinQty (110).
    pub min_qty: Option<FloatText>,
}

// Not derived: then each way out drops it in one call (docs/DECISIONS.md, "Drops").
impl Drop for ReplaceRequest {
    fn drop(self) {
        let ReplaceRequest {
            cl_ord_id: _,
            orig_cl_ord_id: _,
            side: _,
            symbol: _,
            order_qty: _,
            ord_type: _,
            price: _,
            time_in_force: _,
            exec_inst: _,
            order_capacity: _,
            min_qty: _,
        } = self;
    }
}

impl ReplaceRequest {
    ghost use Rattle.std.specs.Prelude.{◌≡◌, IfOk};

    /// The request's own ClOrdID (11). The rest is let go.
    pub fn into_cl_ord_id(self) -> ClOrdId
        ensures { result ≡ self.cl_ord_id }
    {
        let ReplaceRequest {
            cl_ord_id,
            orig_cl_ord_id: _,
            side: _,
            symbol: _,
            order_qty: _,
            ord_type: _,
            price: _,
            time_in_force: _,
            exec_inst: _,
            order_capacity: _,
            min_qty: _,
        } = self;
        cl_ord_id
    }

    /// The same request again, in memory of its own. A growth for each long text.
    pub fn copied(&self, alloc: Global) -> Result<ReplaceRequest, AllocError>
        ensures { IfOk result (λ copy. copy ≡ self.now) }
    {
        let cl_ord_id = ClOrdId::copied(alloc, self.cl_ord_id.as_slice())?;
        let orig_cl_ord_id = ClOrdId::copied(alloc, self.orig_cl_ord_id.as_slice())?;
        let symbol = copied_text(alloc, &self.symbol)?;
        let terms = copied_terms(
            alloc,
            &self.order_qty,
            &self.price,
            &self.exec_inst,
            &self.min_qty,
        )?;
        Ok(ReplaceRequest {
            cl_ord_id,
            orig_cl_ord_id,
            side: self.side,
            symbol,
            order_qty: terms.order_qty,
            ord_type: self.ord_type,
            price: terms.price,
            time_in_force: self.time_in_force,
            exec_inst: terms.exec_inst,
            order_capacity: self.order_capacity,
            min_qty: terms.min_qty,
        })
    }
}

impl TextWire<Fields, TextFault> for ReplaceRequest {
    ghost use Rattle.fix_values.specs.declared.refusal.TextFault.TheVariants.{NoMemory};
    ghost use Rattle.std.specs.Prelude.{◌≡◌, None, IfOk, IfErr, MatchResult};
    ghost use Rattle.fix_types.specs.declared.replace_request.ReplaceRequest.{ReplaceRequest};
    ghost use Rattle.fix_values.specs.Formats.{TellsFault};
    ghost use Rattle.fix_types.specs.ReplaceRequest.{replace_request_fields, replace_request_of, IsReplaceRequest};
    ghost use Rattle.fix_types.specs.Requests as requests;

    ghost text = { replace_request_fields };

    ghost is_value = { IsReplaceRequest };

    ghost is_no_memory = { λ fault. fault ≡ NoMemory };

    fn put(&self, alloc: Global) -> Result<Fields, AllocError> {
        let mut fields = PrintedFields::with_capacity(alloc, 128)?;
        push_fields(&mut fields, self)?;
        fields.to_fields(alloc)
    }

    fn get(alloc: Global, fields: &Fields) -> Result<Self, TextFault>
        ensures read { (value : ReplaceRequest) → IsReplaceRequest value → fields.now ≡ replace_request_fields value
            → MatchResult result (λ read. read ≡ value) (λ fault. fault ≡ NoMemory) }
        ensures kept { IfOk result IsReplaceRequest }
        ensures said { IfOk result (λ said. (requests.replace_refusal fields.now ≡ None)
            × (said ≡ replace_request_of fields.now)) }
        ensures refused { IfErr result (TellsFault (requests.replace_refusal fields.now)) }
    {
        match replace_refusal(fields) {
            Some(refusal) => Err(TextFault::Refused(refusal)),
            None => Ok(read_replace_request(alloc, fields)?),
        }
    }
}

/// Adds the fields of a replace request, its type (35) first. `AllocError` leaves the first of them.
fn push_fields(fields: &mut PrintedFields, request: &ReplaceRequest) -> Result<(), AllocError>
    ensures written { OnOk result (fields.new ≡ appended fields.old (replace_request_slots request.now)) }
    ensures kept { OnOk result (IsReplaceRequest request.now) }
{
    push_letter(fields, 35, b'G')?;
    push_id(fields, 11, &request.cl_ord_id)?;
    push_id(fields, 41, &request.orig_cl_ord_id)?;
    push_optional_char(fields, 54, request.side)?;
    push_optional_text(fields, 55, &request.symbol)?;
    push_float(fields, 38, &request.order_qty)?;
    push_char(fields, 40, request.ord_type)?;
    push_optional_float(fields, 44, &request.price)?;
    push_optional_char(fields, 59, request.time_in_force)?;
    push_optional_text(fields, 18, &request.exec_inst)?;
    push_optional_char(fields, 528, request.order_capacity)?;
    push_optional_float(fields, 110, &request.min_qty)
}
