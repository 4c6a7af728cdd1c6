//! OrderCancelRequest: 35=F.

ghost use Rattle.std.specs.Prelude.{◌≡◌, None, IfOk};
ghost use Rattle.fix_types.specs.CancelRequest.{cancel_request_of, IsCancelRequest};
ghost use Rattle.fix_types.specs.Requests as requests;

use crate::requests::cancel_refusal;
use fix_fields::Fields;
use fix_printing::PrintedFields;
use fix_values::reading::id_at;
use fix_values::writing::{push_id, push_letter};
use fix_values::{ClOrdId, TextFault};
use std::alloc::{AllocError, Global};
use wire_law::TextWire;

/// What a client asks with a cancel: that no more of an order is executed.
///
/// Source: FIX 4.4 Volume 4, "Order Cancel Request"; of its tags the two ids alone are read, the rest is passed over.
#[derive(Debug)]
pub struct CancelRequest {
    /// ClOrdID (11): the request's own.
    pub cl_ord_id: ClOrdId,
    /// OrigClOrdID (41): that of the order, or of the last replace of it.
    pub orig_cl_ord_id: ClOrdId,
}

// Not derived: then each way out drops it in one call (docs/DECISIONS.md, "Drops").
impl Drop for CancelRequest {
    fn drop(self) {
        let CancelRequest {
            cl_ord_id: _,
            orig_cl_ord_id: _,
        } = self;
    }
}

impl CancelRequest {
    /// The same request again, in memory of its own. Two growths at most.
    pub fn copied(&self, alloc: Global) -> Result<CancelRequest, AllocError>
        ensures { IfOk result (λ copy. copy ≡ self.now) }
    {
        Ok(CancelRequest {
            cl_ord_id: ClOrdId::copied(alloc, self.cl_ord_id.as_slice())?,
            orig_cl_ord_id: ClOrdId::copied(alloc, self.orig_cl_ord_id.as_slice())?,
        })
    }
}

impl TextWire<Fields, TextFault> for CancelRequest {
    ghost use Rattle.fix_values.specs.declared.refusal.TextFault.TheVariants.{NoMemory};
    ghost use Rattle.std.specs.Prelude.{◌≡◌, None, IfOk, IfErr, MatchResult};
    ghost use Rattle.fix_types.specs.declared.cancel_request.CancelRequest.{CancelRequest};
    ghost use Rattle.fix_values.specs.Formats.{TellsFault};
    ghost use Rattle.fix_types.specs.CancelRequest.{cancel_request_fields, cancel_request_of, IsCancelRequest};
    ghost use Rattle.fix_types.specs.Requests as requests;

    ghost text = { cancel_request_fields };

    ghost is_value = { IsCancelRequest };

    ghost is_no_memory = { λ fault. fault ≡ NoMemory };

    fn put(&self, alloc: Global) -> Result<Fields, AllocError> {
        let mut fields = PrintedFields::with_capacity(alloc, 64)?;
        push_letter(&mut fields, 35, b'F')?;
        push_id(&mut fields, 11, &self.cl_ord_id)?;
        push_id(&mut fields, 41, &self.orig_cl_ord_id)?;
        fields.to_fields(alloc)
    }

    fn get(alloc: Global, fields: &Fields) -> Result<Self, TextFault>
        ensures read { (value : CancelRequest) → IsCancelRequest value → fields.now ≡ cancel_request_fields value
            → MatchResult result (λ read. read ≡ value) (λ fault. fault ≡ NoMemory) }
        ensures kept { IfOk result IsCancelRequest }
        ensures said { IfOk result (λ said. (requests.cancel_refusal fields.now ≡ None)
            × (said ≡ cancel_request_of fields.now)) }
        ensures refused { IfErr result (TellsFault (requests.cancel_refusal fields.now)) }
    {
        match cancel_refusal(fields) {
            Some(refusal) => Err(TextFault::Refused(refusal)),
            None => Ok(read_cancel_request(alloc, fields)?),
        }
    }
}

/// The cancel request that fields say, which meet no refusal. Two growths at most.
pub fn read_cancel_request(alloc: Global, fields: &Fields) -> Result<CancelRequest, AllocError>
    requires { requests.cancel_refusal fields.now ≡ None }
    ensures said { IfOk result (λ request. request ≡ cancel_request_of fields.now) }
    ensures kept { IfOk result IsCancelRequest }
{
    Ok(CancelRequest {
        cl_ord_id: id_at(alloc, fields, 11)?,
        orig_cl_ord_id: id_at(alloc, fields, 41)?,
    })
}
