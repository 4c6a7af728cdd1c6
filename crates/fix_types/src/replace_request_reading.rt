//! Reading a replace request from fields that have passed its table.

ghost use Rattle.std.specs.Prelude.{◌≡◌, None, IfOk};
ghost use Rattle.fix_types.specs.Requests.{replace_refusal};
ghost use Rattle.fix_types.specs.ReplaceRequest.{replace_request_of, IsReplaceRequest};

use crate::replace_request::ReplaceRequest;
use crate::terms::terms_at;
use fix_fields::Fields;
use fix_values::reading::{char_at, id_at, optional_char_at, optional_text_at};
use std::alloc::{AllocError, Global};

/// The replace request that fields say, which meet no refusal. A growth for each long text.
pub fn read_replace_request(alloc: Global, fields: &Fields) -> Result<ReplaceRequest, AllocError>
    requires { replace_refusal fields.now ≡ None }
    ensures said { IfOk result (λ request. request ≡ replace_request_of fields.now) }
    ensures kept { IfOk result IsReplaceRequest }
{
    let cl_ord_id = id_at(alloc, fields, 11)?;
    let orig_cl_ord_id = id_at(alloc, fields, 41)?;
    let symbol = optional_text_at(alloc, fields, 55)?;
    let terms = terms_at(alloc, fields)?;
    Ok(ReplaceRequest {
        cl_ord_id,
        orig_cl_ord_id,
        side: optional_char_at(fields, 54),
        symbol,
        order_qty: terms.order_qty,
        ord_type: char_at(fields, 40),
        price: terms.price,
        time_in_force: optional_char_at(fields, 59),
        exec_inst: terms.exec_inst,
        order_capacity: optional_char_at(fields, 528),
        min_qty: terms.min_qty,
    })
}
