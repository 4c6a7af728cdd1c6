//! Reading a new order from fields that have passed its table.

ghost use Rattle.std.specs.Prelude.{◌≡◌, None, IfOk};
ghost use Rattle.fix_types.specs.NewOrder.{new_order_of, IsNewOrder};
ghost use Rattle.fix_types.specs.Requests.{new_order_refusal};

use crate::new_order::NewOrder;
use crate::terms::terms_at;
use fix_fields::Fields;
use fix_values::reading::{char_at, id_at, optional_char_at, text_at};
use std::alloc::{AllocError, Global};

/// The new order that fields say, which meet no refusal. A growth for each long text.
pub fn read_new_order(alloc: Global, fields: &Fields) -> Result<NewOrder, AllocError>
    requires { new_order_refusal fields.now ≡ None }
    ensures said { IfOk result (λ order. order ≡ new_order_of fields.now) }
    ensures kept { IfOk result IsNewOrder }
{
    let cl_ord_id = id_at(alloc, fields, 11)?;
    let symbol = text_at(alloc, fields, 55)?;
    let terms = terms_at(alloc, fields)?;
    Ok(NewOrder {
        cl_ord_id,
        side: char_at(fields, 54),
        symbol,
        order_qty: terms.order_qty,
        ord_type: char_at(fields, 40),
        price: terms.price,
        time_in_force: optional_char_at(fields, 59),
        exec_inst: terms.exec_inst,
        order_capacity: optional_char_at(fields, 528),
        min_qty: terms.min_qty,
    })
}
