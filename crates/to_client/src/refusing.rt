//! A report that refuses a new order.

ghost use Rattle.std.specs.Prelude.{◌≡◌, ◌<◌, IfOk};
ghost use Rattle.orders.specs.fix_types.NewOrder.{new_order_fields};
ghost use Rattle.orders.specs.fix_types.Report.{report_fields};
ghost use Rattle.fix_values.specs.Reasons.{ord_rej_number};
ghost use Rattle.order_law.specs.Told as law;
ghost use Rattle.to_client.specs.Refusals.{refusal_of};

use fix_fields::Text;
use fix_types::{NewOrder, Report};
use fix_values::{ClOrdId, ExecType, FieldValue, FloatText, OrdRejReason, OrdStatus};
use std::alloc::{AllocError, Global};

/// The report, with an OrderID (37) and an ExecID (17) of these numbers, that refuses a new order for a reason:
/// OrdRejReason (103) and Text (58). It has the order's own texts of quantity and price; nothing is open or executed.
///
/// The one error is that memory ran out.
///
/// Source: FIX 4.4 Volume 4, "Execution Report".
pub fn refusal(
    alloc: Global,
    order_id: u64,
    exec_id: u64,
    order: &NewOrder,
    code: OrdRejReason,
    why: Text,
) -> Result<Report, AllocError>
    ensures told { IfOk result (λ r. report_fields r
        ≡ law.refusing_report exec_id order_id (new_order_fields order.now) (ord_rej_number code) why) }
{
    refused(alloc, order_id, exec_id, order, code, why)
}

/// The same, by its fields.
fn refused(
    alloc: Global,
    order_id: u64,
    exec_id: u64,
    order: &NewOrder,
    code: OrdRejReason,
    why: Text,
) -> Result<Report, AllocError>
    ensures { IfOk result (λ r. r ≡ refusal_of order_id exec_id (ord_rej_number code) why order.now) }
{
    Ok(Report {
        order_id,
        cl_ord_id: ClOrdId::copied(alloc, order.cl_ord_id.as_slice())?,
        orig_cl_ord_id: None,
        exec_id,
        exec_ref_id: None,
        exec_type: ExecType::Rejected,
        ord_status: OrdStatus::Rejected,
        ord_rej_reason: Some(code.number()),
        exec_restatement_reason: None,
        symbol: Text::copied(alloc, order.symbol.as_slice())?,
        side: order.side,
        order_qty: own_value(alloc, &order.order_qty)?,
        price: own_price(alloc, &order.price)?,
        last_qty: None,
        last_px: None,
        leaves_qty: 0,
        cum_qty: 0,
        avg_px: FieldValue::number(0),
        text: Some(FieldValue::text(why)),
    })
}

/// A price as the client wrote it, where there is one.
fn own_price(alloc: Global, price: &Option<FloatText>) -> Result<Option<FieldValue>, AllocError>
    ensures { IfOk result (λ own. own ≡ price.now) }
{
    match price {
        None => Ok(None),
        Some(price) => Ok(Some(own_value(alloc, price)?)),
    }
}

/// A quantity or a price as the client wrote it.
fn own_value(alloc: Global, float: &FloatText) -> Result<FieldValue, AllocError>
    ensures { IfOk result (λ own. own ≡ float.now) }
{
    Ok(FieldValue::text(Text::copied(alloc, float.as_slice())?))
}
