//! A cancel or replace that isn't done: OrderCancelReject.

ghost use Rattle.std.specs.Prelude.{◌≡◌, ◌∷◌, [], IfOk, Option};
ghost use Rattle.orders.specs.fix_types.CancelReject.{cancel_reject_fields};
ghost use Rattle.order_law.specs.fix_fields.Field.{Message};
ghost use Rattle.fix_values.specs.Reasons.{cxl_rej_number};
ghost use Rattle.order_law.specs.Told as law;
ghost use Rattle.to_client.specs.Shows.{IsRequest, ShowsAny, id_number};

use crate::shown::{Request, Shown};
use crate::status::status_or_rejected;
use fix_fields::Text;
use fix_types::CancelReject;
use fix_values::{ClOrdId, CxlRejReason};
use std::alloc::{AllocError, Global};

/// The reject of a request, with a code (102) and a text (58): of one that is refused, or of a pending one that the
/// market answers with a no. 37 and 39 are those of `order`, which its 41 names, as it is shown then; where it names
/// none they are `NONE` and 8. The one error is that memory ran out.
///
/// Source: FIX 4.4 Volume 4, "Order Cancel Reject".
pub fn cancel_reject(
    alloc: Global,
    request: &Request,
    order: &Option<Shown>,
    code: CxlRejReason,
    text: Text,
) -> Result<CancelReject, AllocError>
    ensures { IfOk result (λ r. (m : Message) (s : Option law.Shown) → IsRequest request.now m → ShowsAny order.now s
        → cancel_reject_fields r ∷ [] ≡ law.refused_request m s (cxl_rej_number code) text) }
{
    Ok(CancelReject {
        order_id: order_id_of(order),
        cl_ord_id: ClOrdId::copied(alloc, request.cl_ord_id.as_slice())?,
        orig_cl_ord_id: ClOrdId::copied(alloc, request.orig_cl_ord_id.as_slice())?,
        ord_status: status_or_rejected(order),
        cxl_rej_response_to: request.kind,
        cxl_rej_reason: code.number(),
        text,
    })
}

/// OrderID (37), where there is an order.
fn order_id_of(order: &Option<Shown>) -> Option<u64>
    ensures { result ≡ id_number order.now }
{
    match order {
        None => None,
        Some(order) => Some(order.order_id),
    }
}
