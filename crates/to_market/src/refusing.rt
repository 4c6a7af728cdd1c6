//! Requests that a row of their table refuses.

ghost use Rattle.std.specs.Prelude.{◌≡◌, ◌∷◌, [], ℕ, None, Option, IfOk};
ghost use Rattle.fix_types.specs.Application.{body_fields};
ghost use Rattle.order_machine.specs.fix_fields.Field.{Message};
ghost use Rattle.order_law.specs.Told as law;
ghost use Rattle.order_law.specs.Verdicts.{Port, first_row, rows_of_request};
ghost use Rattle.to_client.specs.Shows.{IsRequest, ShowsAny};
ghost use Rattle.to_market.specs.Refusals.{request_code_of, request_refused_by, refusal_text};

use crate::refusal::Refusal;
use fix_types::AppBody;
use std::alloc::{AllocError, Global};
use to_client::{Request, Shown, cancel_reject};

/// The reject of a request that a row refuses, with the order that it names as it is shown now, if it names one.
///
/// Source: FIX 4.4 Volume 4, "Order Cancel Reject".
pub fn reject(
    alloc: Global,
    request: &Request,
    order: &Option<Shown>,
    refusal: Refusal,
) -> Result<AppBody, AllocError>
    ensures { IfOk result (λ body. (m : Message) (s : Option law.Shown) → IsRequest request.now m → ShowsAny order.now s
        → body_fields body ∷ [] ≡ law.refused_request m s (request_code_of refusal) (refusal_text refusal)) }
{
    let text = refusal.text(alloc)?;
    let reject = cancel_reject(alloc, request, order, refusal.request_code(), text)?;
    Ok(AppBody::CancelReject(reject))
}

/// The row that refuses a request whose OrigClOrdID (41) names no order of its client.
pub fn unknown_row(is_used: bool) -> Refusal
    ensures { (port : Port) (given : ℕ) (m : Message)
        → first_row (rows_of_request is_used None port given m) ≡ request_refused_by result }
{
    if is_used {
        Refusal::DuplicateClOrdId
    } else {
        Refusal::UnknownOrder
    }
}
