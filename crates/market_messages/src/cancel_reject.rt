//! Cancel Reject: the market does not cancel an order.

ghost use Rattle.std.specs.Prelude.{◌≡◌, ◌≤◌, ℕ, true, length, map, IfOk};
ghost use Rattle.orders.specs.fix_types.Application.{body_fields};
ghost use Rattle.ouch_codec.specs.declared.outbound.Outbound.TheVariants as market;
ghost use Rattle.market_messages.specs.Meets.{MeetsRow, is_lawful, told_of};

use crate::heard::{Heard, RowFault};
use fix_types::AppBody;
use order_law::Stage;
use orders::{Change, Order};
use ouch_codec::CancelReject;
use std::alloc::{AllocError, Global};
use to_client::{pending_of, push_cancel_rejected, shown_of};
use wire_bytes::is_same_token;

/// Lawful for an order in the book under this token: the Cancel Order of it is answered. Where that was the last of a
/// pending cancel, the cancel is answered by a reject.
///
/// Source: OUCH 4.2, "Cancel Reject Message".
pub fn on_cancel_reject(
    alloc: Global,
    order: &Order,
    message: &CancelReject,
) -> Result<Heard, RowFault>
    ensures { (issued : ℕ) → MeetsRow issued (market.CancelReject message.now) order.now result }
{
    if !may_reject_cancel(order, message) {
        return Err(RowFault::NotLawful);
    }
    Ok(Heard {
        change: Change::NotCanceled(message.token),
        bodies: tell_cancel_reject(alloc, order, message)?,
    })
}

/// The bodies for its client, if it is lawful.
fn tell_cancel_reject(
    alloc: Global,
    order: &Order,
    message: &CancelReject,
) -> Result<Vec<AppBody>, AllocError>
    requires { is_lawful (market.CancelReject message.now) order.now ≡ true }
    ensures told { IfOk result (λ bodies. (issued : ℕ)
        → map body_fields bodies.items ≡ told_of issued (market.CancelReject message.now) order.now) }
    ensures few { IfOk result (λ bodies. length bodies.items ≤ 6) }
{
    let progress = order.progress_after(Change::NotCanceled(message.token));
    let shown = shown_of(order, &progress);
    let mut bodies = Vec::with_capacity(alloc, 1)?;
    let is_last = order.is_last(&message.token);
    push_cancel_rejected(alloc, &mut bodies, is_last, &shown, &pending_of(order))?;
    Ok(bodies)
}

/// Whether an order is in the book under this token.
fn may_reject_cancel(order: &Order, message: &CancelReject) -> bool
    ensures { result ≡ is_lawful (market.CancelReject message.now) order.now }
{
    is_same_token(&message.token, &order.token) && order.progress.stage == Stage::Working
}
