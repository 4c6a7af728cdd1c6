//! Rejected: the market didn't take a new order, or a replacement.

ghost use Rattle.std.specs.Prelude.{◌≡◌, ℕ, ◌≤◌, ◌<◌, ◌^◌, true, false, length, map, IfOk};
ghost use Rattle.orders.specs.fix_types.Application.{body_fields};
ghost use Rattle.ouch_codec.specs.declared.outbound.Outbound.TheVariants as market;
ghost use Rattle.market_messages.specs.Meets.{MeetsRow, rejects_new, rejects_replace, told_of};

use crate::heard::{Heard, RowFault};
use fix_types::AppBody;
use order_law::Stage;
use orders::{Change, Order};
use ouch_codec::Rejected;
use std::alloc::{AllocError, Global};
use to_client::{
    Occasion, Pending, Shown, pending_of, push_cancel_rejected, push_not_replaced, push_report,
    push_too_late, report_of, shown_of,
};
use wire_bytes::is_same_token;

/// Lawful for an order that waits under this token: it is over, with the market's letter as the reason, and each
/// pending request is too late. And for an order that isn't closed, of its oldest pending replace: that is answered by
/// a reject with the letter, each replace behind it by another, and the Cancel Orders of their tokens are answered.
///
/// Source: OUCH 4.2, "Rejected Message".
pub fn on_rejected(
    alloc: Global,
    issued: u64,
    order: &Order,
    message: &Rejected,
) -> Result<Heard, RowFault>
    requires { issued < 2 ^ 60 }
    ensures { MeetsRow issued (market.Rejected message.now) order.now result }
{
    if may_refuse(order, message) {
        return Ok(Heard {
            change: Change::Refused,
            bodies: tell_refused(alloc, issued, order, message)?,
        });
    }
    if may_reject_replace(order, message) {
        return Ok(Heard {
            change: Change::NotReplaced,
            bodies: tell_not_replaced(alloc, order, message)?,
        });
    }
    Err(RowFault::NotLawful)
}

/// The bodies for its client, of a new order.
fn tell_refused(
    alloc: Global,
    issued: u64,
    order: &Order,
    message: &Rejected,
) -> Result<Vec<AppBody>, AllocError>
    requires issued { issued < 2 ^ 60 }
    requires may { rejects_new message.now order.now ≡ true }
    ensures told { IfOk result (λ bodies. map body_fields bodies.items
        ≡ told_of issued (market.Rejected message.now) order.now) }
    ensures few { IfOk result (λ bodies. length bodies.items ≤ 6) }
{
    let refused = order.progress_after(Change::Refused);
    let occasion = Occasion::Rejected(message.reason);
    let mut bodies = Vec::with_capacity(alloc, 1)?;
    let shown = shown_of(order, &refused);
    let report = report_of(alloc, issued + 1, occasion, &shown)?;
    push_report(&mut bodies, report)?;
    push_too_late(alloc, &mut bodies, &shown, &pending_of(order))?;
    Ok(bodies)
}

/// The bodies for its client, of its pending replaces.
fn tell_not_replaced(
    alloc: Global,
    order: &Order,
    message: &Rejected,
) -> Result<Vec<AppBody>, AllocError>
    requires not_new { rejects_new message.now order.now ≡ false }
    requires may { rejects_replace message.now order.now ≡ true }
    ensures told { IfOk result (λ bodies. (issued : ℕ)
        → map body_fields bodies.items ≡ told_of issued (market.Rejected message.now) order.now) }
    ensures few { IfOk result (λ bodies. length bodies.items ≤ 6) }
{
    let progress = order.progress_after(Change::NotReplaced);
    let pending = pending_of(order);
    let shown = shown_of(order, &progress);
    let mut bodies = Vec::with_capacity(alloc, 1)?;
    push_not_replaced(alloc, &mut bodies, message.reason, &shown, &pending)?;
    let left = Shown {
        has_pending_replace: false,
        ..shown
    };
    let rest = Pending {
        replaces: &[],
        ..pending
    };
    let is_last = order.is_last_of_replaces();
    push_cancel_rejected(alloc, &mut bodies, is_last, &left, &rest)?;
    Ok(bodies)
}

/// Whether an order waits for the market's answer under this token.
fn may_refuse(order: &Order, message: &Rejected) -> bool
    ensures { result ≡ rejects_new message.now order.now }
{
    is_same_token(&message.token, &order.token) && order.progress.stage == Stage::Waiting
}

/// Whether this is the token of the oldest pending replace of an order that isn't closed.
fn may_reject_replace(order: &Order, message: &Rejected) -> bool
    ensures { result ≡ rejects_replace message.now order.now }
{
    order.awaits(&message.token) && order.progress.stage != Stage::Closed
}
