//! Canceled: shares of an order left the book without a trade.

ghost use Rattle.std.specs.Prelude.{◌≡◌, ◌≤◌, ◌<◌, ◌^◌, true, length, map, IfOk};
ghost use Rattle.orders.specs.fix_types.Application.{body_fields};
ghost use Rattle.ouch_codec.specs.declared.outbound.Outbound.TheVariants as market;
ghost use Rattle.market_messages.specs.Meets.{MeetsRow, is_lawful, told_of};

use crate::heard::{Heard, RowFault};
use fix_types::AppBody;
use order_law::Stage;
use orders::{Change, Order};
use ouch_codec::Canceled;
use std::alloc::{AllocError, Global};
use to_client::{Occasion, pending_of, push_canceled, push_report, report_of, shown_of};
use wire_bytes::is_same_token;

/// Lawful for an order in the book under this token, of shares that are open: these are cancelled. Where nothing is
/// left, the order is over, which answers a pending cancel, and a pending replace is too late; else its total is
/// restated.
///
/// Source: OUCH 4.2, "Canceled Message".
pub fn on_canceled(
    alloc: Global,
    issued: u64,
    order: &Order,
    message: &Canceled,
) -> Result<Heard, RowFault>
    requires { issued < 2 ^ 60 }
    ensures { MeetsRow issued (market.Canceled message.now) order.now result }
{
    if !may_cancel(order, message) {
        return Err(RowFault::NotLawful);
    }
    Ok(Heard {
        change: Change::Canceled(message.decrement),
        bodies: tell_canceled(alloc, issued, order, message)?,
    })
}

/// The bodies for its client, if it is lawful.
fn tell_canceled(
    alloc: Global,
    issued: u64,
    order: &Order,
    message: &Canceled,
) -> Result<Vec<AppBody>, AllocError>
    requires issued { issued < 2 ^ 60 }
    requires may { is_lawful (market.Canceled message.now) order.now ≡ true }
    ensures told { IfOk result (λ bodies. map body_fields bodies.items
        ≡ told_of issued (market.Canceled message.now) order.now) }
    ensures few { IfOk result (λ bodies. length bodies.items ≤ 6) }
{
    let progress = order.progress_after(Change::Canceled(message.decrement));
    let mut bodies = Vec::with_capacity(alloc, 1)?;
    if message.decrement == order.progress.unfilled {
        let shown = shown_of(order, &progress);
        let reason = Some(message.reason);
        let pending = pending_of(order);
        push_canceled(alloc, &mut bodies, issued + 1, reason, &shown, &pending)?;
        return Ok(bodies);
    }
    let occasion = Occasion::Restated(message.reason);
    let reduced = shown_of(order, &progress);
    let report = report_of(alloc, issued + 1, occasion, &reduced)?;
    push_report(&mut bodies, report)?;
    Ok(bodies)
}

/// Whether this many shares of an order may leave the book.
fn may_cancel(order: &Order, message: &Canceled) -> bool
    ensures { result ≡ is_lawful (market.Canceled message.now) order.now }
{
    (is_same_token(&message.token, &order.token) && order.progress.stage == Stage::Working)
        && (1 <= message.decrement && message.decrement <= order.progress.unfilled)
}
