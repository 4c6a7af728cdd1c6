//! Accepted: the market took a new order.

ghost use Rattle.std.specs.Prelude.{◌≡◌, ◌≤◌, ◌<◌, ◌^◌, true, length, map, IfOk};
ghost use Rattle.orders.specs.fix_types.Application.{body_fields};
ghost use Rattle.orders.specs.declared.change.Change.TheVariants.{Opened};
ghost use Rattle.ouch_codec.specs.declared.outbound.Outbound.TheVariants as market;
ghost use Rattle.orders.specs.order_law.Life as life;
ghost use Rattle.market_messages.specs.Meets.{MeetsRow, is_lawful, told_of};

use crate::heard::{Heard, RowFault};
use crate::terms::is_same_terms;
use fix_types::AppBody;
use order_law::Stage;
use orders::{Change, Order};
use ouch_codec::{Accepted, OrderState};
use std::alloc::{AllocError, Global};
use to_client::{Occasion, pending_of, push_canceled, push_report, report_of, shown_of};
use wire_bytes::is_same_token;

/// Lawful for an order that waits under this token, with the side and stock that it asked: the order is open with the
/// shares and the price given, and reported as new. Where its state is dead, all of it is cancelled at once, which a
/// second report says; a pending cancel is answered by it, and a pending replace is too late.
///
/// Source: OUCH 4.2, "Accepted Message".
pub fn on_accepted(
    alloc: Global,
    issued: u64,
    order: &Order,
    message: &Accepted,
) -> Result<Heard, RowFault>
    requires { issued < 2 ^ 60 }
    ensures { MeetsRow issued (market.Accepted message.now) order.now result }
{
    if !may_open(order, message) {
        return Err(RowFault::NotLawful);
    }
    Ok(Heard {
        change: opened_by(message, is_dead(message.order_state)),
        bodies: tell_accepted(alloc, issued, order, message)?,
    })
}

/// The bodies for its client, if it is lawful.
fn tell_accepted(
    alloc: Global,
    issued: u64,
    order: &Order,
    message: &Accepted,
) -> Result<Vec<AppBody>, AllocError>
    requires issued { issued < 2 ^ 60 }
    requires may { is_lawful (market.Accepted message.now) order.now ≡ true }
    ensures told { IfOk result (λ bodies. map body_fields bodies.items
        ≡ told_of issued (market.Accepted message.now) order.now) }
    ensures few { IfOk result (λ bodies. length bodies.items ≤ 6) }
{
    let opened = order.progress_after(opened_by(message, false));
    let mut bodies = Vec::with_capacity(alloc, 1)?;
    let shown = shown_of(order, &opened);
    let report = report_of(alloc, issued + 1, Occasion::New, &shown)?;
    push_report(&mut bodies, report)?;
    if is_dead(message.order_state) {
        let gone = order.progress_after(opened_by(message, true));
        let closed = shown_of(order, &gone);
        let pending = pending_of(order);
        push_canceled(alloc, &mut bodies, issued + 2, None, &closed, &pending)?;
        return Ok(bodies);
    }
    Ok(bodies)
}

/// What it changes, where it is dead or not.
fn opened_by(message: &Accepted, is_dead: bool) -> Change
    ensures { result ≡ Opened message.now.shares message.now.price is_dead }
{
    Change::Opened {
        shares: message.shares,
        price: message.price,
        is_dead,
    }
}

/// Whether an order isn't in the book, though it was taken.
pub fn is_dead(state: OrderState) -> bool
    ensures { result ≡ life.is_dead state }
{
    match state {
        OrderState::Live => false,
        OrderState::Dead => true,
    }
}

/// Whether an order waits for an Accepted like this.
fn may_open(order: &Order, message: &Accepted) -> bool
    ensures { result ≡ is_lawful (market.Accepted message.now) order.now }
{
    is_same_token(&message.token, &order.token)
        && (order.progress.stage == Stage::Waiting
            && is_same_terms(order, &message.stock, message.side))
}
