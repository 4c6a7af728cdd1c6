//! Replaced: an order goes by another token from now on, with other terms.

ghost use Rattle.std.specs.Prelude.{◌≡◌, ◌≤◌, ◌<◌, ◌^◌, ◌∷◌, ◌++◌, true, length, map, IfOk, List};
ghost use Rattle.std.specs.Prelude.{Option, option_to_list};
ghost use Rattle.orders.specs.fix_types.Application.{body_fields};
ghost use Rattle.orders.specs.declared.change.Change.TheVariants as changes;
ghost use Rattle.ouch_codec.specs.declared.outbound.Outbound.TheVariants as market;
ghost use Rattle.orders.specs.order_law.History.{Entry};
ghost use Rattle.order_machine.specs.fix_fields.Field.{text};
ghost use Rattle.orders.specs.order_law.Told as law;
ghost use Rattle.to_client.specs.declared.pending.Pending.{Pending};
ghost use Rattle.to_client.specs.Pending.{IsPending, messages_in, messages_of};
ghost use Rattle.to_client.specs.Shows.{IsRequest, ShowsAs};
ghost use Rattle.market_messages.specs.Meets.{MeetsRow, is_lawful, told_of};

use crate::accepted::is_dead;
use crate::heard::{Heard, RowFault};
use crate::terms::is_same_terms;
use fix_types::AppBody;
use order_law::Stage;
use orders::{Change, Order, Replacing};
use ouch_codec::Replaced;
use std::alloc::{AllocError, Global};
use to_client::{
    Pending, Request, Shown, pending_of, push_cancel_rejected, push_canceled, push_report,
    report_replaced, shown_of,
};
use wire_bytes::is_same_token;

/// Lawful for an order in the book under the previous token, of its oldest pending replace, with the side and stock
/// that the order asked: it is open under the replace's token and ClOrdID with the shares and the price given, which
/// answers the replace. Where its state is dead, all of it is cancelled at once, which a second report says and which
/// answers a pending cancel, and the replaces behind it are too late; else the Cancel Order of the previous token is
/// answered.
///
/// Source: OUCH 4.2, "Replaced Message".
pub fn on_replaced(
    alloc: Global,
    issued: u64,
    order: &Order,
    message: &Replaced,
) -> Result<Heard, RowFault>
    requires { issued < 2 ^ 60 }
    ensures { MeetsRow issued (market.Replaced message.now) order.now result }
{
    if !may_replace(order, message) {
        return Err(RowFault::NotLawful);
    }
    Ok(Heard {
        change: replaced_by(message, is_dead(message.order_state)),
        bodies: tell_replaced(alloc, issued, order, message)?,
    })
}

/// The bodies for its client, if it is lawful.
fn tell_replaced(
    alloc: Global,
    issued: u64,
    order: &Order,
    message: &Replaced,
) -> Result<Vec<AppBody>, AllocError>
    requires issued { issued < 2 ^ 60 }
    requires may { is_lawful (market.Replaced message.now) order.now ≡ true }
    ensures told { IfOk result (λ bodies. map body_fields bodies.items
        ≡ told_of issued (market.Replaced message.now) order.now) }
    ensures few { IfOk result (λ bodies. length bodies.items ≤ 6) }
{
    let mut bodies = Vec::with_capacity(alloc, 1)?;
    let [oldest, others @ ..] = order.replaces.as_slice() else {
        return Ok(bodies);
    };
    let request = Request::of_replace(&oldest.message);
    let rest = Pending {
        replaces: others,
        ..pending_of(order)
    };
    let opened = order.progress_after(replaced_by(message, false));
    let whole = shown_of(order, &opened);
    let shown = renamed(&whole, &request, others);
    let report = report_replaced(alloc, issued + 1, &request, &shown)?;
    push_report(&mut bodies, report)?;
    if is_dead(message.order_state) {
        let gone = order.progress_after(replaced_by(message, true));
        let over = shown_of(order, &gone);
        let closed = renamed(&over, &request, others);
        push_canceled(alloc, &mut bodies, issued + 2, None, &closed, &rest)?;
        return Ok(bodies);
    }
    let is_last = order.is_last(&message.previous_token);
    push_cancel_rejected(alloc, &mut bodies, is_last, &shown, &rest)?;
    Ok(bodies)
}

/// An order as it is shown under the ClOrdID of its oldest replace, which isn't pending any more: these still are.
fn renamed<'a>(shown: &Shown<'a>, request: &Request<'a>, others: &[Replacing]) -> Shown<'a>
    ensures { (pending : Pending) (q : Entry) (qs : List Entry) (cancel : Option Entry) (s : law.Shown)
        → ShowsAs shown.now s → IsPending pending (q ∷ qs) cancel s → messages_in others.now ≡ messages_of qs
        → IsRequest request.now q.message
        → ShowsAs result (record s { id = text 11 q.message; pending = qs ++ option_to_list cancel }) }
{
    Shown {
        cl_ord_id: request.cl_ord_id,
        has_pending_replace: !others.is_empty(),
        ..*shown
    }
}

/// What it changes, where it is dead or not.
fn replaced_by(message: &Replaced, is_dead: bool) -> Change
    ensures { result ≡ changes.Replaced message.now.shares message.now.price is_dead }
{
    Change::Replaced {
        shares: message.shares,
        price: message.price,
        is_dead,
    }
}

/// Whether the oldest pending replace of an order waits for a Replaced like this.
fn may_replace(order: &Order, message: &Replaced) -> bool
    ensures { result ≡ is_lawful (market.Replaced message.now) order.now }
{
    (is_same_token(&message.previous_token, &order.token) && order.progress.stage == Stage::Working)
        && (order.awaits(&message.token) && is_same_terms(order, &message.stock, message.side))
}
