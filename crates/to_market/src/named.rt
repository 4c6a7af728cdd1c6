//! The order that a request names, as its table reads it and as a report or reject shows it.

ghost use Rattle.std.specs.Prelude.{◌≡◌, length, unwrap_or};
ghost use Rattle.std.specs.List.{count_by};
ghost use Rattle.order_law.specs.History.{terms_of};
ghost use Rattle.order_machine.specs.OrderRecord.{shown_as};
ghost use Rattle.order_machine.specs.Table.{TableState, is_replacement_of, named_as};
ghost use Rattle.to_client.specs.Shows.{ShowsAs};
ghost use Rattle.to_market.specs.Names.{HasRead};

use crate::named_order::NamedOrder;
use fix_values::Character;
use order_law::Stage;
use orders::Order;
use to_client::{Shown, shown_of};

/// An order as the table of requests reads it: `own` is the capacity of its client, `replaces` how many replaces of it
/// were accepted.
pub fn named_of<'a>(order: &'a Order, own: u8, replaces: usize) -> NamedOrder<'a>
    ensures reads { (s : TableState) → (terms_of s.terms order.now.new.client).capacity ≡ own
        → count_by (is_replacement_of order.now.new.order) s.tokens ≡ replaces
        → HasRead (named_as s order.now) result }
    ensures pending { result.pending_replaces ≡ length order.now.replaces }
{
    let pending_replaces = order.replaces.as_slice().len();
    NamedOrder {
        side: order.side,
        symbol: order.symbol.as_slice(),
        capacity: capacity_of(order.order_capacity, own),
        is_closed: order.progress.stage == Stage::Closed,
        executed: order.progress.executed,
        has_pending_cancel: order.cancel.is_some(),
        pending_replaces,
        replaces: replaces as u64,
    }
}

/// OrderCapacity (528) of a new order; where it has none, its client's own.
fn capacity_of(order_capacity: Option<Character>, own: u8) -> u8
    ensures { result ≡ unwrap_or order_capacity own }
{
    match order_capacity {
        None => own,
        Some(letter) => letter.byte(),
    }
}

/// An order as it is shown now.
pub fn shown_now<'a>(order: &'a Order) -> Shown<'a>
    ensures { ShowsAs result (shown_as order.now) }
{
    shown_of(order, &order.progress)
}
