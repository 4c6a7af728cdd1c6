//! An order and its pending requests, as reports and rejects show them.

ghost use Rattle.std.specs.Prelude.{◌≡◌, ◌≤◌, length};
ghost use Rattle.order_law.specs.Asks.{total_of};
ghost use Rattle.order_law.specs.declared.stage.Stage.TheVariants.{Waiting};
ghost use Rattle.orders.specs.order_machine.OrderRecord.{shown_as};
ghost use Rattle.orders.specs.declared.progress.Progress.{Progress};
ghost use Rattle.orders.specs.Seen.{progressed};
ghost use Rattle.to_client.specs.Pending.{IsPending, cancel_in};
ghost use Rattle.to_client.specs.Shows.{ShowsAs};

use crate::pending::Pending;
use crate::shown::{Request, Shown};
use orders::{Order, Progress};

/// An order with its pending requests, as it is shown once it has come so far. The total of an order that waits is
/// that of its own message.
pub fn shown_of<'a>(order: &'a Order, progress: &'a Progress) -> Shown<'a>
    requires { progress.now.stage ≡ Waiting → progress.now.total ≡ total_of order.now.new.message }
    ensures { ShowsAs result (shown_as (progressed progress.now order.now)) }
{
    Shown {
        order_id: order.order_id,
        cl_ord_id: &order.cl_ord_id,
        symbol: &order.symbol,
        side: order.side,
        progress,
        has_pending_cancel: order.cancel.is_some(),
        has_pending_replace: !order.replaces.is_empty(),
    }
}

/// The pending requests of an order.
pub fn pending_of<'a>(order: &'a Order) -> Pending<'a>
    ensures pending { (p : Progress) → IsPending result order.now.replaces (cancel_in order.now.cancel)
        (shown_as (progressed p order.now)) }
    ensures few { length result.replaces.now ≤ 4 }
{
    let cancel = match &order.cancel {
        None => None,
        Some(cancelling) => Some(Request::of_cancel(&cancelling.get().message)),
    };
    Pending {
        replaces: order.replaces.as_slice(),
        cancel,
    }
}
