//! What orders come to.

ghost use Rattle.std.specs.Prelude.{◌≡◌, true, not};
ghost use Rattle.undo_orders.specs.orders.order_law.Life.{is_closed};
ghost use Rattle.order_table.specs.Sums.{is_small, no_sums, part, sums_of};

use order_law::Stage;
use orders::Order;

/// What all orders of a client come to, or one of them alone.
#[derive(Clone, Copy, Drop)]
pub struct Sums {
    /// Shares times price of the trades that stand, in 1/10,000.
    pub value: u128,
    /// CumQty (14), in shares: without the trades that were broken.
    pub executed: u128,
    /// How many aren't closed.
    pub still_open: usize,
}

impl Sums {
    /// Of no order.
    pub fn none() -> Sums
        ensures { result ≡ no_sums }
    {
        Sums {
            value: 0,
            executed: 0,
            still_open: 0,
        }
    }

    /// Of one order, which has executed no more than its tokens allow.
    pub fn of(order: &Order) -> Sums
        ensures sums { result ≡ sums_of order.now }
        ensures small { is_small order.now ≡ true }
    {
        Sums {
            value: order.progress.value,
            executed: u128::from(order.progress.executed),
            still_open: open_count(order.progress.stage),
        }
    }
}

/// 1 at a stage that isn't closed, else 0.
fn open_count(stage: Stage) -> usize
    ensures { result ≡ part (not (is_closed stage)) 1 }
{
    match stage {
        Stage::Waiting | Stage::Working => 1,
        Stage::Closed => 0,
    }
}
