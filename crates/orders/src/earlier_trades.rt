//! What the trades of an order were.

ghost use Rattle.std.specs.Prelude.{◌≡◌, ◌≤◌, length};
ghost use Rattle.orders.specs.EarlierTrades.{trades_before};

use order_trades::Trades;

/// What the trades of an order were before it was changed: the first ones of those that there are.
#[derive(Clone, Copy)]
pub(crate) struct EarlierTrades {
    /// How many they were.
    pub count: usize,
    /// The place of the one that was broken since.
    pub unbroken: Option<usize>,
}

/// Puts the trades back to what they were. Takes no memory.
pub(crate) fn put_trades_back(trades: &mut Trades, earlier: EarlierTrades)
    ensures trades { trades.new ≡ trades_before earlier trades.old }
    ensures most { length trades.new ≤ earlier.count }
{
    trades.put_back(earlier.count, earlier.unbroken);
}
