//! What a message of the market changes of an order.

ghost use Rattle.std.specs.Prelude.{◌≡◌};
ghost use Rattle.orders.specs.Changes.{breaks, renames};

use order_trades::ToldTrade;

/// What a message of the market changes of an order, by its type. What is told of it isn't said here.
///
/// Source: OUCH 4.2, "Outbound Messages".
#[derive(Clone, Copy)]
pub enum Change {
    /// Accepted: it is in the book with these shares at a price in 1/10,000, or dead at once.
    Opened {
        shares: u32,
        price: u32,
        is_dead: bool,
    },
    /// Replaced: the same, under the token and the ClOrdID of its oldest pending replace. Nothing where none is
    /// pending.
    Replaced {
        shares: u32,
        price: u32,
        is_dead: bool,
    },
    /// Canceled: these shares are open no more.
    Canceled(u32),
    /// Executed: one trade more.
    Traded(ToldTrade),
    /// Broken Trade: this trade is taken back.
    Broken(ToldTrade),
    /// Rejected, of the new order.
    Refused,
    /// Rejected, of its oldest pending replace, and so of those behind it too.
    NotReplaced,
    /// Cancel Reject, on this token.
    NotCanceled([u8; 14]),
}

/// The match number of the trade that a change breaks. Every other one leaves those that are there, and adds one at
/// most.
pub(crate) fn breaks(change: Change) -> Option<u64>
    ensures { result ≡ breaks change }
{
    match change {
        Change::Broken(told) => Some(told.trade.match_number),
        _ => None,
    }
}

/// Whether a change gives the order another ClOrdID.
pub(crate) fn renames(change: Change) -> bool
    ensures { result ≡ renames change }
{
    match change {
        Change::Replaced { .. } => true,
        _ => false,
    }
}
