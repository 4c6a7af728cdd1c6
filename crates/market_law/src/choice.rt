//! What the market is free to do, as a value that is handed in.

ghost use Rattle.std.specs.Prelude.{◌≡◌, ◌<◌, ◌^◌, MatchOption, true, false};
ghost use Rattle.order_law.specs.wire_law.Printable as printable;

use wire_law::is_printable;

/// A letter that a message can carry: a byte from 32 to 126.
///
/// Source: OUCH 4.2, "Data Types", alpha.
#[derive(Clone, Copy, Debug, PartialEq, Eq)]
pub struct Letter {
    /// The byte on the wire.
    pub byte: u8,
    ghost byte_set: { printable.is_printable byte ≡ true },
}

impl Letter {
    /// The letter of a byte, or `None` where it is not from 32 to 126.
    pub fn of(byte: u8) -> Option<Letter>
        ensures { MatchOption result (printable.is_printable byte ≡ false) (λ letter. letter.byte ≡ byte) }
    {
        if is_printable(byte) {
            Some(Letter { byte })
        } else {
            None
        }
    }
}

/// Shares of an order are to be traded.
///
/// Source: OUCH 4.2, "Executed Order Message".
#[derive(Clone, Copy, Debug, PartialEq, Eq)]
pub struct Trading {
    /// The token that the order goes by, padded right with spaces.
    pub token: [u8; 14],
    /// How many shares.
    pub shares: u32,
    /// The price of one, in 1/10,000 of the currency unit.
    pub price: u32,
    ghost shares_set: { shares < 2 ^ 32 },
    ghost price_set: { price < 2 ^ 32 },
}

/// Shares of an order are to leave the book without a trade.
///
/// Source: OUCH 4.2, "Canceled Message".
#[derive(Clone, Copy, Debug, PartialEq, Eq)]
pub struct Removal {
    /// The token that the order goes by, padded right with spaces.
    pub token: [u8; 14],
    /// How many shares.
    pub shares: u32,
    ghost shares_set: { shares < 2 ^ 32 },
}

/// A trade is to be taken back.
///
/// Source: OUCH 4.2, "Broken Trade Message".
#[derive(Clone, Copy, Debug, PartialEq, Eq)]
pub struct Breaking {
    /// The market's number for the trade.
    pub match_number: u64,
    ghost match_number_set: { match_number < 2 ^ 64 },
}

/// What the market does where it is free: as its answer to a message, or by itself.
///
/// `specs/Machine.antt` says which choices an answer has, and which the market may take by itself. Any other one counts
/// as the first that the answer has, and does nothing by itself.
#[derive(Clone, Copy, Debug, PartialEq, Eq)]
pub enum Choice {
    /// The order is taken and is in the book. To a Cancel Order: all that is open is cancelled.
    AcceptLive,
    /// The order is taken and is over at once. To a Cancel Order: Cancel Pending.
    AcceptDead,
    /// The order, or the replacement, isn't taken, for this reason. To a Cancel Order: Cancel Reject.
    Refuse(Letter),
    /// By itself: a trade.
    Execute(Trading),
    /// By itself: shares leave the book. To a Replace Order: all that is open does, in place of a replacement.
    TakeOff(Removal),
    /// By itself: a trade is taken back.
    Break(Breaking),
    /// By itself: a System Event with this letter.
    SystemEvent(Letter),
    /// By itself: nothing.
    Nothing,
}
