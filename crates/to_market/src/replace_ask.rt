//! What a replace asks.

ghost use Rattle.std.specs.Prelude.{◌≡◌, ◌<◌, ◌^◌, true};
ghost use Rattle.wire_law.specs.Printable.{is_printable};

use fixed_point::{Price4, Shares};
use tokens::Token;

/// What an accepted replace asks of the market, but for the token that its order goes by.
#[derive(Clone, Copy, PartialEq, Eq)]
pub struct ReplaceAsk {
    /// The token that the order is to go by.
    pub token: Token,
    /// The total, with what is executed already.
    pub shares: Shares,
    pub price: Price4,
    pub time_in_force: u32,
    pub display: u8,
    /// In shares.
    pub minimum_quantity: u32,
    ghost time_in_force_set: { time_in_force < 2 ^ 32 },
    ghost display_set: { is_printable display ≡ true },
    ghost minimum_quantity_set: { minimum_quantity < 2 ^ 32 },
}
