//! What a new order asks.

ghost use Rattle.std.specs.Prelude.{◌≡◌, ◌<◌, ◌^◌, true, length};
ghost use Rattle.wire_law.specs.Printable.{is_printable, ArePrintable};

use fixed_point::{Price4, Shares};
use ouch_codec::Side;

/// What a new order asks of the market, but for its token and its client's terms.
#[derive(Clone, Copy, PartialEq, Eq)]
pub struct NewAsk {
    pub side: Side,
    pub shares: Shares,
    /// The symbol, padded right with spaces.
    pub stock: [u8; 8],
    pub price: Price4,
    pub time_in_force: u32,
    pub display: u8,
    pub capacity: u8,
    /// In shares.
    pub minimum_quantity: u32,
    ghost stock_set: { (length stock ≡ 8) × ArePrintable stock },
    ghost time_in_force_set: { time_in_force < 2 ^ 32 },
    ghost display_set: { is_printable display ≡ true },
    ghost capacity_set: { is_printable capacity ≡ true },
    ghost minimum_quantity_set: { minimum_quantity < 2 ^ 32 },
}
