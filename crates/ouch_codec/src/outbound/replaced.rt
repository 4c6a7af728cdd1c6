//! Replaced: `U`, 80 bytes, from the market.
//!
//! Source: OUCH 4.2, "Replaced Message".

ghost use Rattle.std.specs.Prelude.{◌≡◌, ◌<◌, ◌≤◌, ◌^◌, true, length};
ghost use Rattle.wire_law.specs.Limits.{most_shares};
ghost use Rattle.wire_law.specs.Printable.{is_printable, ArePrintable};

use crate::field::{
    is_of_type, long_number_at, long_number_bytes, number_at, number_bytes, order_state_at,
    printable_at, put_fields, shares_at, side_at, text_at,
};
use crate::order_state::OrderState;
use crate::side::Side;
use wire_law::FixedWire;

/// An order goes by another token from now on, with other terms. It says the order again, as the market took it.
///
/// A value has each field in its set. `get` is `None` for bytes that are no Replaced; neither `put` nor `get` takes
/// memory.
///
/// Source: OUCH 4.2, "Replaced Message".
#[derive(Clone, Copy, Debug, PartialEq, Eq)]
pub struct Replaced {
    /// When the market replaced it, in nanoseconds since midnight.
    pub timestamp: u64,
    /// The token that the order goes by from now on, padded right with spaces.
    pub token: [u8; 14],
    /// Which side of the market it takes.
    pub side: Side,
    /// How many shares are open: 1 to 999,999.
    pub shares: u32,
    /// The stock's symbol, padded right with spaces.
    pub stock: [u8; 8],
    /// The limit, in 1/10,000 of the currency unit.
    pub price: u32,
    /// How long the order stays, in seconds. 0, 99,998 and 99,999 have meanings of their own.
    pub time_in_force: u32,
    /// The firm that entered it, padded right with spaces.
    pub firm: [u8; 4],
    /// How the order is shown, one printable byte.
    pub display: u8,
    /// The market's number for the order as it stands now.
    pub order_reference: u64,
    /// For whom the firm trades, one printable byte.
    pub capacity: u8,
    /// Whether it may sweep other markets, one printable byte.
    pub intermarket_sweep: u8,
    /// The fewest shares that may be executed at once.
    pub minimum_quantity: u32,
    /// In which crosses it takes part, one printable byte.
    pub cross_type: u8,
    /// Whether the order is on the book.
    pub order_state: OrderState,
    /// The token that the order went by until now, padded right with spaces.
    pub previous_token: [u8; 14],
    /// What the order does to the best bid and offer, one printable byte.
    pub bbo_weight: u8,
    ghost timestamp_set: { timestamp < 2 ^ 64 },
    ghost token_set: { (length token ≡ 14) × ArePrintable token },
    ghost shares_set: { (1 ≤ shares) × (shares ≤ most_shares) },
    ghost stock_set: { (length stock ≡ 8) × ArePrintable stock },
    ghost price_set: { price < 2 ^ 32 },
    ghost time_in_force_set: { time_in_force < 2 ^ 32 },
    ghost firm_set: { (length firm ≡ 4) × ArePrintable firm },
    ghost display_set: { is_printable display ≡ true },
    ghost order_reference_set: { order_reference < 2 ^ 64 },
    ghost capacity_set: { is_printable capacity ≡ true },
    ghost intermarket_sweep_set: { is_printable intermarket_sweep ≡ true },
    ghost minimum_quantity_set: { minimum_quantity < 2 ^ 32 },
    ghost cross_type_set: { is_printable cross_type ≡ true },
    ghost previous_token_set: { (length previous_token ≡ 14) × ArePrintable previous_token },
    ghost bbo_weight_set: { is_printable bbo_weight ≡ true },
}

impl FixedWire for Replaced {
    ghost use Rattle.ouch_codec.specs.Layout.{IsMessage, spelled};
    ghost use Rattle.ouch_codec.specs.Layouts.{replaced_layout};
    ghost use Rattle.ouch_codec.specs.Rows.{replaced_row};
    ghost use Rattle.ouch_codec.specs.LaidOut.{length-written, IsMessage-written, same_written};
    ghost use Rattle.ouch_codec.specs.ReplacedLaws.{replaced_laid_out};

    const LEN: usize = 80;

    ghost LEN = { 80 };

    ghost bytes = { λ message. spelled replaced_layout (replaced_row message) };

    ghost is_spelled = { IsMessage replaced_layout };

    ghost fixed = { length-written replaced_laid_out };

    ghost again = { IsMessage-written replaced_laid_out };

    ghost one_value = { same_written replaced_laid_out };

    fn put(&self, out: &mut [u8]) {
        put_fields(
            out,
            &[
                b"U",
                &long_number_bytes(self.timestamp),
                &self.token,
                &[self.side.letter()],
                &number_bytes(self.shares),
                &self.stock,
                &number_bytes(self.price),
                &number_bytes(self.time_in_force),
                &self.firm,
                &[self.display],
                &long_number_bytes(self.order_reference),
                &[self.capacity, self.intermarket_sweep],
                &number_bytes(self.minimum_quantity),
                &[self.cross_type, self.order_state.letter()],
                &self.previous_token,
                &[self.bbo_weight],
            ],
        );
    }

    fn get(b: &[u8]) -> Option<Self> {
        if !is_of_type(b, b'U', Self::LEN) {
            return None;
        }
        Some(Replaced {
            timestamp: long_number_at(b, 1),
            token: text_at(b, 9)?,
            side: side_at(b, 23)?,
            shares: shares_at(b, 24)?,
            stock: text_at(b, 28)?,
            price: number_at(b, 36),
            time_in_force: number_at(b, 40),
            firm: text_at(b, 44)?,
            display: printable_at(b, 48)?,
            order_reference: long_number_at(b, 49),
            capacity: printable_at(b, 57)?,
            intermarket_sweep: printable_at(b, 58)?,
            minimum_quantity: number_at(b, 59),
            cross_type: printable_at(b, 63)?,
            order_state: order_state_at(b, 64)?,
            previous_token: text_at(b, 65)?,
            bbo_weight: printable_at(b, 79)?,
        })
    }
}
