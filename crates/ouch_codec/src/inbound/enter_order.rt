//! Enter Order: `O`, 49 bytes, towards the market.
//!
//! Source: OUCH 4.2, "Enter Order Message".

ghost use Rattle.std.specs.Prelude.{◌≡◌, ◌<◌, ◌≤◌, ◌^◌, true, length};
ghost use Rattle.wire_law.specs.Limits.{most_shares};
ghost use Rattle.wire_law.specs.Printable.{is_printable, ArePrintable};

use crate::field::{
    is_of_type, number_at, number_bytes, printable_at, put_fields, shares_at, side_at, text_at,
};
use crate::side::Side;
use wire_law::FixedWire;

/// A new order.
///
/// A value has each field in its set: no Enter Order can be made that the market would not read. `get` is `None` for
/// bytes that are no Enter Order; neither `put` nor `get` takes memory.
///
/// Source: OUCH 4.2, "Enter Order Message".
#[derive(Clone, Copy, Debug, PartialEq, Eq)]
pub struct EnterOrder {
    /// The sender's name for the order, padded right with spaces.
    pub token: [u8; 14],
    /// Which side of the market it takes.
    pub side: Side,
    /// How many shares: 1 to 999,999.
    pub shares: u32,
    /// The stock's symbol, padded right with spaces.
    pub stock: [u8; 8],
    /// The limit, in 1/10,000 of the currency unit.
    pub price: u32,
    /// How long the order stays, in seconds. 0, 99,998 and 99,999 have meanings of their own.
    pub time_in_force: u32,
    /// The firm that enters it, padded right with spaces.
    pub firm: [u8; 4],
    /// How the order is shown, one printable byte.
    pub display: u8,
    /// For whom the firm trades, one printable byte.
    pub capacity: u8,
    /// Whether it may sweep other markets, one printable byte.
    pub intermarket_sweep: u8,
    /// The fewest shares that may be executed at once.
    pub minimum_quantity: u32,
    /// In which crosses it takes part, one printable byte.
    pub cross_type: u8,
    /// Whether the customer is a retail one, one printable byte.
    pub customer_type: u8,
    ghost token_set: { (length token ≡ 14) × ArePrintable token },
    ghost shares_set: { (1 ≤ shares) × (shares ≤ most_shares) },
    ghost stock_set: { (length stock ≡ 8) × ArePrintable stock },
    ghost price_set: { price < 2 ^ 32 },
    ghost time_in_force_set: { time_in_force < 2 ^ 32 },
    ghost firm_set: { (length firm ≡ 4) × ArePrintable firm },
    ghost display_set: { is_printable display ≡ true },
    ghost capacity_set: { is_printable capacity ≡ true },
    ghost intermarket_sweep_set: { is_printable intermarket_sweep ≡ true },
    ghost minimum_quantity_set: { minimum_quantity < 2 ^ 32 },
    ghost cross_type_set: { is_printable cross_type ≡ true },
    ghost customer_type_set: { is_printable customer_type ≡ true },
}

impl FixedWire for EnterOrder {
    ghost use Rattle.ouch_codec.specs.Layout.{IsMessage, spelled};
    ghost use Rattle.ouch_codec.specs.Layouts.{enter_order_layout};
    ghost use Rattle.ouch_codec.specs.Rows.{enter_order_row};
    ghost use Rattle.ouch_codec.specs.LaidOut.{length-written, IsMessage-written, same_written};
    ghost use Rattle.ouch_codec.specs.EnterOrderLaws.{enter_order_laid_out};

    const LEN: usize = 49;

    ghost LEN = { 49 };

    ghost bytes = { λ message. spelled enter_order_layout (enter_order_row message) };

    ghost is_spelled = { IsMessage enter_order_layout };

    ghost fixed = { length-written enter_order_laid_out };

    ghost again = { IsMessage-written enter_order_laid_out };

    ghost one_value = { same_written enter_order_laid_out };

    fn put(&self, out: &mut [u8]) {
        put_fields(
            out,
            &[
                b"O",
                &self.token,
                &[self.side.letter()],
                &number_bytes(self.shares),
                &self.stock,
                &number_bytes(self.price),
                &number_bytes(self.time_in_force),
                &self.firm,
                &[self.display, self.capacity, self.intermarket_sweep],
                &number_bytes(self.minimum_quantity),
                &[self.cross_type, self.customer_type],
            ],
        );
    }

    fn get(b: &[u8]) -> Option<Self> {
        if !is_of_type(b, b'O', Self::LEN) {
            return None;
        }
        Some(EnterOrder {
            token: text_at(b, 1)?,
            side: side_at(b, 15)?,
            shares: shares_at(b, 16)?,
            stock: text_at(b, 20)?,
            price: number_at(b, 28),
            time_in_force: number_at(b, 32),
            firm: text_at(b, 36)?,
            display: printable_at(b, 40)?,
            capacity: printable_at(b, 41)?,
            intermarket_sweep: printable_at(b, 42)?,
            minimum_quantity: number_at(b, 43),
            cross_type: printable_at(b, 47)?,
            customer_type: printable_at(b, 48)?,
        })
    }
}
