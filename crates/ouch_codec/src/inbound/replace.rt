//! Replace Order: `U`, 47 bytes, towards the market.
//!
//! Source: OUCH 4.2, "Replace Order Message".

ghost use Rattle.std.specs.Prelude.{◌≡◌, ◌<◌, ◌≤◌, ◌^◌, true, length};
ghost use Rattle.wire_law.specs.Limits.{most_shares};
ghost use Rattle.wire_law.specs.Printable.{is_printable, ArePrintable};

use crate::field::{
    is_of_type, number_at, number_bytes, printable_at, put_fields, shares_at, text_at,
};
use wire_law::FixedWire;

/// A request to replace what is open of an order by an order with other terms. Side, stock and firm stay.
///
/// A value has each field in its set. `get` is `None` for bytes that are no Replace Order; neither `put` nor `get`
/// takes memory.
///
/// Source: OUCH 4.2, "Replace Order Message".
#[derive(Clone, Copy, Debug, PartialEq, Eq)]
pub struct Replace {
    /// The token that the order goes by, padded right with spaces.
    pub token: [u8; 14],
    /// The token that it is to go by, padded right with spaces.
    pub replacement_token: [u8; 14],
    /// How many shares, with those that were executed already: 1 to 999,999.
    pub shares: u32,
    /// The limit, in 1/10,000 of the currency unit.
    pub price: u32,
    /// How long the order stays, in seconds. 0, 99,998 and 99,999 have meanings of their own.
    pub time_in_force: u32,
    /// How the order is shown, one printable byte.
    pub display: u8,
    /// Whether it may sweep other markets, one printable byte.
    pub intermarket_sweep: u8,
    /// The fewest shares that may be executed at once.
    pub minimum_quantity: u32,
    ghost token_set: { (length token ≡ 14) × ArePrintable token },
    ghost replacement_token_set: { (length replacement_token ≡ 14) × ArePrintable replacement_token },
    ghost shares_set: { (1 ≤ shares) × (shares ≤ most_shares) },
    ghost price_set: { price < 2 ^ 32 },
    ghost time_in_force_set: { time_in_force < 2 ^ 32 },
    ghost display_set: { is_printable display ≡ true },
    ghost intermarket_sweep_set: { is_printable intermarket_sweep ≡ true },
    ghost minimum_quantity_set: { minimum_quantity < 2 ^ 32 },
}

impl FixedWire for Replace {
    ghost use Rattle.ouch_codec.specs.Layout.{IsMessage, spelled};
    ghost use Rattle.ouch_codec.specs.Layouts.{replace_layout};
    ghost use Rattle.ouch_codec.specs.Rows.{replace_row};
    ghost use Rattle.ouch_codec.specs.LaidOut.{length-written, IsMessage-written, same_written};
    ghost use Rattle.ouch_codec.specs.ReplaceLaws.{replace_laid_out};

    const LEN: usize = 47;

    ghost LEN = { 47 };

    ghost bytes = { λ message. spelled replace_layout (replace_row message) };

    ghost is_spelled = { IsMessage replace_layout };

    ghost fixed = { length-written replace_laid_out };

    ghost again = { IsMessage-written replace_laid_out };

    ghost one_value = { same_written replace_laid_out };

    fn put(&self, out: &mut [u8]) {
        put_fields(
            out,
            &[
                b"U",
                &self.token,
                &self.replacement_token,
                &number_bytes(self.shares),
                &number_bytes(self.price),
                &number_bytes(self.time_in_force),
                &[self.display, self.intermarket_sweep],
                &number_bytes(self.minimum_quantity),
            ],
        );
    }

    fn get(b: &[u8]) -> Option<Self> {
        if !is_of_type(b, b'U', Self::LEN) {
            return None;
        }
        Some(Replace {
            token: text_at(b, 1)?,
            replacement_token: text_at(b, 15)?,
            shares: shares_at(b, 29)?,
            price: number_at(b, 33),
            time_in_force: number_at(b, 37),
            display: printable_at(b, 41)?,
            intermarket_sweep: printable_at(b, 42)?,
            minimum_quantity: number_at(b, 43),
        })
    }
}
