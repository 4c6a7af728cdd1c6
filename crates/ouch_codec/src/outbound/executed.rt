//! Executed: `E`, 40 bytes, from the market.
//!
//! Source: OUCH 4.2, "Executed Order Message".

ghost use Rattle.std.specs.Prelude.{◌≡◌, ◌<◌, ◌^◌, true, length};
ghost use Rattle.wire_law.specs.Printable.{is_printable, ArePrintable};

use crate::field::{
    is_of_type, long_number_at, long_number_bytes, number_at, number_bytes, printable_at,
    put_fields, text_at,
};
use wire_law::FixedWire;

/// Shares of an order were traded.
///
/// A value has each field in its set. `get` is `None` for bytes that are no Executed; neither `put` nor `get` takes
/// memory.
///
/// Source: OUCH 4.2, "Executed Order Message".
#[derive(Clone, Copy, Debug, PartialEq, Eq)]
pub struct Executed {
    /// When they were, in nanoseconds since midnight.
    pub timestamp: u64,
    /// The token of the order, padded right with spaces.
    pub token: [u8; 14],
    /// How many shares were traded.
    pub shares: u32,
    /// The price of one, in 1/10,000 of the currency unit.
    pub price: u32,
    /// Whether the order added or took liquidity, one printable byte.
    pub liquidity: u8,
    /// The market's number for the trade.
    pub match_number: u64,
    ghost timestamp_set: { timestamp < 2 ^ 64 },
    ghost token_set: { (length token ≡ 14) × ArePrintable token },
    ghost shares_set: { shares < 2 ^ 32 },
    ghost price_set: { price < 2 ^ 32 },
    ghost liquidity_set: { is_printable liquidity ≡ true },
    ghost match_number_set: { match_number < 2 ^ 64 },
}

impl FixedWire for Executed {
    ghost use Rattle.ouch_codec.specs.Layout.{IsMessage, spelled};
    ghost use Rattle.ouch_codec.specs.Layouts.{executed_layout};
    ghost use Rattle.ouch_codec.specs.Rows.{executed_row};
    ghost use Rattle.ouch_codec.specs.LaidOut.{length-written, IsMessage-written, same_written};
    ghost use Rattle.ouch_codec.specs.ExecutedLaws.{executed_laid_out};

    const LEN: usize = 40;

    ghost LEN = { 40 };

    ghost bytes = { λ message. spelled executed_layout (executed_row message) };

    ghost is_spelled = { IsMessage executed_layout };

    ghost fixed = { length-written executed_laid_out };

    ghost again = { IsMessage-written executed_laid_out };

    ghost one_value = { same_written executed_laid_out };

    fn put(&self, out: &mut [u8]) {
        put_fields(
            out,
            &[
                b"E",
                &long_number_bytes(self.timestamp),
                &self.token,
                &number_bytes(self.shares),
                &number_bytes(self.price),
                &[self.liquidity],
                &long_number_bytes(self.match_number),
            ],
        );
    }

    fn get(b: &[u8]) -> Option<Self> {
        if !is_of_type(b, b'E', Self::LEN) {
            return None;
        }
        Some(Executed {
            timestamp: long_number_at(b, 1),
            token: text_at(b, 9)?,
            shares: number_at(b, 23),
            price: number_at(b, 27),
            liquidity: printable_at(b, 31)?,
            match_number: long_number_at(b, 32),
        })
    }
}
