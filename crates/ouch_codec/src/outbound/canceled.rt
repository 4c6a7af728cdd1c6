//! Canceled: `C`, 28 bytes, from the market.
//!
//! Source: OUCH 4.2, "Canceled Message".

ghost use Rattle.std.specs.Prelude.{◌≡◌, ◌<◌, ◌^◌, true, length};
ghost use Rattle.wire_law.specs.Printable.{is_printable, ArePrintable};

use crate::field::{
    is_of_type, long_number_at, long_number_bytes, number_at, number_bytes, printable_at,
    put_fields, text_at,
};
use wire_law::FixedWire;

/// Shares of an order left the book without a trade.
///
/// A value has each field in its set. `get` is `None` for bytes that are no Canceled; neither `put` nor `get` takes
/// memory.
///
/// Source: OUCH 4.2, "Canceled Message".
#[derive(Clone, Copy, Debug, PartialEq, Eq)]
pub struct Canceled {
    /// When they left it, in nanoseconds since midnight.
    pub timestamp: u64,
    /// The token of the order, padded right with spaces.
    pub token: [u8; 14],
    /// How many shares left the book. What is still open isn't said.
    pub decrement: u32,
    /// Why, one printable byte.
    pub reason: u8,
    ghost timestamp_set: { timestamp < 2 ^ 64 },
    ghost token_set: { (length token ≡ 14) × ArePrintable token },
    ghost decrement_set: { decrement < 2 ^ 32 },
    ghost reason_set: { is_printable reason ≡ true },
}

impl FixedWire for Canceled {
    ghost use Rattle.ouch_codec.specs.Layout.{IsMessage, spelled};
    ghost use Rattle.ouch_codec.specs.Layouts.{canceled_layout};
    ghost use Rattle.ouch_codec.specs.Rows.{canceled_row};
    ghost use Rattle.ouch_codec.specs.LaidOut.{length-written, IsMessage-written, same_written};
    ghost use Rattle.ouch_codec.specs.CanceledLaws.{canceled_laid_out};

    const LEN: usize = 28;

    ghost LEN = { 28 };

    ghost bytes = { λ message. spelled canceled_layout (canceled_row message) };

    ghost is_spelled = { IsMessage canceled_layout };

    ghost fixed = { length-written canceled_laid_out };

    ghost again = { IsMessage-written canceled_laid_out };

    ghost one_value = { same_written canceled_laid_out };

    fn put(&self, out: &mut [u8]) {
        put_fields(
            out,
            &[
                b"C",
                &long_number_bytes(self.timestamp),
                &self.token,
                &number_bytes(self.decrement),
                &[self.reason],
            ],
        );
    }

    fn get(b: &[u8]) -> Option<Self> {
        if !is_of_type(b, b'C', Self::LEN) {
            return None;
        }
        Some(Canceled {
            timestamp: long_number_at(b, 1),
            token: text_at(b, 9)?,
            decrement: number_at(b, 23),
            reason: printable_at(b, 27)?,
        })
    }
}
