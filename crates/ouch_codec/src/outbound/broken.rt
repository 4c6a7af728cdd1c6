//! Broken Trade: `B`, 32 bytes, from the market.
//!
//! Source: OUCH 4.2, "Broken Trade Message".

ghost use Rattle.std.specs.Prelude.{◌≡◌, ◌<◌, ◌^◌, true, length};
ghost use Rattle.wire_law.specs.Printable.{is_printable, ArePrintable};

use crate::field::{
    is_of_type, long_number_at, long_number_bytes, printable_at, put_fields, text_at,
};
use wire_law::FixedWire;

/// A trade of an order is taken back.
///
/// A value has each field in its set. `get` is `None` for bytes that are no Broken Trade; neither `put` nor `get` takes
/// memory.
///
/// Source: OUCH 4.2, "Broken Trade Message".
#[derive(Clone, Copy, Debug, PartialEq, Eq)]
pub struct Broken {
    /// When it was, in nanoseconds since midnight.
    pub timestamp: u64,
    /// The token of the order, padded right with spaces.
    pub token: [u8; 14],
    /// The market's number for the trade.
    pub match_number: u64,
    /// Why, one printable byte.
    pub reason: u8,
    ghost timestamp_set: { timestamp < 2 ^ 64 },
    ghost token_set: { (length token ≡ 14) × ArePrintable token },
    ghost match_number_set: { match_number < 2 ^ 64 },
    ghost reason_set: { is_printable reason ≡ true },
}

impl FixedWire for Broken {
    ghost use Rattle.ouch_codec.specs.Layout.{IsMessage, spelled};
    ghost use Rattle.ouch_codec.specs.Layouts.{broken_layout};
    ghost use Rattle.ouch_codec.specs.Rows.{broken_row};
    ghost use Rattle.ouch_codec.specs.LaidOut.{length-written, IsMessage-written, same_written};
    ghost use Rattle.ouch_codec.specs.BrokenLaws.{broken_laid_out};

    const LEN: usize = 32;

    ghost LEN = { 32 };

    ghost bytes = { λ message. spelled broken_layout (broken_row message) };

    ghost is_spelled = { IsMessage broken_layout };

    ghost fixed = { length-written broken_laid_out };

    ghost again = { IsMessage-written broken_laid_out };

    ghost one_value = { same_written broken_laid_out };

    fn put(&self, out: &mut [u8]) {
        put_fields(
            out,
            &[
                b"B",
                &long_number_bytes(self.timestamp),
                &self.token,
                &long_number_bytes(self.match_number),
                &[self.reason],
            ],
        );
    }

    fn get(b: &[u8]) -> Option<Self> {
        if !is_of_type(b, b'B', Self::LEN) {
            return None;
        }
        Some(Broken {
            timestamp: long_number_at(b, 1),
            token: text_at(b, 9)?,
            match_number: long_number_at(b, 23),
            reason: printable_at(b, 31)?,
        })
    }
}
