//! Rejected: `J`, 24 bytes, from the market.
//!
//! Source: OUCH 4.2, "Rejected Message".

ghost use Rattle.std.specs.Prelude.{◌≡◌, ◌<◌, ◌^◌, true, length};
ghost use Rattle.wire_law.specs.Printable.{is_printable, ArePrintable};

use crate::field::{
    is_of_type, long_number_at, long_number_bytes, printable_at, put_fields, text_at,
};
use wire_law::FixedWire;

/// The market didn't take a new order, or didn't take a replacement and left the order as it was.
///
/// A value has each field in its set. `get` is `None` for bytes that are no Rejected; neither `put` nor `get` takes
/// memory.
///
/// Source: OUCH 4.2, "Rejected Message".
#[derive(Clone, Copy, Debug, PartialEq, Eq)]
pub struct Rejected {
    /// When it was refused, in nanoseconds since midnight.
    pub timestamp: u64,
    /// The token of the new order, or the replacement's, padded right with spaces.
    pub token: [u8; 14],
    /// Why, one printable byte.
    pub reason: u8,
    ghost timestamp_set: { timestamp < 2 ^ 64 },
    ghost token_set: { (length token ≡ 14) × ArePrintable token },
    ghost reason_set: { is_printable reason ≡ true },
}

impl FixedWire for Rejected {
    ghost use Rattle.ouch_codec.specs.Layout.{IsMessage, spelled};
    ghost use Rattle.ouch_codec.specs.Layouts.{rejected_layout};
    ghost use Rattle.ouch_codec.specs.Rows.{rejected_row};
    ghost use Rattle.ouch_codec.specs.LaidOut.{length-written, IsMessage-written, same_written};
    ghost use Rattle.ouch_codec.specs.RejectedLaws.{rejected_laid_out};

    const LEN: usize = 24;

    ghost LEN = { 24 };

    ghost bytes = { λ message. spelled rejected_layout (rejected_row message) };

    ghost is_spelled = { IsMessage rejected_layout };

    ghost fixed = { length-written rejected_laid_out };

    ghost again = { IsMessage-written rejected_laid_out };

    ghost one_value = { same_written rejected_laid_out };

    fn put(&self, out: &mut [u8]) {
        put_fields(
            out,
            &[
                b"J",
                &long_number_bytes(self.timestamp),
                &self.token,
                &[self.reason],
            ],
        );
    }

    fn get(b: &[u8]) -> Option<Self> {
        if !is_of_type(b, b'J', Self::LEN) {
            return None;
        }
        Some(Rejected {
            timestamp: long_number_at(b, 1),
            token: text_at(b, 9)?,
            reason: printable_at(b, 23)?,
        })
    }
}
