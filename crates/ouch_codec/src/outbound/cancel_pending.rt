//! Cancel Pending: `P`, 23 bytes, from the market.
//!
//! Source: OUCH 4.2, "Cancel Pending Message".

ghost use Rattle.std.specs.Prelude.{◌≡◌, ◌<◌, ◌^◌, length};
ghost use Rattle.wire_law.specs.Printable.{ArePrintable};

use crate::field::{is_of_type, long_number_at, long_number_bytes, put_fields, text_at};
use wire_law::FixedWire;

/// The market has the request to cancel an order, and will cancel it once it may.
///
/// A value has each field in its set. `get` is `None` for bytes that are no Cancel Pending; neither `put` nor `get`
/// takes memory.
///
/// Source: OUCH 4.2, "Cancel Pending Message".
#[derive(Clone, Copy, Debug, PartialEq, Eq)]
pub struct CancelPending {
    /// When the request came, in nanoseconds since midnight.
    pub timestamp: u64,
    /// The token of the order, padded right with spaces.
    pub token: [u8; 14],
    ghost timestamp_set: { timestamp < 2 ^ 64 },
    ghost token_set: { (length token ≡ 14) × ArePrintable token },
}

impl FixedWire for CancelPending {
    ghost use Rattle.ouch_codec.specs.Layout.{IsMessage, spelled};
    ghost use Rattle.ouch_codec.specs.Layouts.{cancel_pending_layout};
    ghost use Rattle.ouch_codec.specs.Rows.{cancel_pending_row};
    ghost use Rattle.ouch_codec.specs.LaidOut.{length-written, IsMessage-written, same_written};
    ghost use Rattle.ouch_codec.specs.CancelPendingLaws.{cancel_pending_laid_out};

    const LEN: usize = 23;

    ghost LEN = { 23 };

    ghost bytes = { λ message. spelled cancel_pending_layout (cancel_pending_row message) };

    ghost is_spelled = { IsMessage cancel_pending_layout };

    ghost fixed = { length-written cancel_pending_laid_out };

    ghost again = { IsMessage-written cancel_pending_laid_out };

    ghost one_value = { same_written cancel_pending_laid_out };

    fn put(&self, out: &mut [u8]) {
        put_fields(
            out,
            &[b"P", &long_number_bytes(self.timestamp), &self.token],
        );
    }

    fn get(b: &[u8]) -> Option<Self> {
        if !is_of_type(b, b'P', Self::LEN) {
            return None;
        }
        Some(CancelPending {
            timestamp: long_number_at(b, 1),
            token: text_at(b, 9)?,
        })
    }
}
