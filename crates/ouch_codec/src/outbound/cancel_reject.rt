//! Cancel Reject: `I`, 23 bytes, from the market.
//!
//! Source: OUCH 4.2, "Cancel Reject Message".

ghost use Rattle.std.specs.Prelude.{◌≡◌, ◌<◌, ◌^◌, length};
ghost use Rattle.wire_law.specs.Printable.{ArePrintable};

use crate::field::{is_of_type, long_number_at, long_number_bytes, put_fields, text_at};
use wire_law::FixedWire;

/// The market doesn't cancel an order.
///
/// A value has each field in its set. `get` is `None` for bytes that are no Cancel Reject; neither `put` nor `get`
/// takes memory.
///
/// Source: OUCH 4.2, "Cancel Reject Message".
#[derive(Clone, Copy, Debug, PartialEq, Eq)]
pub struct CancelReject {
    /// When the request was refused, in nanoseconds since midnight.
    pub timestamp: u64,
    /// The token of the order, padded right with spaces.
    pub token: [u8; 14],
    ghost timestamp_set: { timestamp < 2 ^ 64 },
    ghost token_set: { (length token ≡ 14) × ArePrintable token },
}

impl FixedWire for CancelReject {
    ghost use Rattle.ouch_codec.specs.Layout.{IsMessage, spelled};
    ghost use Rattle.ouch_codec.specs.Layouts.{cancel_reject_layout};
    ghost use Rattle.ouch_codec.specs.Rows.{cancel_reject_row};
    ghost use Rattle.ouch_codec.specs.LaidOut.{length-written, IsMessage-written, same_written};
    ghost use Rattle.ouch_codec.specs.CancelRejectLaws.{cancel_reject_laid_out};

    const LEN: usize = 23;

    ghost LEN = { 23 };

    ghost bytes = { λ message. spelled cancel_reject_layout (cancel_reject_row message) };

    ghost is_spelled = { IsMessage cancel_reject_layout };

    ghost fixed = { length-written cancel_reject_laid_out };

    ghost again = { IsMessage-written cancel_reject_laid_out };

    ghost one_value = { same_written cancel_reject_laid_out };

    fn put(&self, out: &mut [u8]) {
        put_fields(
            out,
            &[b"I", &long_number_bytes(self.timestamp), &self.token],
        );
    }

    fn get(b: &[u8]) -> Option<Self> {
        if !is_of_type(b, b'I', Self::LEN) {
            return None;
        }
        Some(CancelReject {
            timestamp: long_number_at(b, 1),
            token: text_at(b, 9)?,
        })
    }
}
