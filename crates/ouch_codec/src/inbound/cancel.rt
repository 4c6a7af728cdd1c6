//! Cancel Order: `X`, 19 bytes, towards the market.
//!
//! Source: OUCH 4.2, "Cancel Order Message".

ghost use Rattle.std.specs.Prelude.{◌≡◌, ◌≤◌, true, length};
ghost use Rattle.wire_law.specs.Limits.{most_shares};
ghost use Rattle.wire_law.specs.Printable.{ArePrintable};

use crate::field::{intended_shares_at, is_of_type, number_bytes, put_fields, text_at};
use wire_law::FixedWire;

/// A request to cancel what is open of an order, or a part of it.
///
/// A value has each field in its set. `get` is `None` for bytes that are no Cancel; neither `put` nor `get` takes
/// memory.
///
/// Source: OUCH 4.2, "Cancel Order Message".
#[derive(Clone, Copy, Debug, PartialEq, Eq)]
pub struct Cancel {
    /// The token of the order, padded right with spaces.
    pub token: [u8; 14],
    /// The intended order size: at most so many shares are executed in all, 0 to 999,999. 0 cancels all that is open.
    pub shares: u32,
    ghost token_set: { (length token ≡ 14) × ArePrintable token },
    ghost shares_set: { shares ≤ most_shares },
}

impl FixedWire for Cancel {
    ghost use Rattle.ouch_codec.specs.Layout.{IsMessage, spelled};
    ghost use Rattle.ouch_codec.specs.Layouts.{cancel_layout};
    ghost use Rattle.ouch_codec.specs.Rows.{cancel_row};
    ghost use Rattle.ouch_codec.specs.LaidOut.{length-written, IsMessage-written, same_written};
    ghost use Rattle.ouch_codec.specs.CancelLaws.{cancel_laid_out};

    const LEN: usize = 19;

    ghost LEN = { 19 };

    ghost bytes = { λ message. spelled cancel_layout (cancel_row message) };

    ghost is_spelled = { IsMessage cancel_layout };

    ghost fixed = { length-written cancel_laid_out };

    ghost again = { IsMessage-written cancel_laid_out };

    ghost one_value = { same_written cancel_laid_out };

    fn put(&self, out: &mut [u8]) {
        put_fields(out, &[b"X", &self.token, &number_bytes(self.shares)]);
    }

    fn get(b: &[u8]) -> Option<Self> {
        if !is_of_type(b, b'X', Self::LEN) {
            return None;
        }
        Some(Cancel {
            token: text_at(b, 1)?,
            shares: intended_shares_at(b, 15)?,
        })
    }
}
