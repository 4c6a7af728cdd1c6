//! System Event: `S`, 10 bytes, from the market.
//!
//! Source: OUCH 4.2, "System Event Message".

ghost use Rattle.std.specs.Prelude.{◌≡◌, ◌<◌, ◌^◌, true};
ghost use Rattle.wire_law.specs.Printable.{is_printable};

use crate::field::{is_of_type, long_number_at, long_number_bytes, printable_at, put_fields};
use wire_law::FixedWire;

/// Something happened that is no order's own, as the start or the end of the market's day.
///
/// A value has each field in its set. `get` is `None` for bytes that are no System Event; neither `put` nor `get` takes
/// memory.
///
/// Source: OUCH 4.2, "System Event Message".
#[derive(Clone, Copy, Debug, PartialEq, Eq)]
pub struct SystemEvent {
    /// When it happened, in nanoseconds since midnight.
    pub timestamp: u64,
    /// What happened, one printable byte.
    pub event: u8,
    ghost timestamp_set: { timestamp < 2 ^ 64 },
    ghost event_set: { is_printable event ≡ true },
}

impl FixedWire for SystemEvent {
    ghost use Rattle.ouch_codec.specs.Layout.{IsMessage, spelled};
    ghost use Rattle.ouch_codec.specs.Layouts.{system_event_layout};
    ghost use Rattle.ouch_codec.specs.Rows.{system_event_row};
    ghost use Rattle.ouch_codec.specs.LaidOut.{length-written, IsMessage-written, same_written};
    ghost use Rattle.ouch_codec.specs.SystemEventLaws.{system_event_laid_out};

    const LEN: usize = 10;

    ghost LEN = { 10 };

    ghost bytes = { λ message. spelled system_event_layout (system_event_row message) };

    ghost is_spelled = { IsMessage system_event_layout };

    ghost fixed = { length-written system_event_laid_out };

    ghost again = { IsMessage-written system_event_laid_out };

    ghost one_value = { same_written system_event_laid_out };

    fn put(&self, out: &mut [u8]) {
        put_fields(
            out,
            &[b"S", &long_number_bytes(self.timestamp), &[self.event]],
        );
    }

    fn get(b: &[u8]) -> Option<Self> {
        if !is_of_type(b, b'S', Self::LEN) {
            return None;
        }
        Some(SystemEvent {
            timestamp: long_number_at(b, 1),
            event: printable_at(b, 9)?,
        })
    }
}
