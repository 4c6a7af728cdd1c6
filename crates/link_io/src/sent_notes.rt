//! Which written frames the core's handle is to hear of, so that they are logged.

use crate::gate::Gate;
use fix_fields::SOH;

/// The size of `8=FIX.4.4` and of `9=` with one digit of BodyLength (9), behind which further ones and MsgType (35)
/// follow.
const FRONT_SIZE: usize = 13;

/// How many digits BodyLength has at most where a MsgType is looked for behind it: those of 8,192.
const MOST_DIGITS: usize = 4;

/// Whether a Reject, a ResendRequest or a Logout is among what was joined since the last report.
#[derive(Drop)]
pub(crate) struct SentNotes {
    is_noted: bool,
    /// How many of the first bytes to be written are the rest of a write that was reported.
    left: usize,
}

impl SentNotes {
    /// Nothing was joined. Takes no memory.
    pub(crate) fn new() -> SentNotes {
        SentNotes {
            is_noted: false,
            left: 0,
        }
    }

    /// Notes a frame that is joined, if it is such a one.
    pub(crate) fn look(&mut self, frame: &[u8]) {
        if is_noted_frame(frame) {
            self.is_noted = true;
        }
    }

    /// Reports what the stream has begun to take, if such a frame is among it; `left` of the bytes aren't taken yet.
    pub(crate) fn tell<G: Gate>(&mut self, gate: &G, bytes: &[u8], left: usize) {
        if self.is_noted {
            let (_, fresh) = bytes.split_at(self.left.min(bytes.len()));
            gate.tell_sent(fresh);
            self.is_noted = false;
        }
        self.left = left;
    }
}

/// Whether a frame's MsgType (35), the third field, is 2, 3 or 5.
///
/// Source: FIX 4.4 Volume 2, "Standard Message Header".
fn is_noted_frame(frame: &[u8]) -> bool {
    for further in 0..MOST_DIGITS {
        if let Some([SOH, b'3', b'5', b'=', kind, SOH, ..]) = frame.get(FRONT_SIZE + further..) {
            return matches!(kind, b'2' | b'3' | b'5');
        }
    }
    false
}
