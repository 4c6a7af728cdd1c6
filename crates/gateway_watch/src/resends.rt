//! How much a client asks to be sent again.

ghost use Rattle.std.specs.Prelude.{◌≡◌};
ghost use Rattle.gateway_watch.specs.Resends as spec;

use fix_fields::Fields;
use std::fmt;
use std::fmt::{Display, Formatter};
use wire_bytes::number_of;

/// All that a client was sent may be asked for so often within an hour: an engine that recovers asks for it once a
/// link.
const TIMES: u128 = 10;

/// So many messages may be asked for within an hour, whatever was sent.
const FLOOR: u128 = 50_000;

/// An hour, in milliseconds.
const HOUR: u64 = 3_600_000;

/// What a client asked to be sent again within an hour.
#[derive(Clone, Copy, Debug, PartialEq, Eq)]
pub struct Resends {
    /// When the hour began, in milliseconds since 1970.
    pub since: u64,
    /// How many messages it asked for.
    pub messages: u64,
}

impl Resends {
    /// Of a client that asked for nothing. Takes no memory.
    pub fn new() -> Resends
        ensures { result ≡ spec.none_asked }
    {
        Resends {
            since: 0,
            messages: 0,
        }
    }

    /// The same behind a request for so many messages more, at this moment.
    pub fn with(self, messages: u64, at: u64) -> Resends
        ensures { result ≡ spec.with self messages at }
    {
        let Resends {
            since,
            messages: before,
        } = self;
        if at.saturating_sub(since) < HOUR {
            Resends {
                since,
                messages: before.saturating_add(messages),
            }
        } else {
            Resends {
                since: at,
                messages,
            }
        }
    }

    /// Whether that is too much of a client whose highest number is this.
    pub fn is_too_much(self, highest: u64) -> bool
        ensures { result ≡ spec.is_too_much self highest }
    {
        most(highest) < u128::from(self.messages)
    }
}

/// For how many messages a client whose highest number is this may ask within an hour.
fn most(highest: u64) -> u128
    ensures { result ≡ spec.most highest }
{
    (u128::from(highest) * TIMES).max(FLOOR)
}

/// For how many messages a ResendRequest from this number (BeginSeqNo, 7) to that (EndSeqNo, 16; 0: to the last) asks a
/// session whose highest number is this.
///
/// Source: FIX 4.4 Volume 2, "Resend Request".
pub fn asked_for(begin: u64, end: u64, highest: u64) -> u64
    ensures { result ≡ spec.asked_for begin end highest }
{
    let last = if end == 0 { highest } else { end.min(highest) };
    if begin <= last {
        (last - begin).saturating_add(1)
    } else {
        0
    }
}

/// BeginSeqNo (7) and EndSeqNo (16) of a ResendRequest (35=2); `None` of another message, and of one without numbers,
/// which the session refuses.
pub fn range_of(frame: &Fields) -> Option<(u64, u64)> {
    match frame.first(35) {
        Some([b'2']) => Some((number_in(frame, 7)?, number_in(frame, 16)?)),
        _ => None,
    }
}

/// The number that a field of this tag has.
fn number_in(frame: &Fields, tag: u32) -> Option<u64> {
    number_of(frame.first(tag)?)
}

/// That a client asked for too much again.
#[derive(Clone, Copy, Debug, PartialEq, Eq, Drop)]
pub struct TooMuch {
    pub messages: u64,
    pub highest: u64,
}

impl Display for TooMuch {
    fn fmt<W: fmt::Write>(&self, f: &mut Formatter<W>) -> fmt::Result {
        let (messages, most) = (self.messages, most(self.highest));
        write!(
            f,
            "asks for {messages} messages again within an hour, limit {most}: its link is ended"
        )
    }
}
