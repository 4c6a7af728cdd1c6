//! What is told of the frames that a client is sent, so that whoever runs the gateway sees why nothing goes through:
//! those that refuse a message, ask for messages again or end a session.

use crate::link_log::LinkLog;
use fix_fields::SOH;
use fix_framing::front_body;
use gate_events::{Event, LinkOut, Recipient, ShortList};
use link_io::Gate;
use std::alloc::{AllocError, Global};
use std::sync::Wait;
use std::time::Clock;

/// A gate of a link's writer that tells on standard error of each Reject, ResendRequest and Logout that its link is
/// sent; or that tells nothing.
#[derive(Drop)]
pub struct LoggedGate<'a, G, R> {
    gate: G,
    alloc: Global,
    link_log: Option<LinkLog<'a, R>>,
}

impl<'a, G, R> LoggedGate<'a, G, R> {
    ghost use Rattle.std.specs.Prelude.{◌≡◌};

    /// This gate, with who tells, where somebody does. Takes no memory.
    pub fn new(alloc: Global, gate: G, link_log: Option<LinkLog<'a, R>>) -> LoggedGate<'a, G, R>
        ensures { result.gate ≡ gate }
    {
        LoggedGate {
            gate,
            alloc,
            link_log,
        }
    }

    /// The gate. Takes no memory.
    pub fn into_gate(self) -> G
        ensures { result ≡ self.entry.gate }
    {
        self.gate
    }
}

impl<'a, G: Gate, R: Clock + Eprint> Gate for LoggedGate<'a, G, R> {
    ghost was_put = { λ t. G.was_put t.gate };

    ghost was_taken = { λ t. G.was_taken t.gate };

    ghost output_for = { λ t. G.output_for t.gate };

    ghost gave_back = { λ _. Unit {0} };

    fn recipient(&self) -> Option<Recipient> {
        self.gate.recipient()
    }

    fn put(&mut self, event: Event) -> Result<(), Event> {
        self.gate.put(event)
    }

    fn take(&mut self) -> Option<ShortList<LinkOut>> {
        self.gate.take()
    }

    fn turn<W: Wait>(&mut self, rt: &W, alloc: Global) -> Result<u32, AllocError> {
        self.gate.turn(rt, alloc)
    }

    fn holds_up_others(&mut self) -> bool {
        self.gate.holds_up_others()
    }

    fn tell_sent(&self, frames: &[u8]) {
        if let Some(link_log) = &self.link_log {
            log_frames(link_log, self.alloc, frames);
        }
    }
}

/// Tells of the frames in this text that are told of.
fn log_frames<R: Clock + Eprint>(link_log: &LinkLog<'_, R>, alloc: Global, text: &[u8]) {
    let mut rest = text;
    for _ in 0..text.len() {
        let Some((body, behind)) = front_body(rest) else {
            return;
        };
        if is_reported(body) {
            log_message(link_log, alloc, body);
        }
        rest = behind;
    }
}

/// Whether a frame of this body is reported: a ResendRequest, a Reject or a Logout.
fn is_reported(body: &[u8]) -> bool {
    matches!(body, [b'3', b'5', b'=', b'2' | b'3' | b'5', SOH, ..])
}

/// Tells of a frame by its body: `sent`, and the message from MsgType (35) to before its CheckSum (10), with `|` for
/// SOH and `.` for each other byte that isn't seen. That one was sent, where memory runs out.
fn log_message<R: Clock + Eprint>(link_log: &LinkLog<'_, R>, alloc: Global, body: &[u8]) {
    match shown(alloc, body) {
        Ok(text) => link_log.log(text.as_str()),
        Err(_) => link_log.log("sent a Reject, a ResendRequest or a Logout"),
    }
}

/// A message as it is told, without the SOH behind its last field.
fn shown(alloc: Global, body: &[u8]) -> Result<String, AllocError> {
    let mut text = String::with_capacity(alloc, body.len().saturating_add(5))?;
    text.push_str("sent ")?;
    let (message, _) = body.split_at(body.len().saturating_sub(1));
    for byte in message {
        text.push(match *byte {
            SOH => '|',
            32..=126 => char::from(*byte),
            _ => '.',
        })?;
    }
    Ok(text)
}
