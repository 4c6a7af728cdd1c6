//! The bodies of the session's own messages.

ghost use Rattle.std.specs.Prelude.{◌≡◌, ◌≤◌, ◌++◌, ◌∷◌, [], ℕ, OnOk, IfOk, decimal, codes};
ghost use Rattle.fix_framing.specs.fix_fields.Field.{IsValue};
ghost use Rattle.fix_framing.specs.fix_fields.Field as tags;
ghost use Rattle.session_reading.specs.session_law.Messages as law;
ghost use Rattle.session_reading.specs.session_law.Table as table;
ghost use Rattle.session_reading.specs.session_law.Session as session;

use fix_fields::Fields;
use itoa::Buffer;
use session_reading::{numbered, text};
use std::alloc::{AllocError, Global};

/// Adds a number in decimal.
pub fn push_number(fields: &mut Fields, tag: u32, number: u64) -> Result<(), AllocError>
    requires tag { (1 ≤ tag) × (tag ≤ 999_999_999) }
    ensures ok { OnOk result (fields.new ≡ fields.old ++ law.number_as_field tag number ∷ []) }
{
    let mut buffer = Buffer::new();
    fields.push(tag, buffer.format(number).as_bytes())
}

/// What a Reject of a message says: the message's number, the tag, the message's type where it has one, the reason
/// (SessionRejectReason, 373).
pub fn reject_body(alloc: Global, m: &Fields, tag: u32, reason: u8) -> Result<Fields, AllocError>
    ensures { IfOk result (λ body. body ≡ table.reject_body m.now (record { tag = tag; reason = reason })) }
{
    let mut body = Fields::new(alloc);
    push_number(&mut body, 45, numbered(m))?;
    push_number(&mut body, 371, u64::from(tag))?;
    if let Some(kind) = m.first(35) {
        if !kind.is_empty() {
            body.push(372, kind)?;
        }
    }
    push_number(&mut body, 373, u64::from(reason))?;
    Ok(body)
}

/// What a Logon says: no encryption, the client's own interval as it wrote it, and whether numbers begin anew.
pub fn logon_body(alloc: Global, m: &Fields, resets: bool) -> Result<Fields, AllocError>
    ensures { (interval : ℕ) → IfOk result (λ body.
        body ≡ session.logon_body (record {
          interval_text = tags.text 108 m.now;
          interval = interval;
          resets = resets;
        })) }
{
    let mut body = Fields::new(alloc);
    body.push(98, b"0")?;
    body.push(108, text(m, 108))?;
    if resets {
        body.push(141, b"Y")?;
    }
    Ok(body)
}

/// What a BusinessMessageReject of a message says: its number, its type, that the type isn't supported.
pub fn unsupported_body(alloc: Global, m: &Fields) -> Result<Fields, AllocError>
    ensures { IfOk result (λ body. body ≡ table.unsupported_body m.now) }
{
    let mut body = Fields::new(alloc);
    push_number(&mut body, 45, numbered(m))?;
    body.push(372, text(m, 35))?;
    body.push(380, b"3")?;
    body.push(58, b"unsupported message type")?;
    Ok(body)
}

/// A Text (58), as a Logout has it.
pub fn text_body(alloc: Global, why: &[u8]) -> Result<Fields, AllocError>
    requires { IsValue why.now }
    ensures { IfOk result (λ body. body ≡ tags.field 58 why.now ∷ []) }
{
    let mut body = Fields::new(alloc);
    body.push(58, why)?;
    Ok(body)
}

/// What a ResendRequest says: from this number on.
pub fn ask_body(alloc: Global, from: u64) -> Result<Fields, AllocError>
    ensures { IfOk result (λ body. body ≡ law.number_as_field 7 from ∷ tags.field 16 (codes "0") ∷ []) }
{
    let mut body = Fields::new(alloc);
    push_number(&mut body, 7, from)?;
    body.push(16, b"0")?;
    Ok(body)
}

/// What a Heartbeat says that answers a TestRequest, and what a TestRequest says: a TestReqID (112).
pub fn echo_body(alloc: Global, id: &[u8]) -> Result<Fields, AllocError>
    requires { IsValue id.now }
    ensures { IfOk result (λ body. body ≡ tags.field 112 id.now ∷ []) }
{
    let mut body = Fields::new(alloc);
    body.push(112, id)?;
    Ok(body)
}

/// What a Logout says for a number that is too low.
pub fn too_low_body(alloc: Global, expected: u64, received: u64) -> Result<Fields, AllocError>
    ensures { IfOk result (λ body. body ≡ tags.field 58
        (codes "MsgSeqNum too low, expecting " ++ decimal expected ++ codes " but received " ++ decimal received)
        ∷ []) }
{
    let why = too_low_text(alloc, expected, received)?;
    text_body(alloc, why.as_slice())
}

/// Why a number is too low.
fn too_low_text(alloc: Global, expected: u64, received: u64) -> Result<Vec<u8>, AllocError>
    ensures { IfOk result (λ why. why.items ≡ codes "MsgSeqNum too low, expecting " ++ decimal expected
        ++ codes " but received " ++ decimal received) }
{
    let mut first = Buffer::new();
    let mut second = Buffer::new();
    let mut why = Vec::from_slice(alloc, b"MsgSeqNum too low, expecting ")?;
    why.extend_from_slice(first.format(expected).as_bytes())?;
    why.extend_from_slice(b" but received ")?;
    why.extend_from_slice(second.format(received).as_bytes())?;
    Ok(why)
}
