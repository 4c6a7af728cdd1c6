//! The frame of a client's message.

ghost use Rattle.std.specs.Prelude.{◌≡◌, ◌≤◌, ◌++◌, length, take, drop, IfOk, OnOk};
ghost use Rattle.fix_fields.specs.Field.{IsValue, fields_text};
ghost use Rattle.script_lines.specs.Names.{name_of_client};
ghost use Rattle.script_steps.specs.Frames.{header, headed, script_frame};

use fix_fields::{Fields, split};
use fix_framing::frame;
use fix_session::push_number;
use fix_stamp::stamp;
use gate_core::ClientFrame;
use script_lines::{Client, LineFault};
use std::alloc::{AllocError, Global};

/// The whole frame of a client's fields, of which the first is MsgType (35): behind it stand SenderCompID (49),
/// TargetCompID (56), MsgSeqNum (34) with this number unless the fields have one, and SendingTime (52) with this
/// moment.
///
/// `NotUnderstood` where it would have more than 8,192 bytes.
///
/// Source: FIX 4.4 Volume 2, "Standard Message Header".
#[tactic(auto, unfolding(crate::specs::Frames::script_frame))]
pub fn client_frame(
    alloc: Global,
    client: Client,
    fields: &Fields,
    number: u64,
    at: u64,
) -> Result<ClientFrame, LineFault>
    ensures text { IfOk result (λ frame. fields_text frame ≡ script_frame client fields.now number at) }
{
    let body = with_header(alloc, client, fields, number, at)?;
    let bytes = frame(alloc, &body)?;
    let fields = split(alloc, bytes.as_slice())?.ok_or(LineFault::NotUnderstood)?;
    ClientFrame::of(fields).ok_or(LineFault::NotUnderstood)
}

/// The fields with the header's others behind the first.
fn with_header(
    alloc: Global,
    client: Client,
    fields: &Fields,
    number: u64,
    at: u64,
) -> Result<Fields, AllocError>
    ensures { IfOk result (λ body. body ≡ headed client fields.now number at) }
{
    let first = fields.len().min(1);
    let mut body = Fields::new(alloc);
    push_some(&mut body, fields, 0, first)?;
    push_header(&mut body, client, fields, number, at)?;
    push_some(&mut body, fields, first, fields.len())?;
    Ok(body)
}

/// Adds what stands behind the first field.
fn push_header(
    body: &mut Fields,
    client: Client,
    fields: &Fields,
    number: u64,
    at: u64,
) -> Result<(), AllocError>
    ensures { OnOk result (body.new ≡ body.old ++ header client fields.now number at) }
{
    body.push(49, client_name(client))?;
    body.push(56, b"GATE")?;
    if fields.first(34).is_none() {
        push_number(body, 34, number)?;
    }
    body.push(52, &stamp(at))
}

/// Adds the fields from a place on, up to another.
fn push_some(body: &mut Fields, fields: &Fields, from: usize, end: usize) -> Result<(), AllocError>
    requires from { from ≤ end }
    requires end { end ≤ length fields.now }
    ensures { OnOk result (body.new ≡ body.old ++ drop from (take end fields.now)) }
{
    // known of it: each tag and each value may be a field's
    let _text = fields.text();
    for i in from..end {
        let field = fields.at(i);
        body.push(field.tag, field.value)?;
    }
    Ok(())
}

/// The name of a client.
fn client_name(client: Client) -> &'static [u8]
    ensures name { result.now ≡ name_of_client client }
    ensures value { IsValue result.now }
{
    match client {
        Client::First => b"C1",
        Client::Second => b"C2",
        Client::Third => b"C3",
    }
}
