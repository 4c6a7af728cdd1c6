//! Packets to the market, as they are shown.

ghost use Rattle.std.specs.Prelude.{◌≡◌, ◌++◌, OnOk, IfOk};
ghost use Rattle.gate_lines.specs.Packets as shown;
ghost use Rattle.gate_lines.specs.Words as words;

use crate::messages::push_message;
use soup_packets::Packet;
use std::alloc::{AllocError, Global};
use wire_law::WholeWire;

/// How many bytes of a login stand before the session: the user and the password.
const LOGIN_NAMES: usize = 16;

/// How many bytes the session has.
const SESSION: usize = 10;

/// How many bytes a login has.
const LOGIN: usize = 46;

/// Adds what the packet of these bytes says: a message to the market, a login request or a heartbeat, with a space
/// before each word. Nothing where they are none of these.
///
/// Source: SoupBinTCP 3.00, "Packets Sent by the Client".
pub(crate) fn push_packet(alloc: Global, text: &mut Vec<u8>, bytes: &[u8]) -> Result<(), AllocError>
    ensures { OnOk result (text.new.items ≡ text.old.items ++ shown.shown_bytes bytes.now) }
{
    match Packet::get(alloc, bytes)? {
        Some(packet) => push_said(text, &packet),
        None => Ok(()),
    }
}

/// Adds what a packet says.
fn push_said(text: &mut Vec<u8>, packet: &Packet) -> Result<(), AllocError>
    ensures { OnOk result (text.new.items ≡ text.old.items ++ shown.shown_packet packet.now.kind packet.now.payload) }
{
    let payload = packet.payload.as_slice();
    match packet.kind {
        b'U' => push_message(text, payload),
        b'L' => push_login(text, payload),
        b'R' => text.extend_from_slice(b" R"),
        _ => Ok(()),
    }
}

/// Adds a login request: the session that is asked for, `-` where it is blank, and the number that is wanted next.
/// Neither user nor password is shown. Nothing where these bytes are none.
///
/// Source: SoupBinTCP 3.00, "Login Request Packet".
fn push_login(text: &mut Vec<u8>, payload: &[u8]) -> Result<(), AllocError>
    ensures { OnOk result (text.new.items ≡ text.old.items ++ shown.shown_login payload.now) }
{
    if payload.len() != LOGIN {
        return Ok(());
    }
    let (_, behind) = payload.split_at(LOGIN_NAMES);
    let (session, number) = behind.split_at(SESSION);
    text.extend_from_slice(b" login ")?;
    push_session(text, bare(session))?;
    text.push(b' ')?;
    text.extend_from_slice(bare(number))
}

/// Adds the name of a session, `-` where it has none.
fn push_session(text: &mut Vec<u8>, session: &[u8]) -> Result<(), AllocError>
    ensures { OnOk result (text.new.items ≡ text.old.items ++ shown.shown_session session.now) }
{
    text.extend_from_slice(if session.is_empty() { b"-" } else { session })
}

/// A field without its padding, which may stand on either side.
fn bare(field: &[u8]) -> &[u8]
    ensures { result.now ≡ words.bare field.now }
{
    field.trim_ascii()
}
