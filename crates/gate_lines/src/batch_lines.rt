//! The lines of a batch.

ghost use Rattle.std.specs.Prelude.{◌≡◌, ◌++◌, IfOk, OnOk, map};
ghost use Rattle.std.specs.List.{flat_map};
ghost use Rattle.gate_events.specs.Seen.{batch_seen, link_out_seen};
ghost use Rattle.gate_lines.specs.BatchLines as shown;

use crate::flags::Flags;
use crate::frames::push_frame;
use crate::packets::push_packet;
use crate::words::{push_name, push_number};
use gate_events::{Batch, LinkOut};
use soup_session::PortFault;
use std::alloc::{AllocError, Global};

/// The lines of a batch: what the client's link is told, then the port's fault, then what the port's link is told.
/// They name the client and the port that the batch names; where it names none there are no such lines. Reports that
/// aren't written aren't shown.
///
/// | Line | What it shows |
/// |---|---|
/// | `C1 > 35=8\|37=1\|..` | a frame, `\|` between its fields |
/// | `P1 > O ..`, `P1 > U ..`, `P1 > X ..` | a message to the market: its fields in the layout's order, not padded |
/// | `P1 > login S N` | a login request: its session, `-` where that is blank, and the number that is wanted next |
/// | `P1 > R` | a heartbeat |
/// | `P1 fault 2` | the port's fault |
/// | `C1 > close`, `P1 > close` | the link is closed |
///
/// A frame is shown without 8, 9, 10, 49, 52, 56, 60 and 122, and without 34 unless the flags ask for it; or, where
/// they ask for that, whole, with `\|` for each SOH. Of bytes that are none of these a line has nothing behind `>`
/// but, for a client, a space. A link's number isn't shown.
///
/// Source: FIX 4.4 Volume 2, "Standard Message Header"; OUCH 4.2, "Inbound Messages"; SoupBinTCP 3.00, "Packets Sent
/// by the Client".
pub fn batch_text(alloc: Global, flags: Flags, batch: &Batch) -> Result<Vec<u8>, AllocError>
    ensures { IfOk result (λ text. text.items ≡ shown.shown_batch flags (batch_seen batch.now)) }
{
    let mut text = Vec::new(alloc);
    if let Some(client) = batch.client {
        push_client_outs(
            alloc,
            &mut text,
            flags,
            client.number(),
            batch.client_out.as_slice(),
        )?;
    }
    if let Some(port) = batch.port {
        push_fault(&mut text, port.number(), batch.fault)?;
        push_port_outs(alloc, &mut text, port.number(), batch.port_out.as_slice())?;
    }
    Ok(text)
}

/// Adds the lines of a client.
fn push_client_outs(
    alloc: Global,
    text: &mut Vec<u8>,
    flags: Flags,
    client: u16,
    outs: &[LinkOut],
) -> Result<(), AllocError>
    ensures { OnOk result (text.new.items ≡ text.old.items
        ++ flat_map (shown.shown_client_out flags client) (map link_out_seen outs.now)) }
{
    for out in outs {
        push_client_out(alloc, text, flags, client, out)?;
    }
    Ok(())
}

/// Adds a line of a client.
fn push_client_out(
    alloc: Global,
    text: &mut Vec<u8>,
    flags: Flags,
    client: u16,
    out: &LinkOut,
) -> Result<(), AllocError>
    ensures { OnOk result (text.new.items ≡ text.old.items
        ++ shown.shown_client_out flags client (link_out_seen out.now)) }
{
    push_name(text, b'C', client)?;
    text.extend_from_slice(b" > ")?;
    match out {
        LinkOut::Write { bytes, .. } => push_frame(alloc, text, flags, bytes.as_slice())?,
        LinkOut::Close { .. } => text.extend_from_slice(b"close")?,
    }
    text.push(b'\n')?;
    Ok(())
}

/// Adds a port's fault, if there is one.
fn push_fault(text: &mut Vec<u8>, port: u16, fault: Option<PortFault>) -> Result<(), AllocError>
    ensures { OnOk result (text.new.items ≡ text.old.items ++ shown.shown_fault port fault) }
{
    let Some(fault) = fault else {
        return Ok(());
    };
    push_name(text, b'P', port)?;
    text.extend_from_slice(b" fault")?;
    push_number(text, u32::from(fault.number()))?;
    text.push(b'\n')?;
    Ok(())
}

/// Adds the lines of a port.
fn push_port_outs(
    alloc: Global,
    text: &mut Vec<u8>,
    port: u16,
    outs: &[LinkOut],
) -> Result<(), AllocError>
    ensures { OnOk result (text.new.items ≡ text.old.items
        ++ flat_map (shown.shown_port_out port) (map link_out_seen outs.now)) }
{
    for out in outs {
        push_port_out(alloc, text, port, out)?;
    }
    Ok(())
}

/// Adds a line of a port.
fn push_port_out(
    alloc: Global,
    text: &mut Vec<u8>,
    port: u16,
    out: &LinkOut,
) -> Result<(), AllocError>
    ensures { OnOk result (text.new.items ≡ text.old.items ++ shown.shown_port_out port (link_out_seen out.now)) }
{
    push_name(text, b'P', port)?;
    text.extend_from_slice(b" >")?;
    match out {
        LinkOut::Write { bytes, .. } => push_packet(alloc, text, bytes.as_slice())?,
        LinkOut::Close { .. } => text.extend_from_slice(b" close")?,
    }
    text.push(b'\n')?;
    Ok(())
}
