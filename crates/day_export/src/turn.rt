//! The rows of an event with its batch.

ghost use Rattle.std.specs.Prelude.{◌≡◌, ◌++◌, IfOk, OnOk, map};
ghost use Rattle.std.specs.List.{flat_map};
ghost use Rattle.gate_events.specs.Seen.{batch_seen, link_out_seen};
ghost use Rattle.gate_events.specs.declared.batch.LinkOut as told_out;
ghost use Rattle.day_export.specs.Rows as spec;

use crate::fields::{cells_of, is_of_orders};
use crate::format::Format;
use crate::market::{cells_of_asked, cells_of_said};
use crate::row::{Head, Way, Who};
use crate::writing::push_row;
use fix_fields::Fields;
use gate_events::{Batch, Event, LinkOut};
use session_law::IssuedReport;
use soup_packets::Packet;
use std::alloc::{AllocError, Global};

/// The rows of an event with its batch: what came, what the client was told, what the market was asked.
#[tactic(auto, unfolding(crate::specs::Rows::turn_text))]
pub(crate) fn turn_text(
    alloc: Global,
    format: Format,
    event: &Event,
    batch: &Batch,
) -> Result<Vec<u8>, AllocError>
    ensures { IfOk result (λ text. text.items ≡ spec.turn_text format event.now (batch_seen batch.now)) }
{
    let mut text = Vec::new(alloc);
    let at = moment_of(event);
    push_came(&mut text, alloc, format, event)?;
    push_told(&mut text, alloc, format, at, batch)?;
    push_asked(&mut text, alloc, format, at, batch)?;
    Ok(text)
}

/// The moment of an event.
fn moment_of(event: &Event) -> u64
    ensures { result ≡ spec.moment_of event.now }
{
    match event {
        Event::ClientUp { at, .. } => *at,
        Event::ClientMessage { at, .. } => *at,
        Event::ClientGone { at, .. } => *at,
        Event::ClientTick { at, .. } => *at,
        Event::PortUp { at, .. } => *at,
        Event::PortPacket { at, .. } => *at,
        Event::PortGone { at, .. } => *at,
        Event::PortTick { at, .. } => *at,
    }
}

/// Adds what an event brings.
#[tactic(auto, unfolding(crate::specs::Rows::came))]
fn push_came(
    text: &mut Vec<u8>,
    alloc: Global,
    format: Format,
    event: &Event,
) -> Result<(), AllocError>
    ensures { OnOk result (text.new.items ≡ text.old.items ++ spec.came format event.now) }
{
    match event {
        Event::ClientUp { .. } => Ok(()),
        Event::ClientMessage {
            client,
            at,
            frame,
            ..
        } => {
            let head = Head {
                at: *at,
                who: Who::Client(client.number()),
                way: Way::In,
            };
            push_frame(text, alloc, format, head, frame.fields())
        }
        Event::ClientGone { .. } => Ok(()),
        Event::ClientTick { .. } => Ok(()),
        Event::PortUp { .. } => Ok(()),
        Event::PortPacket {
            port,
            at,
            packet,
            ..
        } => {
            let head = Head {
                at: *at,
                who: Who::Port(port.number()),
                way: Way::In,
            };
            push_packet(text, alloc, format, head, packet)
        }
        Event::PortGone { .. } => Ok(()),
        Event::PortTick { .. } => Ok(()),
    }
}

/// Adds a client's frame, where it is a message of the order level.
fn push_frame(
    text: &mut Vec<u8>,
    alloc: Global,
    format: Format,
    head: Head,
    fields: &Fields,
) -> Result<(), AllocError>
    ensures { OnOk result (text.new.items ≡ text.old.items ++ spec.frame_row format head fields.now) }
{
    match fields.first(35) {
        Some(kind) => {
            if is_of_orders(kind) {
                push_fields(text, alloc, format, head, fields)
            } else {
                Ok(())
            }
        }
        None => Ok(()),
    }
}

/// Adds a FIX message by its fields that are handed on.
fn push_fields(
    text: &mut Vec<u8>,
    alloc: Global,
    format: Format,
    head: Head,
    fields: &Fields,
) -> Result<(), AllocError>
    ensures { OnOk result (text.new.items ≡ text.old.items ++ spec.fields_row format head fields.now) }
{
    let cells = cells_of(alloc, fields)?;
    push_row(text, format, head, cells.as_slice())
}

/// Adds what the market says by a packet.
fn push_packet(
    text: &mut Vec<u8>,
    alloc: Global,
    format: Format,
    head: Head,
    packet: &Packet,
) -> Result<(), AllocError>
    ensures { OnOk result (text.new.items ≡ text.old.items ++ spec.packet_row format head packet.now) }
{
    let cells = cells_of_said(alloc, packet)?;
    push_row(text, format, head, cells.as_slice())
}

/// Adds the reports and rejects that a client was issued, be they written or not.
#[tactic(auto, unfolding(crate::specs::Rows::told))]
fn push_told(
    text: &mut Vec<u8>,
    alloc: Global,
    format: Format,
    at: u64,
    batch: &Batch,
) -> Result<(), AllocError>
    ensures { OnOk result (text.new.items ≡ text.old.items ++ spec.told format at (batch_seen batch.now)) }
{
    match batch.client {
        Some(client) => {
            let head = Head {
                at,
                who: Who::Client(client.number()),
                way: Way::Out,
            };
            push_reports(text, alloc, format, head, batch.reports.as_slice())
        }
        None => Ok(()),
    }
}

/// Adds reports and rejects.
fn push_reports(
    text: &mut Vec<u8>,
    alloc: Global,
    format: Format,
    head: Head,
    reports: &[IssuedReport],
) -> Result<(), AllocError>
    ensures { OnOk result (text.new.items ≡ text.old.items ++ flat_map (spec.fields_row format head) reports.now) }
{
    for report in reports {
        let fields = report.to_fields(alloc)?;
        push_fields(text, alloc, format, head, &fields)?;
    }
    Ok(())
}

/// Adds what a port is asked.
#[tactic(auto, unfolding(crate::specs::Rows::asked))]
fn push_asked(
    text: &mut Vec<u8>,
    alloc: Global,
    format: Format,
    at: u64,
    batch: &Batch,
) -> Result<(), AllocError>
    ensures { OnOk result (text.new.items ≡ text.old.items ++ spec.asked format at (batch_seen batch.now)) }
{
    match batch.port {
        Some(port) => {
            let head = Head {
                at,
                who: Who::Port(port.number()),
                way: Way::Out,
            };
            push_outs(text, alloc, format, head, batch.port_out.as_slice())
        }
        None => Ok(()),
    }
}

/// Adds what a port's link is told.
fn push_outs(
    text: &mut Vec<u8>,
    alloc: Global,
    format: Format,
    head: Head,
    outs: &[LinkOut],
) -> Result<(), AllocError>
    ensures { OnOk result (text.new.items
        ≡ text.old.items ++ flat_map (spec.out_row format head) (map link_out_seen outs.now)) }
{
    push_each(text, alloc, format, head, outs)
}

/// The same, one after another.
fn push_each(
    text: &mut Vec<u8>,
    alloc: Global,
    format: Format,
    head: Head,
    outs: &[LinkOut],
) -> Result<(), AllocError>
    ensures { OnOk result (text.new.items
        ≡ text.old.items ++ flat_map (λ (o : told_out.LinkOut). spec.out_row format head (link_out_seen o)) outs.now) }
{
    for out in outs {
        push_out(text, alloc, format, head, out)?;
    }
    Ok(())
}

/// Adds what is asked of the market, where it is something.
fn push_out(
    text: &mut Vec<u8>,
    alloc: Global,
    format: Format,
    head: Head,
    out: &LinkOut,
) -> Result<(), AllocError>
    ensures { OnOk result (text.new.items ≡ text.old.items ++ spec.out_row format head (link_out_seen out.now)) }
{
    match out {
        LinkOut::Write { bytes, .. } => push_bytes(text, alloc, format, head, bytes.as_slice()),
        LinkOut::Close { .. } => Ok(()),
    }
}

/// Adds what is asked of the market by the bytes of a packet.
fn push_bytes(
    text: &mut Vec<u8>,
    alloc: Global,
    format: Format,
    head: Head,
    bytes: &[u8],
) -> Result<(), AllocError>
    ensures { OnOk result (text.new.items ≡ text.old.items ++ spec.asked_row format head bytes.now) }
{
    let cells = cells_of_asked(alloc, bytes)?;
    push_row(text, format, head, cells.as_slice())
}
