//! An event's record, written.

ghost use Rattle.std.specs.Prelude.{◌≡◌, ◌+◌, ◌<◌, ◌++◌, ◌∷◌, [], length, OnOk, OnErr};
ghost use Rattle.journal_pages.specs.Record.{payload_limit};
ghost use Rattle.journal_pages.specs.Seen.{record_of};
ghost use Rattle.journal_pages.specs.Ordered.{IsWritable};
ghost use Rattle.journal_days.specs.Cut.{with_records};
ghost use Rattle.journal_records.specs.Events.{event_record};
ghost use Rattle.soup_packets.specs.Spelling.{packet_bytes};

use crate::fitting::event_fits;
use crate::heads::head;
use gate_events::Event;
use journal_days::DayPages;
use journal_pages::{RecordHead, RecordKind};
use soup_packets::Packet;
use std::alloc::AllocError;

/// Appends the record of an event. `AllocError` leaves `out` as it was. One growth at most.
pub fn append_event(event: &Event, out: &mut DayPages) -> Result<(), AllocError>
    ensures ok { OnOk result (out.new ≡ with_records out.old (event_record event.now ∷ [])) }
    ensures err { OnErr result (out.new ≡ out.old) }
{
    event_fits(event);
    match event {
        Event::ClientMessage { frame, .. } => {
            append_payload(event, out, &[], frame.fields().text())
        }
        Event::PortPacket { packet, .. } => append_packet(event, out, packet),
        Event::ClientUp { .. }
        | Event::ClientGone { .. }
        | Event::ClientTick { .. }
        | Event::PortUp { .. }
        | Event::PortGone { .. }
        | Event::PortTick { .. } => append_payload(event, out, &[], &[]),
    }
}

/// What stands in front of the payload of an event's record. Takes no memory.
pub fn event_head(event: &Event) -> RecordHead
    ensures { record_of result (event_record event.now).payload ≡ event_record event.now }
{
    match event {
        Event::ClientUp { client, link, at } => {
            head(RecordKind::ClientUp, client.number(), *link, *at)
        }
        Event::ClientMessage {
            client,
            link,
            at,
            ..
        } => head(RecordKind::ClientMessage, client.number(), *link, *at),
        Event::ClientGone { client, link, at } => {
            head(RecordKind::ClientGone, client.number(), *link, *at)
        }
        Event::ClientTick { client, at } => head(RecordKind::ClientTick, client.number(), 0, *at),
        Event::PortUp { port, link, at } => head(RecordKind::PortUp, port.number(), *link, *at),
        Event::PortPacket { port, link, at, .. } => {
            head(RecordKind::PortPacket, port.number(), *link, *at)
        }
        Event::PortGone { port, link, at } => head(RecordKind::PortGone, port.number(), *link, *at),
        Event::PortTick { port, at } => head(RecordKind::PortTick, port.number(), 0, *at),
    }
}

/// Appends the record of a packet's event.
fn append_packet(event: &Event, out: &mut DayPages, packet: &Packet) -> Result<(), AllocError>
    requires payload { (event_record event.now).payload ≡ packet_bytes packet.now }
    requires writable { IsWritable (event_record event.now) }
    ensures ok { OnOk result (out.new ≡ with_records out.old (event_record event.now ∷ [])) }
    ensures err { OnErr result (out.new ≡ out.old) }
{
    let payload = packet.payload.as_slice();
    let [high, low] = ((payload.len() + 1) as u16).to_be_bytes();
    append_payload(event, out, &[high, low, packet.kind], payload)
}

/// Appends the record of an event whose payload is these two pieces.
fn append_payload(
    event: &Event,
    out: &mut DayPages,
    front: &[u8],
    back: &[u8],
) -> Result<(), AllocError>
    requires payload { front.now ++ back.now ≡ (event_record event.now).payload }
    requires limit { length front.now + length back.now < payload_limit }
    requires writable { IsWritable (event_record event.now) }
    ensures ok { OnOk result (out.new ≡ with_records out.old (event_record event.now ∷ [])) }
    ensures err { OnErr result (out.new ≡ out.old) }
{
    let head = event_head(event);
    out.append_writable(&head, front, back)
}
