//! Whether an event and its batch can be written as records, and what their types keep of that.

ghost use Rattle.std.specs.Prelude.{◌≡◌, ◌<◌, ◌≤◌, ◌^◌, length, map, true};
ghost use Rattle.gate_events.specs.Seen.{batch_seen, link_out_seen};
ghost use Rattle.journal_pages.specs.Ordered.{IsWritable};
ghost use Rattle.journal_records.specs.Events.{AreItsFields, event_record};
ghost use Rattle.journal_records.specs.Parts.{named_number};
ghost use Rattle.journal_records.specs.Whole.{Each, IsFitBatch, IsFrame, IsFromOne, IsShortOut, IsShortReport, IsTurn};

use gate_events::{Batch, ClientFrame, ClientNumber, Event, LinkOut, PortNumber};
use session_law::IssuedReport;
use soup_packets::Packet;

/// A payload has fewer bytes than this.
const PAYLOAD_LIMIT: usize = 1_048_576;

/// Whether no link is told 2^20 bytes or more at once. All else that the records need is kept by the types. Takes no
/// memory.
pub fn turn_fits(event: &Event, batch: &Batch) -> bool
    ensures fits { result ≡ true → IsTurn event.now (batch_seen batch.now) }
    ensures only { IsTurn event.now (batch_seen batch.now) → result ≡ true }
{
    event_fits(event);
    batch_fits(batch)
}

/// What an event keeps. It does nothing: its contract says it.
pub(crate) fn event_fits(event: &Event)
    ensures writable { IsWritable (event_record event.now) }
    ensures fields { AreItsFields event.now }
{
    match event {
        Event::ClientUp { client, link, at } => numbers_fit(client.number(), *link, *at),
        Event::ClientMessage {
            client,
            link,
            at,
            frame,
        } => {
            frame_fits(frame);
            numbers_fit(client.number(), *link, *at)
        }
        Event::ClientGone { client, link, at } => numbers_fit(client.number(), *link, *at),
        Event::ClientTick { client, at } => numbers_fit(client.number(), 0, *at),
        Event::PortUp { port, link, at } => numbers_fit(port.number(), *link, *at),
        Event::PortPacket {
            port,
            link,
            at,
            packet,
        } => {
            packet_fits(packet);
            numbers_fit(port.number(), *link, *at)
        }
        Event::PortGone { port, link, at } => numbers_fit(port.number(), *link, *at),
        Event::PortTick { port, at } => numbers_fit(port.number(), 0, *at),
    }
}

/// What numbers keep. It does nothing: its contract says it.
fn numbers_fit(source: u16, link: u64, at: u64)
    ensures source { source < 2 ^ 16 }
    ensures link { link < 2 ^ 64 }
    ensures at { at < 2 ^ 64 }
{}

/// What a frame keeps. It does nothing: its contract says it.
fn frame_fits(frame: &ClientFrame)
    ensures { IsFrame frame.now }
{
    let _text = frame.fields().text();
}

/// What a packet keeps. It does nothing: its contract says it.
fn packet_fits(packet: &Packet)
    ensures { length packet.now.payload ≤ 65_534 }
{
    let _payload = packet.payload.as_slice();
}

/// The same of a batch.
fn batch_fits(batch: &Batch) -> bool
    ensures fits { result ≡ true → IsFitBatch (batch_seen batch.now) }
    ensures only { IsFitBatch (batch_seen batch.now) → result ≡ true }
{
    reports_fit(batch.reports.as_slice());
    client_fits(batch.client);
    port_fits(batch.port);
    let to_client = outs_fit(batch.client_out.as_slice());
    let to_port = outs_fit(batch.port_out.as_slice());
    to_client && to_port
}

/// What reports keep. It does nothing: its contract says it.
fn reports_fit(reports: &[IssuedReport])
    ensures { Each IsShortReport reports.now }
{
    for report in reports {
        report_fits(report);
    }
}

/// What a report keeps. It does nothing: its contract says it.
fn report_fits(report: &IssuedReport)
    ensures { IsShortReport report.now }
{
    let _text = report.text();
}

/// What the number of a client keeps. It does nothing: its contract says it.
fn client_fits(client: Option<ClientNumber>)
    ensures from_one { IsFromOne client }
    ensures room { named_number client < 2 ^ 16 }
{
    if let Some(client) = client {
        let _number = client.number();
    }
}

/// What the number of a port keeps. It does nothing: its contract says it.
fn port_fits(port: Option<PortNumber>)
    ensures from_one { IsFromOne port }
    ensures room { named_number port < 2 ^ 16 }
{
    if let Some(port) = port {
        let _number = port.number();
    }
}

/// Whether a link is told fewer than 2^20 bytes at once.
fn outs_fit(outs: &[LinkOut]) -> bool
    ensures fits { result ≡ true → Each IsShortOut (map link_out_seen outs.now) }
    ensures only { Each IsShortOut (map link_out_seen outs.now) → result ≡ true }
{
    for told in outs {
        if !out_fits(told) {
            return false;
        }
    }
    true
}

/// Whether these are fewer than 2^20 bytes.
fn out_fits(told: &LinkOut) -> bool
    ensures fits { result ≡ true → IsShortOut (link_out_seen told.now) }
    ensures only { IsShortOut (link_out_seen told.now) → result ≡ true }
{
    match told {
        LinkOut::Write { link, bytes } => {
            link_fits(*link);
            bytes.len() < PAYLOAD_LIMIT
        }
        LinkOut::Close { link } => {
            link_fits(*link);
            true
        }
    }
}

/// What the number of a link keeps. It does nothing: its contract says it.
fn link_fits(link: u64)
    ensures { link < 2 ^ 64 }
{}
