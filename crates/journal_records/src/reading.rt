//! An event and its batch, read from their records.

ghost use Rattle.std.specs.Prelude.{◌≡◌, ◌∷◌, IfOk, MatchOption, None, Some};
ghost use Rattle.gate_events.specs.Seen.{batch_seen};
ghost use Rattle.journal_pages.specs.Seen.{record_seen};
ghost use Rattle.journal_days.specs.Left.{records_left};
ghost use Rattle.journal_pages.specs.declared.kind.RecordKind.TheVariants as kinds;
ghost use Rattle.journal_records.specs.Events.{event_in, payload_fields, payload_packet};
ghost use Rattle.journal_records.specs.Reading.{batch_in, behind_parts, first_part};

use crate::parts::{BatchParts, is_part};
use fix_fields::FieldsView;
use gate_events::{Batch, ClientFrame, ClientNumber, Event, PortNumber};
use journal_days::DayRecords;
use journal_pages::{RecordKind, RecordView};
use soup_packets::Packet;
use std::alloc::{AllocError, Global};
use wire_law::WholeWire;

/// The event that a record says; `None` for a record that is part of a batch. Two growths at most.
pub fn event_of(alloc: Global, record: &RecordView<'_>) -> Result<Option<Event>, AllocError>
    ensures { IfOk result (λ event. event ≡ event_in (record_seen record.now)) }
{
    if record.source == 0 {
        return Ok(None);
    }
    let client = ClientNumber::new(record.source);
    let port = PortNumber::new(record.source);
    let link = record.link;
    let at = record.at;
    Ok(match record.kind {
        RecordKind::ClientUp => Some(Event::ClientUp { client, link, at }),
        RecordKind::ClientMessage => Some(Event::ClientMessage {
            client,
            link,
            at,
            frame: frame_of(alloc, record)?,
        }),
        RecordKind::ClientGone => Some(Event::ClientGone { client, link, at }),
        RecordKind::PortUp => Some(Event::PortUp { port, link, at }),
        RecordKind::PortPacket => Some(Event::PortPacket {
            port,
            link,
            at,
            packet: packet_of(alloc, record)?,
        }),
        RecordKind::PortGone => Some(Event::PortGone { port, link, at }),
        RecordKind::ClientTick => Some(Event::ClientTick { client, at }),
        RecordKind::PortTick => Some(Event::PortTick { port, at }),
        RecordKind::Report
        | RecordKind::ClientWrite
        | RecordKind::ClientClose
        | RecordKind::PortWrite
        | RecordKind::PortClose
        | RecordKind::Fault
        | RecordKind::BatchEnd => None,
    })
}

/// The frame that a record brings. Two growths.
fn frame_of(alloc: Global, record: &RecordView<'_>) -> Result<ClientFrame, AllocError>
    requires { record.now.kind ≡ kinds.ClientMessage }
    ensures { IfOk result (λ frame. frame ≡ payload_fields record.now.payload.now) }
{
    let view = FieldsView::known(record.payload);
    let fields = view.to_fields(alloc)?;
    let made = ClientFrame::of(fields);
    Ok(made.unwrap())
}

/// The packet that a record brings. One growth.
fn packet_of(alloc: Global, record: &RecordView<'_>) -> Result<Packet, AllocError>
    requires { record.now.kind ≡ kinds.PortPacket }
    ensures { IfOk result (λ packet. packet ≡ payload_packet record.now.payload.now) }
{
    let read = Packet::get(alloc, record.payload)?;
    Ok(read.unwrap())
}

/// The batch that records say in front, and the records from the first on that is no part of it: in a page its end.
pub fn batch_of<'a>(
    alloc: Global,
    records: DayRecords<'a>,
) -> Result<(Batch, DayRecords<'a>), AllocError>
    ensures batch { IfOk result (λ read. batch_seen read.0 ≡ batch_in (records_left records.entry)) }
    ensures behind { IfOk result (λ read. records_left read.1 ≡ behind_parts (records_left records.entry)) }
{
    let mut parts = BatchParts::new(alloc);
    let mut ahead = records;
    while let Some((record, behind)) = next_part(ahead) {
        parts.add(alloc, &record)?;
        ahead = behind;
    }
    Ok((parts.into_batch(), ahead))
}

/// The next record and those behind it, where it is part of a batch.
fn next_part<'a>(records: DayRecords<'a>) -> Option<(RecordView<'a>, DayRecords<'a>)>
    ensures { MatchOption result (first_part (records_left records.entry) ≡ None)
        (λ next. (first_part (records_left records.entry) ≡ Some (record_seen next.0))
        × (records_left records.entry ≡ record_seen next.0 ∷ records_left next.1)) }
{
    match records.split_first() {
        Some((record, behind)) if is_part(record.kind) => Some((record, behind)),
        _ => None,
    }
}
