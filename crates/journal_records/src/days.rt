//! The events and the batches of a day, read from its records.

ghost use Rattle.std.specs.Prelude.{◌≡◌, ◌++◌, ◌∷◌, [], map, IfOk, OnOk, if◌then◌else◌};
ghost use Rattle.gate_events.specs.Seen.{batch_seen};
ghost use Rattle.journal_pages.specs.Page as page;
ghost use Rattle.journal_days.specs.Left.{records_left};
ghost use Rattle.journal_records.specs.Days.{batches_in, events_in, with_event};
ghost use Rattle.journal_records.specs.Reading.{batch_in};

use crate::reading::{batch_of, event_of};
use gate_events::{Batch, Event};
use journal_days::DayRecords;
use journal_pages::RecordKind;
use std::alloc::{AllocError, Global};

/// The events that records say, in order.
pub fn events_of<'a>(alloc: Global, records: DayRecords<'a>) -> Result<Vec<Event>, AllocError>
    ensures { IfOk result (λ events. events.items ≡ events_in (records_left records.entry)) }
{
    let mut events = Vec::new(alloc);
    let mut ahead = records;
    while let Some((record, behind)) = ahead.split_first() {
        push_event(&mut events, event_of(alloc, &record)?)?;
        ahead = behind;
    }
    Ok(events)
}

/// The batches that records say, one for each event, in order.
pub fn batches_of<'a>(alloc: Global, records: DayRecords<'a>) -> Result<Vec<Batch>, AllocError>
    ensures { IfOk result (λ batches. map batch_seen batches.items ≡ batches_in (records_left records.entry)) }
{
    let mut batches = Vec::new(alloc);
    let mut ahead = records;
    while let Some((record, behind)) = ahead.split_first() {
        push_batch(&mut batches, alloc, record.kind, behind)?;
        ahead = behind;
    }
    Ok(batches)
}

/// Adds an event, if there is one.
fn push_event(events: &mut Vec<Event>, event: Option<Event>) -> Result<(), AllocError>
    ensures { OnOk result (events.new.items ≡ events.old.items ++ with_event event []) }
{
    if let Some(event) = event {
        events.push(event)?;
    }
    Ok(())
}

/// Adds the batch that stands behind a record of this kind, if that is an event's.
fn push_batch<'a>(
    batches: &mut Vec<Batch>,
    alloc: Global,
    kind: RecordKind,
    behind: DayRecords<'a>,
) -> Result<(), AllocError>
    ensures { OnOk result (map batch_seen batches.new.items ≡ map batch_seen batches.old.items
        ++ (if page.is_event kind then batch_in (records_left behind.entry) ∷ [] else [])) }
{
    if !is_event(kind) {
        return Ok(());
    }
    let (batch, _) = batch_of(alloc, behind)?;
    batches.push(batch)?;
    Ok(())
}

/// Whether a record of this kind is an event's.
fn is_event(kind: RecordKind) -> bool
    ensures { result ≡ page.is_event kind }
{
    match kind {
        RecordKind::ClientUp
        | RecordKind::ClientMessage
        | RecordKind::ClientGone
        | RecordKind::PortUp
        | RecordKind::PortPacket
        | RecordKind::PortGone
        | RecordKind::ClientTick
        | RecordKind::PortTick => true,
        RecordKind::Report
        | RecordKind::ClientWrite
        | RecordKind::ClientClose
        | RecordKind::PortWrite
        | RecordKind::PortClose
        | RecordKind::Fault
        | RecordKind::BatchEnd => false,
    }
}
