//! Makes a desk's queues.

ghost use Rattle.std.specs.Prelude.{◌≡◌, ◌<◌, ◌+◌, ◌≤◌, ℕ, Some, length, slice_get, IfOk};
ghost use Rattle.gate_events.specs.declared.source.Source.{Source};
ghost use Rattle.gate_events.specs.declared.source.Recipient.{Recipient};
ghost use Rattle.desk_side.specs.Opened.{IsOpened};
ghost use Rattle.desk_side.specs.Places as places;

use crate::side::Side;
use desk_rings::{EventRing, OutputRing, event_rings, output_rings};
use gate_events::{ClientNumber, PortNumber, Recipient, Source};
use std::alloc::{AllocError, Global};
use std::collections::VecDeque;

/// The queues of a desk for this many clients and ports: the desk's side of them, and the other ends by position.
pub fn open_side(
    alloc: Global,
    clients: usize,
    ports: usize,
) -> Result<(Side, VecDeque<EventRing>, VecDeque<OutputRing>), AllocError>
    requires few { (clients < 65_535) × (ports < 65_535) }
    ensures { IfOk result (λ r. IsOpened clients ports r.0 r.1.items r.2.items) }
{
    let sources = sources_of(alloc, clients, ports)?;
    let recipients = recipients_of(alloc, clients, ports)?;
    let (inlets, consumers) = event_rings(alloc, sources.as_slice())?;
    let (producers, outlets) = output_rings(alloc, recipients.as_slice())?;
    Ok((
        Side::new(clients, ports, consumers, producers),
        inlets,
        outlets,
    ))
}

/// The sources of all inlets, by position.
fn sources_of(alloc: Global, clients: usize, ports: usize) -> Result<Vec<Source>, AllocError>
    requires few { (clients < 65_535) × (ports < 65_535) }
    ensures count { IfOk result (λ sources. length sources.items ≡ clients + ports + 1) }
    ensures each { IfOk result (λ sources. (k : ℕ) (source : Source) → slice_get sources.items k ≡ Some source
        → source ≡ places.source_at clients ports k) }
{
    let mut sources = Vec::new(alloc);
    for place in 0..clients + ports + 1 {
        sources.push(source_at(clients, ports, place))?;
    }
    Ok(sources)
}

/// The recipients of all outlets, by position.
fn recipients_of(alloc: Global, clients: usize, ports: usize) -> Result<Vec<Recipient>, AllocError>
    requires few { (clients < 65_535) × (ports < 65_535) }
    ensures count { IfOk result (λ recipients. length recipients.items ≡ clients + ports) }
    ensures each { IfOk result (λ recipients. (d : ℕ) (to : Recipient) → slice_get recipients.items d ≡ Some to
        → to ≡ places.recipient_at clients d) }
{
    let mut recipients = Vec::new(alloc);
    for place in 0..clients + ports {
        recipients.push(recipient_at(clients, ports, place))?;
    }
    Ok(recipients)
}

/// The source of the inlet at a place.
fn source_at(clients: usize, ports: usize, place: usize) -> Source
    requires few { (clients < 65_535) × (ports < 65_535) }
    ensures { result ≡ places.source_at clients ports place }
{
    if place < clients {
        Source::Client(ClientNumber::at_place(place))
    } else if place < clients + ports {
        Source::Port(PortNumber::at_place(place - clients))
    } else {
        Source::Clock
    }
}

/// The recipient of the outlet at a place.
fn recipient_at(clients: usize, ports: usize, place: usize) -> Recipient
    requires few { (clients < 65_535) × (ports < 65_535) }
    requires inside { place < clients + ports }
    ensures { result ≡ places.recipient_at clients place }
{
    if place < clients {
        Recipient::Client(ClientNumber::at_place(place))
    } else {
        Recipient::Port(PortNumber::at_place(place - clients))
    }
}
