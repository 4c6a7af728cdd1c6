//! The loop of a thread that writes a link.

ghost use Rattle.std.specs.Prelude.{◌≤◌, IfSome};
ghost use Rattle.gate_workers.specs.SharedWriters.{WasWritten};

use crate::clock::Clock;
use crate::shared_writer::SharedWriter;
use gate_events::{ClientNumber, PortNumber};
use link_io::{Gate, LinkFault, Prompt};
use std::alloc::Global;
use std::sync::Wait;
use std::sync::atomic::AtomicBool;

/// How a writer ended without a fault.
#[derive(Clone, Copy, Debug, PartialEq, Eq)]
pub enum WriterEnd {
    /// The core closed the link: its stream is to be shut down.
    Closed,
    /// It was stopped, and nothing was left to be written.
    Stopped,
}

/// A link that is to be written.
#[derive(Drop)]
pub struct NewLink<W> {
    /// Its number among those of its client or port, from 1.
    pub number: u64,
    /// How many steps its writer makes at most, 1 or more.
    pub steps: u64,
    /// What it is written onto.
    pub stream: W,
}

/// Opens a client's link at its shared writer, and writes the link's output until the core closes it, or until `stop`
/// is set and nothing is queued. How it ended, and its stream. Other threads may write promptly through the same shared
/// writer meanwhile. It pauses if nothing was queued or memory ran out; if it took a list it steps the core, since an
/// event may have waited for the room.
///
/// `WriteFailed` if a write failed or took no byte, `StepLimit` at the last of the link's steps: of the link's output
/// the first bytes went out. `None` if the shared writer has another link open, or this isn't its next one: then
/// nothing is written.
pub fn client_writer<R: Wait, W: Prompt + Drop, G: Gate + Drop, C: Clock>(
    rt: &R,
    alloc: Global,
    client: ClientNumber,
    link: NewLink<W>,
    shared_writer: &SharedWriter<W, G>,
    clock: &mut C,
    stop: &AtomicBool,
) -> Option<(Result<WriterEnd, LinkFault>, W)>
    requires from_one { 1 ≤ link.steps }
    ensures written { IfSome result (λ e. ∥ WasWritten W.contents e.0 e.1 ∥₁) }
{
    write_link(rt, alloc, client.number(), link, shared_writer, clock, stop)
}

/// Opens a port's link at its shared writer, and writes its output, as `client_writer` does.
pub fn port_writer<R: Wait, W: Prompt + Drop, G: Gate + Drop, C: Clock>(
    rt: &R,
    alloc: Global,
    port: PortNumber,
    link: NewLink<W>,
    shared_writer: &SharedWriter<W, G>,
    clock: &mut C,
    stop: &AtomicBool,
) -> Option<(Result<WriterEnd, LinkFault>, W)>
    requires from_one { 1 ≤ link.steps }
    ensures written { IfSome result (λ e. ∥ WasWritten W.contents e.0 e.1 ∥₁) }
{
    write_link(rt, alloc, port.number(), link, shared_writer, clock, stop)
}

/// The same for the client or port of this number.
fn write_link<R: Wait, W: Prompt + Drop, G: Gate + Drop, C: Clock>(
    rt: &R,
    alloc: Global,
    number: u16,
    link: NewLink<W>,
    shared_writer: &SharedWriter<W, G>,
    clock: &mut C,
    stop: &AtomicBool,
) -> Option<(Result<WriterEnd, LinkFault>, W)>
    requires from_one { 1 ≤ link.steps }
    ensures written { IfSome result (λ e. ∥ WasWritten W.contents e.0 e.1 ∥₁) }
{
    let NewLink {
        number: link,
        steps,
        stream,
    } = link;
    if shared_writer
        .open(rt, alloc, number, link, steps, stream)
        .is_err()
    {
        return None;
    }
    shared_writer.write_all(rt, alloc, clock, stop)
}
