//! The writing side of a line: its shared writer, and the clock of the thread that writes.

ghost use Rattle.std.specs.Prelude.{◌≡◌, ◌≤◌, IfSome};
ghost use Rattle.gate_workers.specs.SharedWriters.{HasEnded, WasWritten};

use gate_events::Recipient;
use gate_workers::{Clock, NewLink, SharedWriter, WriterEnd, client_writer, port_writer};
use link_io::{Gate, LinkFault, Prompt};
use std::alloc::Global;
use std::io::Write;
use std::sync::Wait;
use std::sync::atomic::AtomicBool;

/// What writes a line's links: their shared writer, which other threads lock too, and a clock.
#[derive(Drop)]
pub struct WriterWorker<'a, W: Prompt + Drop, G: Gate + Drop, C> {
    shared_writer: &'a SharedWriter<W, G>,
    clock: C,
}

impl<'a, W: Prompt + Drop, G: Gate + Drop, C> WriterWorker<'a, W, G, C> {
    /// Over this shared writer, with the clock of the thread that writes. Takes no memory.
    pub fn new(shared_writer: &'a SharedWriter<W, G>, clock: C) -> WriterWorker<'a, W, G, C>
        ensures shared_writer { result.shared_writer.now ≡ shared_writer.now }
    {
        WriterWorker {
            shared_writer,
            clock,
        }
    }
}

impl<'a, W: Prompt + Drop, G: Gate + Drop, C: Clock> WriterWorker<'a, W, G, C> {
    /// Opens a link at the shared writer, and writes it until it is over. `WriteFailed` if the shared writer has
    /// another one open, or this isn't its next one.
    pub(crate) fn write<R: Wait>(
        &mut self,
        rt: &R,
        alloc: Global,
        peer: Recipient,
        link: NewLink<W>,
        stop: &AtomicBool,
    ) -> Result<WriterEnd, LinkFault>
        requires from_one { 1 ≤ link.steps }
        ensures written { HasEnded W.contents result }
    {
        let (writer, clock) = (self.shared_writer, &mut self.clock);
        let written = match peer {
            Recipient::Client(client) => {
                client_writer(rt, alloc, client, link, writer, clock, stop)
            }
            Recipient::Port(port) => port_writer(rt, alloc, port, link, writer, clock, stop),
        };
        end_of(written)
    }

    /// Drops output that is queued between two links, and steps the core, since an event may have waited for the room.
    pub(crate) fn let_go<R: Wait>(&self, rt: &R, alloc: Global) {
        self.shared_writer.let_go(rt, alloc);
    }
}

/// How a link that was written ended; `WriteFailed` where it wasn't opened.
fn end_of<W: Write + Drop>(
    written: Option<(Result<WriterEnd, LinkFault>, W)>,
) -> Result<WriterEnd, LinkFault>
    requires written { IfSome written (λ e. ∥ WasWritten W.contents e.0 e.1 ∥₁) }
    ensures ended { HasEnded W.contents result }
{
    let Some(written) = written else {
        return Err(LinkFault::WriteFailed);
    };
    let (end, _) = written;
    end
}
