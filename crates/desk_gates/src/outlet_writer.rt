//! The shared writer of an outlet.

ghost use Rattle.std.specs.Prelude.{◌≡◌, []};

use desk::Recipient;
use gate_workers::SharedWriter;
use link_io::{Gate, Prompt};
use std::alloc::Global;

/// The shared writer of an outlet's client or port.
#[derive(Drop)]
pub struct OutletWriter<W: Prompt + Drop, G: Gate + Drop> {
    /// Whose output it writes.
    to: Option<Recipient>,
    shared_writer: SharedWriter<W, G>,
    ghost own: { G.output_for shared_writer.first.value ≡ to },
}

impl<W: Prompt + Drop, G: Gate + Drop> OutletWriter<W, G> {
    /// The shared writer over a handle from which nothing was taken. Takes no memory.
    pub fn new(gate: G) -> OutletWriter<W, G>
        requires fresh { G.was_taken gate ≡ [] }
        ensures to { result.to ≡ G.output_for gate }
    {
        let to = gate.recipient();
        let shared_writer = SharedWriter::new(gate);
        OutletWriter { to, shared_writer }
    }

    /// Whose output it writes; `None` where its handle is nobody's.
    pub fn recipient(&self) -> Option<Recipient>
        ensures { result ≡ self.now.to }
    {
        self.to
    }

    /// The writer.
    pub fn shared_writer(&self) -> &SharedWriter<W, G>
        ensures own { G.output_for result.now.first.value ≡ self.now.to }
    {
        &self.shared_writer
    }

    /// Writes what is queued for the link by one prompt write, if nobody else holds its lock. Whether nothing is left.
    pub(crate) fn write(&self, alloc: Global) -> bool {
        self.shared_writer.write(alloc)
    }

    /// The handle; `None` if a link is still open.
    pub fn into_gate(self) -> Option<G> {
        let OutletWriter {
            to: _,
            shared_writer,
        } = self;
        match shared_writer.into_gate() {
            Ok(gate) => Some(gate),
            Err(_) => None,
        }
    }
}
