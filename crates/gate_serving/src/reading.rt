//! What a line's reader does, by whose line it is.

ghost use Rattle.std.specs.Prelude.{◌≡◌, ◌≤◌};
ghost use Rattle.gate_serving.specs.Lines.{reads_of};

use gate_events::Recipient;
use gate_workers::{Clock, client_reader, port_reader};
use link_io::{Gate, LinkFault};
use std::alloc::Global;
use std::io::Read;
use std::sync::Wait;

/// Reads the link of this number of a client or port until it is over, in this many steps at most.
pub(crate) fn read<R: Wait, S: Read, G: Gate, C: Clock>(
    rt: &R,
    alloc: Global,
    peer: Recipient,
    link: u64,
    steps: u64,
    stream: &mut S,
    gate: &mut G,
    clock: &mut C,
) -> Result<(), LinkFault>
    requires from_one { 1 ≤ steps }
    ensures has_read { reads_of peer link result
        (record { put = G.was_put gate.old; reported = C.reported clock.old })
        (record { put = G.was_put gate.new; reported = C.reported clock.new })
        (S.remaining stream.old) (S.remaining stream.new) }
    ensures none_taken { G.was_taken gate.new ≡ G.was_taken gate.old }
{
    match peer {
        Recipient::Client(client) => {
            client_reader(rt, alloc, client, link, steps, stream, gate, clock)
        }
        Recipient::Port(port) => port_reader(rt, alloc, port, link, steps, stream, gate, clock),
    }
}
