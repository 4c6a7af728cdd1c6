//! The loop of a thread that reads a link.

ghost use Rattle.std.specs.Prelude.{◌≡◌, ◌≤◌, ◌++◌, ◌∷◌, [], ℕ};
ghost use Rattle.std.specs.Io.KnownBytes.{Consumes};
ghost use Rattle.link_io.specs.Events as law;
ghost use Rattle.link_io.specs.Seen.{event_seen};
ghost use Rattle.link_decoders.specs.Decoding.{AreAllOfFrames, AreAllOfPackets, FramesOfLink, MadeOfFrames, MadeOfPackets};
ghost use Rattle.link_decoders.specs.Decoding.{PacketsOfLink};
ghost use Rattle.gate_workers.specs.ReadersWork.{HasReadAll, ReadsLink};

use crate::clock::Clock;
use crate::ending::ends_link;
use crate::skips::Skips;
use gate_events::{ClientNumber, Event, PortNumber};
use link_decoders::Decoder;
use link_io::{ClientReader, Gate, LinkFault, PortReader, Progress, Reader};
use std::alloc::Global;
use std::io::Read;
use std::sync::Wait;

/// Reads a link of this client until it is over: puts the event that it is up, the events of its stream, and the event
/// that it is gone. It steps the core after each, and pauses if an event was given back or memory ran out.
///
/// `Ok` at the end of the stream. `ReadFailed` if a read failed, `Malformed` if too long a frame is announced: the
/// events before it are put. `StepLimit` at step number `steps`, 1 or more, and where the gate gives an event back and
/// then gives the link up (`Gate::gives_up`): that event and what was read behind it aren't put.
pub fn client_reader<R: Wait, S: Read, G: Gate, C: Clock>(
    rt: &R,
    alloc: Global,
    client: ClientNumber,
    link: u64,
    steps: u64,
    stream: &mut S,
    gate: &mut G,
    clock: &mut C,
) -> Result<(), LinkFault>
    requires from_one { 1 ≤ steps }
    ensures reads { ReadsLink MadeOfFrames AreAllOfFrames
        (λ (f : FramesOfLink). (f.client ≡ client) × (f.link ≡ link))
        (law.ClientUp client link) (law.ClientGone client link) result
        (G.was_put gate.old) (G.was_put gate.new) (C.reported clock.old) (C.reported clock.new)
        (S.remaining stream.old) (S.remaining stream.new) }
    ensures none_taken { G.was_taken gate.new ≡ G.was_taken gate.old }
{
    let at = clock.now_ms();
    put(rt, alloc, Event::ClientUp { client, link, at }, gate, clock);
    let mut reader = ClientReader::new(alloc, client, link, steps);
    let end = read_all(rt, alloc, &mut reader, stream, gate, clock);
    let at = clock.now_ms();
    put(
        rt,
        alloc,
        Event::ClientGone { client, link, at },
        gate,
        clock,
    );
    end
}

/// Reads a link of this port until it is over, as `client_reader` does. `Malformed` comes at an empty packet.
pub fn port_reader<R: Wait, S: Read, G: Gate, C: Clock>(
    rt: &R,
    alloc: Global,
    port: PortNumber,
    link: u64,
    steps: u64,
    stream: &mut S,
    gate: &mut G,
    clock: &mut C,
) -> Result<(), LinkFault>
    requires from_one { 1 ≤ steps }
    ensures reads { ReadsLink MadeOfPackets AreAllOfPackets
        (λ (p : PacketsOfLink). (p.port ≡ port) × (p.link ≡ link))
        (law.PortUp port link) (law.PortGone port link) result
        (G.was_put gate.old) (G.was_put gate.new) (C.reported clock.old) (C.reported clock.new)
        (S.remaining stream.old) (S.remaining stream.new) }
    ensures none_taken { G.was_taken gate.new ≡ G.was_taken gate.old }
{
    let at = clock.now_ms();
    put(rt, alloc, Event::PortUp { port, link, at }, gate, clock);
    let mut reader = PortReader::new(alloc, port, link, steps);
    let end = read_all(rt, alloc, &mut reader, stream, gate, clock);
    let at = clock.now_ms();
    put(rt, alloc, Event::PortGone { port, link, at }, gate, clock);
    end
}

/// Steps a reader until its link is over. Before a step it waits until there is something to read: a read into no place
/// does so where the stream can. Then the moment of what is read is no earlier than its coming.
fn read_all<R: Wait, D: Decoder, S: Read, G: Gate, C: Clock>(
    rt: &R,
    alloc: Global,
    reader: &mut Reader<D>,
    stream: &mut S,
    gate: &mut G,
    clock: &mut C,
) -> Result<(), LinkFault>
    requires goes_on { reader.old.limit.over ≡ None }
    ensures reads { HasReadAll D.made D.are_all (λ d. D.source d ≡ D.source reader.old.decoder) result reader.old
        (G.was_put gate.old) (G.was_put gate.new) (C.reported clock.old) (C.reported clock.new)
        (S.remaining stream.old) (S.remaining stream.new) }
    ensures none_taken { G.was_taken gate.new ≡ G.was_taken gate.old }
{
    let mut skips = Skips::new();
    await_bytes(stream);
    for _ in rt.forever() {
        let at = clock.now_ms();
        let done = reader.step(alloc, stream, gate, at);
        let _ = gate.turn(rt, alloc);
        skips.tell_growth(gate, reader.skipped());
        match done {
            Ok(progress) => match progress {
                Progress::Read(_) => await_bytes(stream),
                Progress::Ended => {
                    skips.tell_all(gate, reader.skipped());
                    return Ok(());
                }
                Progress::Held => {
                    if gate.gives_up() {
                        return Err(LinkFault::StepLimit);
                    }
                    clock.pause();
                }
            },
            Err(fault) => {
                if ends_link(fault) {
                    return Err(fault);
                }
                clock.pause();
            }
        }
    }
    unreachable!()
}

/// Waits until there is something to read: what is read then has a moment that isn't before it came. A failure is met
/// again by the read.
fn await_bytes<S: Read>(stream: &mut S)
    ensures same { Consumes (S.remaining stream.old) (S.remaining stream.new) [] }
{
    let _ = stream.read(&mut []);
}

/// Puts an event as soon as there is room for it.
fn put<R: Wait, G: Gate, C: Clock>(rt: &R, alloc: Global, event: Event, gate: &mut G, clock: &mut C)
    ensures put { G.was_put gate.new ≡ G.was_put gate.old ++ event_seen event ∷ [] }
    ensures silent { C.reported clock.new ≡ C.reported clock.old }
    ensures none_taken { G.was_taken gate.new ≡ G.was_taken gate.old }
{
    let mut waiting = event;
    for _ in rt.forever() {
        let done = gate.put(waiting);
        let _ = gate.turn(rt, alloc);
        match done {
            Ok(()) => return,
            Err(back) => waiting = back,
        }
        clock.pause();
    }
    unreachable!()
}
