//! The ends of a desk, as lines that threads serve.

ghost use Rattle.std.specs.Prelude.{◌≡◌, All, Some, true};
ghost use Rattle.gateway_run.specs.Own.{source_of_peer};

use crate::context::Context;
use crate::lines::{RunLine, line_of, link_log_of};
use crate::run_gate::RunGate;
use desk_gates::{InletGate, OutletWriter};
use desk_rings::{DeskName, Inlet};
use gate_events::{Recipient, Source};
use link_io::{Gate, Prompt};
use std::alloc::{AllocError, Global};
use std::sync::Wait;
use std::sync::atomic::AtomicU8;
use std::time::Clock;

/// Where the links of a gateway come from: an opener for each client and for each port, in the order of the settings.
/// One that is missing serves no link; those beyond the last client or port are let go.
#[derive(Drop)]
pub struct RunPlan<A, C> {
    pub clients: Vec<A>,
    pub ports: Vec<C>,
    pub rules: LinkRules,
}

/// What is done with links beside serving them.
#[derive(Clone, Copy, Debug)]
pub struct LinkRules {
    /// Whether standard error has how many bytes of a client's link were part of no frame, and each Reject,
    /// ResendRequest and Logout that a client is sent.
    pub logs_frames: bool,
    /// Whether a port that is faulted, or whose session the market has ended, isn't connected again, and one whose
    /// login was rejected only after a pause.
    pub leaves_alone: bool,
}

/// The lines of a desk's clients and of its ports, in this order. Its type keeps that each puts the events of its own
/// client or port, and takes what that is told.
#[derive(Drop)]
pub(crate) struct Ends<'p, 'a, W: Prompt + Drop, G: Gate + Drop, O, K: DeskName, R> {
    rules: LinkRules,
    pub(crate) lines: Vec<RunLine<'p, 'a, W, G, O, K, R>>,
    ghost puts_own: { All (λ l. l.reader.gate.gate.inlet.source ≡ source_of_peer l.peer) lines.items },
    ghost takes_own: { All (λ l. G.output_for l.writer.shared_writer.now.first.value ≡ Some l.peer) lines.items },
}

impl<'p, 'a, W: Prompt + Drop, G: Gate + Drop, O: Drop, K: DeskName, R: Wait + Clock + Eprint> Ends<
    'p,
    'a,
    W,
    G,
    O,
    K,
    R,
> {
    /// No line yet.
    fn new(alloc: Global, rules: LinkRules) -> Ends<'p, 'a, W, G, O, K, R> {
        Ends {
            rules,
            lines: Vec::new(alloc),
        }
    }

    /// Adds the line of a client or port over its inlet and outlet. One over another's would not be added.
    fn add(
        &mut self,
        context: &Context<'a, K, R>,
        peer: Recipient,
        opener: O,
        inlet: Inlet<K>,
        outlet_writers: &'p [OutletWriter<W, G>],
        outlet_writer: &'p OutletWriter<W, G>,
    ) -> Result<(), AllocError> {
        if is_of(&inlet, source_of(&peer)) && is_to(outlet_writer, &peer) {
            let at = inlet.position();
            let link_log = link_log_of(context.rt, self.rules.logs_frames, &peer);
            let own = InletGate::new(context.shared, outlet_writers, inlet);
            let gate = RunGate::new(context, own, link_log, letter_of(context, &peer));
            let line = line_of(context, peer, opener, gate, at, outlet_writer);
            return self.keep(line);
        }
        Ok(())
    }

    /// Adds a line that is over its own ends.
    fn keep(&mut self, line: RunLine<'p, 'a, W, G, O, K, R>) -> Result<(), AllocError>
        requires puts_own { line.reader.gate.gate.inlet.source ≡ source_of_peer line.peer }
        requires takes_own { G.output_for line.writer.shared_writer.now.first.value ≡ Some line.peer }
    {
        self.lines.push(line)?;
        Ok(())
    }
}

/// Where the letter of a login that a port's market rejects is kept; of a client nowhere.
fn letter_of<'a, K: DeskName, R>(
    context: &Context<'a, K, R>,
    peer: &Recipient,
) -> Option<&'a AtomicU8> {
    match peer {
        Recipient::Client(_) => None,
        Recipient::Port(port) => context.states.letter_of(port.number()),
    }
}

/// Whom a client's or port's events come from.
fn source_of(peer: &Recipient) -> Source
    ensures { result ≡ source_of_peer peer.now }
{
    match peer {
        Recipient::Client(client) => Source::Client(*client),
        Recipient::Port(port) => Source::Port(*port),
    }
}

/// Whether an inlet's events are of this source.
fn is_of<K: DeskName>(inlet: &Inlet<K>, source: Source) -> bool
    ensures { result ≡ true → inlet.now.source ≡ source }
{
    inlet.source() == source
}

/// Whether an outlet's writer writes what this one is told.
fn is_to<W: Prompt + Drop, G: Gate + Drop>(
    outlet_writer: &OutletWriter<W, G>,
    recipient: &Recipient,
) -> bool
    ensures { result ≡ true → outlet_writer.now.to ≡ Some recipient.now }
{
    outlet_writer.recipient() == Some(*recipient)
}

/// Lines over the inlets and the outlets' writers of a desk: each inlet of a client or port with the writer at its
/// position.
pub(crate) fn ends_of<'p, 'a, W: Prompt + Drop, G: Gate + Drop, O: Drop, K, R>(
    context: &Context<'a, K, R>,
    inlets: Vec<Inlet<K>>,
    outlet_writers: &'p [OutletWriter<W, G>],
    clients: Vec<O>,
    ports: Vec<O>,
    rules: LinkRules,
) -> Result<Ends<'p, 'a, W, G, O, K, R>, AllocError>
where
    K: DeskName,
    R: Wait + Clock + Eprint,
{
    let mut accepting = clients.into_iter();
    let mut connecting = ports.into_iter();
    let mut ends = Ends::new(context.alloc, rules);
    for (inlet, outlet_writer) in inlets.into_iter().zip(outlet_writers) {
        match inlet.source() {
            Source::Client(client) => {
                if let Some(opener) = accepting.next() {
                    let peer = Recipient::Client(client);
                    ends.add(context, peer, opener, inlet, outlet_writers, outlet_writer)?;
                }
            }
            Source::Port(port) => {
                if let Some(opener) = connecting.next() {
                    let peer = Recipient::Port(port);
                    ends.add(context, peer, opener, inlet, outlet_writers, outlet_writer)?;
                }
            }
            Source::Clock => {}
        }
    }
    Ok(ends)
}
