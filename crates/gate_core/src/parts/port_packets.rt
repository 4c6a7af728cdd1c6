//! Packets of ports.

ghost use Rattle.std.specs.Prelude.{◌≡◌, ◌<◌, ◌+◌, ◌^◌, ℕ, length, map, None, option_to_list, IfOk};
ghost use Rattle.gate_law.specs.soup_packets.declared.packet.Packet as packet;
ghost use Rattle.gate_law.specs.Settings.{Settings};
ghost use Rattle.gate_law.specs.Events.{PortPacket};
ghost use Rattle.gate_law.specs.Lists.{Lists};
ghost use Rattle.gate_law.specs.Sessions.{fault_in, port_state};
ghost use Rattle.gate_events.specs.Seen.{batch_seen, link_out_seen};
ghost use Rattle.order_core.specs.State.{CoreHasRoom};
ghost use Rattle.order_core.specs.order_machine.Runs.{NumbersLeft};
ghost use Rattle.gate_sessions.specs.Lines.{NextWithin};
ghost use Rattle.gate_core.specs.State.{IsShaped, ArePartsOf};
ghost use Rattle.gate_core.specs.Steps.{Grows, AfterPacket, Ready, Stepped};
ghost use Rattle.gate_core.specs.Hearing.{IsSentAgain};

use super::Parts;
use gate_events::{Batch, LinkOut, PortNumber, ShortList};
use gate_sessions::told_port;
use soup_packets::Packet;
use soup_session::{PortFault, PortOut, PortState, PortTurn};
use std::alloc::{AllocError, Global};
use std::hash::BuildHasher;

impl<S: BuildHasher + Drop> Parts<S> {
    /// A packet on a port's current link: a payload that its session delivers is a turn of the order level; if the port
    /// comes up, all that is outstanding on it is sent.
    pub(crate) fn port_packet(
        &mut self,
        alloc: Global,
        port: PortNumber,
        link: u64,
        at: u64,
        packet: &Packet,
    ) -> Result<Batch, AllocError>
        requires shaped { IsShaped self.old }
        requires room { CoreHasRoom self.old.orders }
        requires next { NextWithin (2 ^ 59) self.old.ports.lines.items }
        ensures step { IfOk result (λ b. (s : Settings) (v : Lists) → Ready s v self.old
            → Stepped s (PortPacket port link at packet.now) (batch_seen b) v self.new) }
        ensures grows { Grows 3 1 self.old self.new }
    {
        let Some(place) = self.port_on(port, link) else {
            return Ok(Batch::empty(alloc));
        };
        let stood = self.port_state(place);
        let PortTurn { out, is_delivered } = self.ports.packet(place, packet, at);
        if is_delivered {
            self.payload_delivered(alloc, place, packet.payload.as_slice(), at, out)
        } else {
            self.no_payload_delivered(alloc, place, stood, out, at)
        }
    }

    /// What follows a packet of which the port's session, which stood as given, gave this for the link and no payload
    /// up: where the port came up by it, all that is outstanding on it is sent behind. A fault is that of its state.
    ///
    /// Source: SoupBinTCP 3.00, "Login Accepted Packet".
    pub(crate) fn no_payload_delivered(
        &mut self,
        alloc: Global,
        place: usize,
        stood: PortState,
        said: Option<PortOut>,
        at: u64,
    ) -> Result<Batch, AllocError>
        requires place { place < length self.old.ports.lines.items }
        requires few { place < 16 }
        ensures step { IfOk result (λ b. (s : Settings) (v : Lists) (link : ℕ) (packet : packet.Packet)
            → AfterPacket s (place + 1) link at packet None (option_to_list said) v self.old
            → stood ≡ port_state s (place + 1) (v.port_calls (place + 1))
            → Stepped s (PortPacket (place + 1) link at packet) (batch_seen b) v self.new) }
        ensures grows { Grows 0 0 self.old self.new }
    {
        let fault = fault_of(self.port_state(place));
        let sent = self.send_again(alloc, place, stood, at)?;
        let outs = told_port(&mut self.ports, alloc, place, said, sent)?;
        Ok(Batch::for_port(alloc, PortNumber::at_place(place), outs, fault))
    }

    /// If the port came up, sends all that is outstanding on it: once more if it was sent before.
    fn send_again(
        &mut self,
        alloc: Global,
        place: usize,
        stood: PortState,
        at: u64,
    ) -> Result<ShortList<LinkOut>, AllocError>
        requires place { place < length self.old.ports.lines.items }
        requires few { place < 16 }
        ensures sent { IfOk result (λ outs. (s : Settings) (v : Lists) → ArePartsOf s v self.old
            → NumbersLeft v.turns → IsSentAgain s (place + 1) at stood (map link_out_seen outs.items) v self.new) }
        ensures grows { Grows 0 0 self.old self.new }
    {
        if stood.is_up() || !self.port_state(place).is_up() {
            return Ok(ShortList::new());
        }
        let messages = self.orders.outstanding(alloc, (place + 1) as u16)?;
        self.send(alloc, place, &messages, at)
    }
}

/// The fault of a port that is faulted.
pub(super) fn fault_of(state: PortState) -> Option<PortFault>
    ensures { result ≡ fault_in state }
{
    match state {
        PortState::Faulted(fault) => Some(fault),
        PortState::Down | PortState::LoggingIn | PortState::Up | PortState::Ended => None,
    }
}
