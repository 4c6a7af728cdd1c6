//! All ports' links and sessions, and the calls on the one at an index.

ghost use Rattle.std.specs.Prelude.{◌≡◌, ◌<◌, ◌+◌, ◌^◌, ℕ, Some, None, IfOk, OnErr, length, map};
ghost use Rattle.gate_law.specs.order_law.ouch_codec.Inbound.{inbound_bytes};
ghost use Rattle.gate_law.specs.soup_session.Table.{OnUp, OnPacket, OnGone, OnTick, Send, Fail};
ghost use Rattle.gate_sessions.specs.Lines.{PortsCalled, PortsUncalled, PortAnswers, PortsLinked, PortsStayLinked};
ghost use Rattle.gate_sessions.specs.Lines.{PortsStaySettled, PortsStayWithin, NextWithin, IsUpAt, port_now};
ghost use Rattle.gate_sessions.specs.Lines.{port_settled};

use crate::port_line::PortLine;
use ouch_codec::Inbound;
use soup_packets::{Packet, Payload};
use soup_session::{PortFault, PortTurn};
use std::alloc::{AllocError, Global};

/// The link and session of each port, by its index: number i + 1 stands at index i.
#[derive(Drop)]
pub struct Ports {
    pub lines: Vec<PortLine>,
}

impl Ports {
    /// A link becomes current.
    pub fn up(
        &mut self,
        alloc: Global,
        place: usize,
        link: u64,
        at: u64,
    ) -> Result<PortTurn, AllocError>
        requires place { place < length self.old.lines.items }
        ensures leave { IfOk result (λ t. PortsCalled place (OnUp at) self.old self.new) }
        ensures answers { IfOk result (λ t. PortAnswers place (OnUp at) self.old t) }
        ensures links { IfOk result (λ t. PortsLinked place (Some link) self.old self.new) }
        ensures next { PortsStayWithin self.old self.new }
        ensures settled { PortsStaySettled self.old self.new }
        ensures length { length self.new.lines.items ≡ length self.old.lines.items }
        ensures err { OnErr result (map port_now self.new.lines.items ≡ map port_now self.old.lines.items) }
    {
        let line = &mut self.lines[place];
        let turn = line.session.on_up(alloc, at)?;
        line.link = Some(link);
        Ok(turn)
    }

    /// The current link is gone.
    pub fn gone(&mut self, place: usize)
        requires place { place < length self.old.lines.items }
        ensures leave { PortsCalled place OnGone self.old self.new }
        ensures links { PortsLinked place None self.old self.new }
        ensures next { PortsStayWithin self.old self.new }
        ensures settled { PortsStaySettled self.old self.new }
        ensures length { length self.new.lines.items ≡ length self.old.lines.items }
    {
        let line = &mut self.lines[place];
        line.link = None;
        line.session.on_gone();
    }

    /// The core closed the current link.
    pub fn close(&mut self, place: usize)
        requires place { place < length self.old.lines.items }
        ensures leave { PortsUncalled self.old self.new }
        ensures links { PortsLinked place None self.old self.new }
        ensures next { PortsStayWithin self.old self.new }
        ensures settled { PortsStaySettled self.old self.new }
        ensures length { length self.new.lines.items ≡ length self.old.lines.items }
    {
        self.lines[place].link = None;
    }

    /// A packet on the current link.
    pub fn packet(&mut self, place: usize, packet: &Packet, at: u64) -> PortTurn
        requires place { place < length self.old.lines.items }
        requires room { NextWithin (2 ^ 59) self.old.lines.items }
        ensures leave { PortsCalled place (OnPacket packet.now at) self.old self.new }
        ensures answers { PortAnswers place (OnPacket packet.now at) self.old result }
        ensures links { PortsStayLinked self.old self.new }
        ensures next { (n : ℕ) → NextWithin n self.old.lines.items → NextWithin (n + 1) self.new.lines.items }
        ensures settled { PortsStaySettled self.old self.new }
        ensures length { length self.new.lines.items ≡ length self.old.lines.items }
    {
        self.lines[place].session.on_packet(packet, at)
    }

    /// Time passes.
    pub fn tick(&mut self, alloc: Global, place: usize, at: u64) -> PortTurn
        requires place { place < length self.old.lines.items }
        ensures leave { PortsCalled place (OnTick at) self.old self.new }
        ensures answers { PortAnswers place (OnTick at) self.old result }
        ensures links { PortsStayLinked self.old self.new }
        ensures next { PortsStayWithin self.old self.new }
        ensures settled { PortsStaySettled self.old self.new }
        ensures length { length self.new.lines.items ≡ length self.old.lines.items }
    {
        self.lines[place].session.on_tick(alloc, at)
    }

    /// Sends a message while the port is up. One growth.
    pub fn send(
        &mut self,
        alloc: Global,
        place: usize,
        message: &Inbound,
        at: u64,
    ) -> Result<PortTurn, AllocError>
        requires place { place < length self.old.lines.items }
        requires up { IsUpAt place self.old.lines.items }
        ensures leave { IfOk result (λ t. PortsCalled place (Send (inbound_bytes message.now) at) self.old self.new) }
        ensures answers { IfOk result (λ t. PortAnswers place (Send (inbound_bytes message.now) at) self.old t) }
        ensures links { PortsStayLinked self.old self.new }
        ensures next { PortsStayWithin self.old self.new }
        ensures up { IfOk result (λ t. IsUpAt place self.new.lines.items) }
        ensures settled { PortsStaySettled self.old self.new }
        ensures length { length self.new.lines.items ≡ length self.old.lines.items }
        ensures err { OnErr result (map port_now self.new.lines.items ≡ map port_now self.old.lines.items) }
    {
        let payload = payload_of(alloc, message)?;
        Ok(self.lines[place].session.send(payload, at))
    }

    /// The payload that was delivered last is at fault at the order level.
    pub fn fail(&mut self, place: usize, fault: PortFault) -> PortTurn
        requires place { place < length self.old.lines.items }
        requires up { IsUpAt place self.old.lines.items }
        ensures leave { PortsCalled place (Fail fault) self.old self.new }
        ensures answers { PortAnswers place (Fail fault) self.old result }
        ensures links { PortsStayLinked self.old self.new }
        ensures next { PortsStayWithin self.old self.new }
        ensures settled { PortsStaySettled self.old self.new }
        ensures length { length self.new.lines.items ≡ length self.old.lines.items }
    {
        self.lines[place].session.fail(fault)
    }

    /// From now on each line can be put back to how it is now.
    pub fn settle(&mut self)
        ensures now { map port_now self.new.lines.items ≡ map port_now self.old.lines.items }
        ensures settled { map port_settled self.new.lines.items ≡ map port_now self.old.lines.items }
    {
        for line in self.lines.iter_mut() {
            line.settled_link = line.link;
            line.session.settle();
        }
    }

    /// Puts each line back to how it was when it was settled last.
    pub fn undo(&mut self)
        ensures now { map port_now self.new.lines.items ≡ map port_settled self.old.lines.items }
        ensures settled { map port_settled self.new.lines.items ≡ map port_settled self.old.lines.items }
    {
        for line in self.lines.iter_mut() {
            line.link = line.settled_link;
            line.session.undo();
        }
    }
}

/// The payload of a message's packet, with room in it for the packet's front. One growth.
fn payload_of(alloc: Global, message: &Inbound) -> Result<Payload, AllocError>
    ensures { IfOk result (λ payload. payload ≡ inbound_bytes message.now) }
{
    let size = message.len();
    let mut bytes = Vec::with_capacity(alloc, size + Packet::HEAD)?;
    bytes.resize(size, 0)?;
    message.put(bytes.as_mut_slice());
    Ok(Payload::from_vec(bytes))
}
