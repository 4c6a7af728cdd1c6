//! A port's session, called once more with what a history brought it.

ghost use Rattle.std.specs.Prelude.{◌≡◌, ◌<◌, ◌≤◌, ◌+◌, ◌++◌, ◌^◌, IfOk, Some, None, is_some, option_to_list};
ghost use Rattle.std.specs.Prelude.{if◌then◌else◌};
ghost use Rattle.gate_core.specs.soup_session.Table.{LoginTerms};
ghost use Rattle.gate_core.specs.soup_session.Calls.{next_of};
ghost use Rattle.gate_core.specs.gate_settings.Kept.{CanLogIn};
ghost use Rattle.gate_events.specs.Seen.{batch_seen, event_seen};
ghost use Rattle.gate_audit.specs.Again as read;
ghost use Rattle.gate_audit.specs.Again.{Again};
ghost use Rattle.gate_audit.specs.Called.{IsAgain};

use crate::growing::push_slowly;
use gate_core::{Batch, Event, PortFault, PortNumber, PortSession, PortSettings};
use gate_events::closes_link;
use ouch_codec::{Outbound, decode};
use soup_packets::{Packet, Payload};
use std::alloc::{AllocError, Global};

/// A port's session over its links so far, and what it delivered.
#[derive(Drop)]
pub struct PortAgain {
    /// Its current link.
    pub link: Option<u64>,
    pub session: PortSession,
    /// The messages that it delivered and that were no fault, the oldest first.
    pub handled: Vec<Outbound>,
}

impl PortAgain {
    /// A port that no link came on yet.
    pub fn new(alloc: Global, settings: &PortSettings) -> PortAgain
        requires { CanLogIn settings.now }
        ensures again { IsAgain settings.now read.called_at_first result }
        ensures next { next_of result.session.port ≡ 1 }
    {
        PortAgain {
            link: None,
            session: PortSession::new(&settings.user, &settings.password),
            handled: Vec::new(alloc),
        }
    }

    /// One event more, with the batch that it gave, for the port of this number.
    pub fn step(
        &mut self,
        alloc: Global,
        port: PortNumber,
        event: &Event,
        batch: &Batch,
    ) -> Result<(), AllocError>
        requires room { next_of self.old.session.port < 2 ^ 60 }
        ensures again { IfOk result (λ u. (terms : LoginTerms) (r : Again) → IsAgain terms r self.old
            → IsAgain terms (read.unless_lost port (batch_seen batch.now)
            (read.called_by_event terms port (event_seen event.now) (batch_seen batch.now) r)) self.new) }
        ensures next { next_of self.new.session.port ≤ next_of self.old.session.port + 1 }
    {
        self.hear(alloc, port, event, batch)?;
        self.lose(port, batch);
        Ok(())
    }

    /// What the event itself brings.
    fn hear(
        &mut self,
        alloc: Global,
        port: PortNumber,
        event: &Event,
        batch: &Batch,
    ) -> Result<(), AllocError>
        requires room { next_of self.old.session.port < 2 ^ 60 }
        ensures again { IfOk result (λ u. (terms : LoginTerms) (r : Again) → IsAgain terms r self.old
            → IsAgain terms (read.called_by_event terms port (event_seen event.now)
            (batch_seen batch.now) r) self.new) }
        ensures next { next_of self.new.session.port ≤ next_of self.old.session.port + 1 }
    {
        match event {
            Event::PortUp {
                port: own,
                link,
                ..
            } => {
                if *own == port {
                    self.on_up(alloc, *link)?;
                }
            }
            Event::PortPacket {
                port: own,
                link,
                packet,
                ..
            } => {
                if *own == port && self.link == Some(*link) {
                    self.on_packet(packet, batch)?;
                }
            }
            Event::PortGone {
                port: own,
                link,
                ..
            } => {
                if *own == port && self.link == Some(*link) {
                    self.on_gone();
                }
            }
            Event::ClientUp { .. }
            | Event::ClientMessage { .. }
            | Event::ClientGone { .. }
            | Event::ClientTick { .. }
            | Event::PortTick { .. } => {}
        }
        Ok(())
    }

    /// A link comes; beside a current one it is nothing.
    fn on_up(&mut self, alloc: Global, link: u64) -> Result<(), AllocError>
        ensures again { IfOk result (λ u. (terms : LoginTerms) (r : Again) → IsAgain terms r self.old
            → IsAgain terms (read.called_up link r.link r) self.new) }
        ensures next { next_of self.new.session.port ≡ next_of self.old.session.port }
    {
        if self.link.is_none() {
            self.session.on_up(alloc, 0)?;
            self.link = Some(link);
        }
        Ok(())
    }

    /// The current link is gone.
    fn on_gone(&mut self)
        ensures again { (terms : LoginTerms) (r : Again) → IsAgain terms r self.old
            → IsAgain terms (read.called_gone r) self.new }
        ensures next { next_of self.new.session.port ≡ next_of self.old.session.port }
    {
        self.session.on_gone();
        self.link = None;
    }

    /// A packet on the current link.
    fn on_packet(&mut self, packet: &Packet, batch: &Batch) -> Result<(), AllocError>
        requires room { next_of self.old.session.port < 2 ^ 60 }
        ensures again { IfOk result (λ u. (terms : LoginTerms) (r : Again) → IsAgain terms r self.old
            → IsAgain terms (read.called_packet terms packet.now (batch_seen batch.now) r) self.new) }
        ensures next { next_of self.new.session.port ≤ next_of self.old.session.port + 1 }
    {
        let turn = self.session.on_packet(packet, 0);
        let message = message_of(turn.is_delivered, &packet.payload, batch.fault);
        push_message(&mut self.handled, message)
    }

    /// A link that the batch closes is gone.
    fn lose(&mut self, port: PortNumber, batch: &Batch)
        ensures again { (terms : LoginTerms) (r : Again) → IsAgain terms r self.old
            → IsAgain terms (read.unless_lost port (batch_seen batch.now) r) self.new }
        ensures next { next_of self.new.session.port ≡ next_of self.old.session.port }
    {
        if batch.names_port(port) && closes_link(self.link, &batch.port_out) {
            self.on_gone();
        }
    }
}

/// Adds a message, where there is one. One growth at most, by little.
fn push_message(handled: &mut Vec<Outbound>, message: Option<Outbound>) -> Result<(), AllocError>
    ensures { IfOk result (λ u. handled.new.items ≡ handled.old.items ++ option_to_list message) }
{
    if let Some(message) = message {
        push_slowly(handled, message)?;
    }
    Ok(())
}

/// What a payload is decoded as, where it was delivered, is a message and was no fault.
fn message_of(is_delivered: bool, payload: &Payload, fault: Option<PortFault>) -> Option<Outbound>
    ensures { result ≡ read.message_of (if is_delivered then Some payload.now else None) fault }
{
    if !is_delivered {
        return None;
    }
    match decode(payload.as_slice()) {
        Ok(message) => { if fault.is_none() { Some(message) } else { None } }
        Err(_) => None,
    }
}
