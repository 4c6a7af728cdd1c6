//! The world as a value, and its steps.

use crate::events::{is_from_without, later, moment_of};
use crate::places::{opening_lines, place_of};
use crate::port_line::PortLine;
use crate::step::WorldStep;
use gate_core::{Core, Settings};
use gate_events::{Batch, Event, LinkOut, PortNumber};
use gate_journal::History;
use market_law::{BookRow, Choice};
use std::alloc::{AllocError, Global};

/// A core, a market for each port with its connection, and all events of the core with their batches.
#[derive(Drop)]
pub struct ClosedWorld {
    core: Core,
    history: History,
    /// By the ports' numbers.
    ports: Vec<PortLine>,
    /// The greatest moment of an event from without so far.
    moment: u64,
}

impl ClosedWorld {
    ghost use Rattle.std.specs.Prelude.{◌≡◌, ◌∷◌, [], List, IfOk, None, false, map, true};
    ghost use Rattle.gate_law.specs.Settings as law;
    ghost use Rattle.gate_law.specs.Events as told;
    ghost use Rattle.gate_law.specs.order_law.History.{Asked};
    ghost use Rattle.gate_events.specs.Seen.{batch_seen, event_seen, link_out_seen};
    ghost use Rattle.gate_journal.specs.Kept.{turns};
    ghost use Rattle.market_law.specs.Rows.{row, row_of_order};
    ghost use Rattle.world_law.specs.World as world;
    ghost use Rattle.world_law.specs.World.{World};
    ghost use Rattle.closed_world.specs.Steps.{step_seen};
    ghost use Rattle.closed_world.specs.Lines.{ArePackets};
    ghost use Rattle.closed_world.specs.Worlds.{Gets, Goes, IsAsWorld, IsStepped, IsWorld, after_turn};

    /// The world of these settings, in which nothing has come yet: no orders, no connections, moment 0.
    pub fn new(alloc: Global, settings: &Settings) -> Result<ClosedWorld, AllocError>
        ensures { IfOk result (λ w. IsWorld settings.now [] w) }
    {
        let core = Core::new(alloc, settings)?;
        let ports = opening_lines(alloc, settings.ports().len())?;
        Ok(ClosedWorld {
            core,
            history: History::new(alloc),
            ports,
            moment: 0,
        })
    }

    /// Takes a step; one that can't be taken changes nothing. After an `AllocError` the world is not to be used any
    /// more: a part of the step may have been taken.
    ///
    /// An event that the step makes for the core, of a port's link that comes or goes and of its packets, has the
    /// greatest moment of the events from without so far. Links of a port count from 1. A batch that closes a port's
    /// link ends its connection, and what is on its way on it is lost.
    ///
    /// Source: SoupBinTCP 3.00, "Packets Sent by the Client", "Packets Sent by the Server"; the steps are our own.
    pub fn step(&mut self, alloc: Global, step: &WorldStep) -> Result<(), AllocError>
        ensures { IfOk result (λ u. (s : law.Settings) (steps : List world.WorldStep)
            → IsWorld s steps self.old → IsWorld s (step_seen step.now ∷ steps) self.new) }
    {
        self.take(alloc, step)
    }

    /// From whichever world, the step goes to the next one.
    fn take(&mut self, alloc: Global, step: &WorldStep) -> Result<(), AllocError>
        ensures { IfOk result (λ u. (s : law.Settings) (x : World) → IsAsWorld s x self.old
            → Goes s (step_seen step.now) x self.new) }
    {
        match step {
            WorldStep::Client(event) => self.client(alloc, event),
            WorldStep::Connect(port) => self.connect(alloc, *port),
            WorldStep::ToMarket(port, choice) => self.to_market(alloc, *port, *choice),
            WorldStep::ToCore(port) => self.to_core(alloc, *port),
            WorldStep::Act(port, choice) => self.act(alloc, *port, *choice),
            WorldStep::Lose(port) => self.lose(alloc, *port),
        }
    }

    /// What the market of this port has of the order that goes by this token, or went by it before a replace: zeros and
    /// no side where there is none, and of a port that the settings don't have. Takes no memory.
    pub fn row(&self, port: u16, token: &[u8; 14]) -> BookRow
        ensures row { (s : law.Settings) (x : World) → IsAsWorld s x self.now → law.has_port s port ≡ true
            → result ≡ row (x.markets port).book.book token.now }
        ensures none { (s : law.Settings) (x : World) → IsAsWorld s x self.now → law.has_port s port ≡ false
            → result ≡ row_of_order None }
    {
        match place_of(port, self.ports.len()) {
            Some(place) => self.ports[place].market.row(token),
            None => BookRow {
                side: None,
                executed: 0,
                unfilled: 0,
                cancelled: 0,
                value: 0,
            },
        }
    }

    /// All events of the core so far with their batches. Takes no memory.
    pub fn history(&self) -> &History
        ensures { (s : law.Settings) (x : World) → IsAsWorld s x self.now → turns result.now ≡ x.history }
    {
        &self.history
    }

    /// The same, moved out. Takes no memory.
    pub fn into_history(self) -> History
        ensures { (s : law.Settings) (x : World) → IsAsWorld s x self → turns result ≡ x.history }
    {
        let ClosedWorld {
            core: _,
            history,
            ports: _,
            moment: _,
        } = self;
        history
    }

    /// An event from without.
    fn client(&mut self, alloc: Global, event: &Event) -> Result<(), AllocError>
        ensures { IfOk result (λ u. (s : law.Settings) (x : World) → IsAsWorld s x self.old
            → Goes s (world.Client (event_seen event.now)) x self.new) }
    {
        if !is_from_without(event) {
            return Ok(());
        }
        self.moment = later(self.moment, moment_of(event));
        self.core_gets(alloc, event)
    }

    /// A connection opens.
    fn connect(&mut self, alloc: Global, port: u16) -> Result<(), AllocError>
        ensures { IfOk result (λ u. (s : law.Settings) (x : World) → IsAsWorld s x self.old
            → Goes s (world.Connect port) x self.new) }
    {
        let Some(place) = place_of(port, self.ports.len()) else {
            return Ok(());
        };
        let opened = self.ports[place].open(alloc)?;
        let Some(link) = opened else {
            return Ok(());
        };
        let event = Event::PortUp {
            port: PortNumber::at_place(place),
            link,
            at: self.moment,
        };
        self.core_gets(alloc, &event)
    }

    /// The oldest packet is delivered to a market.
    fn to_market(&mut self, alloc: Global, port: u16, choice: Choice) -> Result<(), AllocError>
        ensures { IfOk result (λ u. (s : law.Settings) (x : World) → IsAsWorld s x self.old
            → Goes s (world.ToMarket port choice) x self.new) }
    {
        match place_of(port, self.ports.len()) {
            Some(place) => self.ports[place].deliver(alloc, choice),
            None => Ok(()),
        }
    }

    /// The oldest packet is delivered to the core.
    fn to_core(&mut self, alloc: Global, port: u16) -> Result<(), AllocError>
        ensures { IfOk result (λ u. (s : law.Settings) (x : World) → IsAsWorld s x self.old
            → Goes s (world.ToCore port) x self.new) }
    {
        let Some(place) = place_of(port, self.ports.len()) else {
            return Ok(());
        };
        let taken = self.ports[place].next_to_core();
        let Some(taken) = taken else {
            return Ok(());
        };
        let (link, packet) = taken;
        let event = Event::PortPacket {
            port: PortNumber::at_place(place),
            link,
            at: self.moment,
            packet,
        };
        self.core_gets(alloc, &event)
    }

    /// A market does something by itself.
    fn act(&mut self, alloc: Global, port: u16, choice: Choice) -> Result<(), AllocError>
        ensures { IfOk result (λ u. (s : law.Settings) (x : World) → IsAsWorld s x self.old
            → Goes s (world.Act port choice) x self.new) }
    {
        match place_of(port, self.ports.len()) {
            Some(place) => self.ports[place].act(alloc, choice),
            None => Ok(()),
        }
    }

    /// A connection ends.
    fn lose(&mut self, alloc: Global, port: u16) -> Result<(), AllocError>
        ensures { IfOk result (λ u. (s : law.Settings) (x : World) → IsAsWorld s x self.old
            → Goes s (world.Lose port) x self.new) }
    {
        let Some(place) = place_of(port, self.ports.len()) else {
            return Ok(());
        };
        let lost = self.ports[place].lose(alloc)?;
        let Some(link) = lost else {
            return Ok(());
        };
        let event = Event::PortGone {
            port: PortNumber::at_place(place),
            link,
            at: self.moment,
        };
        self.core_gets(alloc, &event)
    }

    /// The core steps an event, and its batch is told.
    fn core_gets(&mut self, alloc: Global, event: &Event) -> Result<(), AllocError>
        ensures { IfOk result (λ u. (s : law.Settings) (x : World) → IsAsWorld s x self.old
            → Gets s (event_seen event.now) x self.new) }
    {
        let batch = self.core_steps(alloc, event)?;
        self.tell(alloc, &batch)
    }

    /// The core steps an event, which is kept with its batch.
    fn core_steps(&mut self, alloc: Global, event: &Event) -> Result<Batch, AllocError>
        ensures { IfOk result (λ batch. IsStepped (event_seen event.now) self.old self.new (batch_seen batch)) }
    {
        let batch = self.core.step(alloc, event)?;
        self.history.push(event, &batch)?;
        Ok(batch)
    }

    /// What a batch tells the port that it names.
    fn tell(&mut self, alloc: Global, batch: &Batch) -> Result<(), AllocError>
        ensures { IfOk result (λ u. (s : law.Settings) (x : World) (e : told.Event)
            → IsAsWorld s (after_turn e (batch_seen batch.now) x) self.old
            → IsAsWorld s (world.core_steps s e (batch_seen batch.now) x) self.new) }
    {
        match batch.port {
            Some(port) => self.tell_port(alloc, port.number(), &batch.port_out),
            None => Ok(()),
        }
    }

    /// What a port's link is told.
    fn tell_port(&mut self, alloc: Global, port: u16, outs: &[LinkOut]) -> Result<(), AllocError>
        ensures { IfOk result (λ u. (s : law.Settings) (x : World) (asks : List Asked)
            → ArePackets (map link_out_seen outs.now) → IsAsWorld s x self.old
            → IsAsWorld s (world.told_connection port (map link_out_seen outs.now) asks (x.connections port) x)
            self.new) }
    {
        match place_of(port, self.ports.len()) {
            Some(place) => self.ports[place].hear(alloc, outs),
            None => Ok(()),
        }
    }
}
