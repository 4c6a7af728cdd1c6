//! A port: its market, and its connection.

ghost use Rattle.std.specs.Prelude.{◌≡◌, true};
ghost use Rattle.std.specs.List.{list_all};
ghost use Rattle.market_law.specs.order_law.ouch_codec.Values.{is_byte};

use crate::connection::Connection;
use gate_events::LinkOut;
use market_law::Choice;
use market_sim::{Sim, SimEvent};
use soup_packets::Packet;
use std::alloc::{AllocError, Global};

/// A port's market, its connection where it has one, and how many it has had.
#[derive(Drop)]
pub struct PortLine {
    pub market: Sim,
    pub connection: Option<Connection>,
    pub links: u64,
}

impl PortLine {
    ghost use Rattle.std.specs.Prelude.{◌≡◌, true, Option, Some, None, IfOk, map};
    ghost use Rattle.std.specs.List.{list_all};
    ghost use Rattle.gate_events.specs.Seen.{link_out_seen};
    ghost use Rattle.market_law.specs.order_law.ouch_codec.declared.inbound.Inbound.{Inbound};
    ghost use Rattle.market_law.specs.order_law.ouch_codec.Values.{is_byte};
    ghost use Rattle.market_sim.specs.Sim.{ReadsEvent, sim_step};
    ghost use Rattle.market_sim.specs.declared.event.SimEvent.TheVariants as sims;
    ghost use Rattle.closed_world.specs.Lines as lines;
    ghost use Rattle.closed_world.specs.Lines.{ArePackets, Delivers, LosesTo, OpensTo, TakesToCore};
    ghost use Rattle.closed_world.specs.Lines.{line_seen, way_seen};
    ghost use Rattle.closed_world.specs.Lines.{with_way};

    /// A market without orders, and no connection yet. Takes no memory.
    pub fn new(alloc: Global) -> PortLine
        ensures { line_seen result ≡ lines.opening_line }
    {
        PortLine {
            market: Sim::new(alloc),
            connection: None,
            links: 0,
        }
    }

    /// A connection opens: the number of its link, or `None` where there is one already. `AllocError` also where 64
    /// bits are used up: so many events can't be kept.
    pub fn open(&mut self, alloc: Global) -> Result<Option<u64>, AllocError>
        ensures { IfOk result (OpensTo (line_seen self.old) (line_seen self.new)) }
    {
        if self.connection.is_some() {
            return Ok(None);
        }
        let Some(link) = self.links.checked_add(1) else {
            return Err(AllocError);
        };
        let _nothing = self.market.step(alloc, SimEvent::Up)?;
        self.links = link;
        self.connection = Some(Connection::new(alloc, link));
        Ok(Some(link))
    }

    /// The connection ends with all that is on its way: the number of its link, or `None` where there is none.
    pub fn lose(&mut self, alloc: Global) -> Result<Option<u64>, AllocError>
        ensures { IfOk result (LosesTo (line_seen self.old) (line_seen self.new)) }
    {
        let Some(connection) = &self.connection else {
            return Ok(None);
        };
        let link = connection.link;
        self.leave(alloc)?;
        Ok(Some(link))
    }

    /// The oldest packet on its way to the core leaves the connection, beside its link's number.
    pub fn next_to_core(&mut self) -> Option<(u64, Packet)>
        ensures { TakesToCore (line_seen self.old) (line_seen self.new) result }
    {
        match self.connection.take() {
            Some(connection) => self.next_on(connection),
            None => None,
        }
    }

    /// The same of this connection.
    fn next_on(&mut self, connection: Connection) -> Option<(u64, Packet)>
        ensures { TakesToCore (with_way (Some (way_seen connection)) (line_seen self.old)) (line_seen self.new) result }
    {
        let mut connection = connection;
        let link = connection.link;
        let taken = connection.to_core.pop_front();
        self.connection = Some(connection);
        match taken {
            Some(packet) => Some((link, packet)),
            None => None,
        }
    }

    /// The oldest packet on its way to the market is delivered, where there is one; what the market answers by this
    /// choice goes out.
    pub fn deliver(&mut self, alloc: Global, choice: Choice) -> Result<(), AllocError>
        ensures { IfOk result (λ u. Delivers choice (line_seen self.old).connection (line_seen self.old)
            (line_seen self.new)) }
    {
        match self.connection.take() {
            Some(connection) => self.deliver_on(alloc, connection, choice),
            None => Ok(()),
        }
    }

    /// The same on this connection.
    fn deliver_on(
        &mut self,
        alloc: Global,
        connection: Connection,
        choice: Choice,
    ) -> Result<(), AllocError>
        ensures { IfOk result (λ u. Delivers choice (Some (way_seen connection)) (line_seen self.old)
            (line_seen self.new)) }
    {
        let mut connection = connection;
        let taken = connection.to_market.pop_front();
        self.connection = Some(connection);
        match taken {
            Some(packet) => self.come(alloc, packet, choice),
            None => Ok(()),
        }
    }

    /// A packet, in bytes, comes to the market.
    fn come(&mut self, alloc: Global, packet: Packet, choice: Choice) -> Result<(), AllocError>
        ensures { IfOk result (λ u. (read : Option Inbound) × (list_all is_byte packet.payload ≡ true)
            × ReadsEvent (sims.Packet packet choice) read × (line_seen self.new
            ≡ lines.market_line (sim_step self.old.market (sims.Packet packet choice) read) (line_seen self.old))) }
    {
        are_bytes(packet.payload.as_slice());
        self.comes(alloc, SimEvent::Packet(packet, choice))
    }

    /// The market does this by itself; what it says goes out.
    pub fn act(&mut self, alloc: Global, choice: Choice) -> Result<(), AllocError>
        ensures { IfOk result (λ u. line_seen self.new
            ≡ lines.market_line (sim_step self.old.market (sims.Act choice) None) (line_seen self.old)) }
    {
        self.comes(alloc, SimEvent::Act(choice))
    }

    /// Something comes to the market; what it says goes behind what is on its way to the core.
    fn comes(&mut self, alloc: Global, event: SimEvent) -> Result<(), AllocError>
        ensures { IfOk result (λ u. (read : Option Inbound) × ReadsEvent event read × (line_seen self.new
            ≡ lines.market_line (sim_step self.old.market event read) (line_seen self.old))) }
    {
        let packets = self.market.step(alloc, event)?;
        match self.connection.take() {
            Some(connection) => self.say(connection, packets),
            None => Ok(()),
        }
    }

    /// Packets of the market go behind what is on its way to the core on this connection.
    fn say(&mut self, connection: Connection, packets: Vec<Packet>) -> Result<(), AllocError>
        ensures { IfOk result (λ u. line_seen self.new
            ≡ with_way (lines.said_on packets.items (Some (way_seen connection))) (line_seen self.old)) }
    {
        let mut connection = connection;
        connection.say_all(packets)?;
        self.connection = Some(connection);
        Ok(())
    }

    /// What a batch tells the port's link: it goes on its way to the market, or ends the connection.
    pub fn hear(&mut self, alloc: Global, outs: &[LinkOut]) -> Result<(), AllocError>
        ensures { IfOk result (λ u. ArePackets (map link_out_seen outs.now)
            → line_seen self.new ≡ lines.told_line (map link_out_seen outs.now) (line_seen self.old)) }
    {
        match self.connection.take() {
            Some(connection) => self.hear_on(alloc, connection, outs),
            None => Ok(()),
        }
    }

    /// The same on this connection.
    fn hear_on(
        &mut self,
        alloc: Global,
        connection: Connection,
        outs: &[LinkOut],
    ) -> Result<(), AllocError>
        ensures { IfOk result (λ u. ArePackets (map link_out_seen outs.now) → line_seen self.new
            ≡ lines.told_on (map link_out_seen outs.now) (Some (way_seen connection)) (line_seen self.old)) }
    {
        let mut connection = connection;
        if connection.is_closed_by(outs) {
            return self.leave(alloc);
        }
        connection.write_all(alloc, outs)?;
        self.connection = Some(connection);
        Ok(())
    }

    /// The connection is over with all that is on its way, and the market has no link.
    fn leave(&mut self, alloc: Global) -> Result<(), AllocError>
        ensures { IfOk result (λ u. line_seen self.new ≡ lines.ended_line (line_seen self.old)) }
    {
        let _nothing = self.market.step(alloc, SimEvent::Gone)?;
        self.connection = None;
        Ok(())
    }
}

/// What stands in memory is bytes. It does nothing: its contract is what the type says.
fn are_bytes(bytes: &[u8])
    ensures { list_all is_byte bytes.now ≡ true }
{}
