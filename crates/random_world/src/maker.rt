//! Steps that are drawn by a seed.

use crate::client::Client;
use crate::frames::frame_of;
use crate::shape::Shape;
use crate::weights::{Kind, Weights};
use closed_world::{ClosedWorld, WorldStep};
use gate_events::{ClientNumber, Event, PortNumber};
use gate_settings::Settings;
use market_law::{BookRow, Breaking, Choice, Letter, Removal, Trading};
use seeded_choices::Chance;
use std::alloc::Global;
use std::io;
use tokens::Token;

/// The first moment: some day at 13:30.
const FIRST_MOMENT: u64 = 1_764_595_800_000;

/// The steps of a world's seed, as many as its shape says between the logons and the deliveries of all that is on its
/// way in the end.
pub fn random_steps(
    alloc: Global,
    settings: &Settings,
    shape: &Shape,
) -> io::Result<Vec<WorldStep>> {
    let mut maker = Maker::new(alloc, settings, shape)?;
    maker.make(alloc, shape.steps)?;
    Ok(maker.steps)
}

/// A world that is stepped as its steps are drawn.
#[derive(Drop)]
struct Maker {
    chance: Chance,
    world: ClosedWorld,
    steps: Vec<WorldStep>,
    clients: Vec<Client>,
    ports: u16,
    now: u64,
    /// The greatest token number that a market was seen to have.
    newest: u64,
    /// How many trades were drawn.
    trades: u32,
}

impl Maker {
    /// Nothing is drawn yet.
    fn new(alloc: Global, settings: &Settings, shape: &Shape) -> io::Result<Maker> {
        let mut clients = Vec::new(alloc);
        for place in 0..shape.clients {
            let number = ClientNumber::at_place(usize::from(place));
            clients.push(Client::new(alloc, number))?;
        }
        Ok(Maker {
            chance: Chance::of(shape.seed, 0),
            world: ClosedWorld::new(alloc, settings)?,
            steps: Vec::new(alloc),
            clients,
            ports: shape.ports,
            now: FIRST_MOMENT,
            newest: 0,
            trades: 0,
        })
    }

    /// So many steps between the logons and the deliveries.
    fn make(&mut self, alloc: Global, steps: u32) -> io::Result<()> {
        self.begin(alloc)?;
        let weights = Weights::of(&mut self.chance);
        for _ in 0..steps {
            self.draw(alloc, &weights)?;
        }
        self.end(alloc, steps)
    }

    /// Each client logs on, and each port is connected.
    fn begin(&mut self, alloc: Global) -> io::Result<()> {
        for place in 0..self.clients.len() {
            self.log_on(alloc, place)?;
        }
        for port in 1..=self.ports {
            self.take(alloc, WorldStep::Connect(port))?;
        }
        Ok(())
    }

    /// A step more.
    fn draw(&mut self, alloc: Global, weights: &Weights) -> io::Result<()> {
        match weights.kind(&mut self.chance) {
            Kind::ToMarket => {
                let port = self.port();
                let choice = self.choice();
                self.take(alloc, WorldStep::ToMarket(port.number(), choice))
            }
            Kind::ToCore => {
                let port = self.port();
                self.take(alloc, WorldStep::ToCore(port.number()))
            }
            Kind::Message => self.message(alloc),
            Kind::Act => {
                let port = self.port();
                let choice = self.act(port);
                self.take(alloc, WorldStep::Act(port.number(), choice))
            }
            Kind::Lose => {
                let port = self.port();
                self.take(alloc, WorldStep::Lose(port.number()))
            }
            Kind::Connect => {
                let port = self.port();
                self.take(alloc, WorldStep::Connect(port.number()))
            }
            Kind::Tick => self.tick(alloc),
            Kind::LogOn => {
                let place = self.client();
                self.log_on(alloc, place)
            }
        }
    }

    /// All that is on its way is delivered.
    fn end(&mut self, alloc: Global, steps: u32) -> io::Result<()> {
        for port in 1..=self.ports {
            self.steps.push(WorldStep::Connect(port))?;
        }
        for _ in 0..steps.saturating_add(100) {
            self.deliver_once()?;
        }
        Ok(())
    }

    /// On each port a packet is delivered each way.
    fn deliver_once(&mut self) -> io::Result<()> {
        for port in 1..=self.ports {
            let choice = self.choice();
            self.steps.push(WorldStep::ToMarket(port, choice))?;
            self.steps.push(WorldStep::ToCore(port))?;
            self.steps.push(WorldStep::ToCore(port))?;
        }
        Ok(())
    }

    /// A step is taken.
    fn take(&mut self, alloc: Global, step: WorldStep) -> io::Result<()> {
        self.world.step(alloc, &step)?;
        self.steps.push(step)?;
        Ok(())
    }

    /// One of the ports.
    fn port(&mut self) -> PortNumber {
        PortNumber::at_place(self.chance.below(usize::from(self.ports)))
    }

    /// The place of one of the clients.
    fn client(&mut self) -> usize {
        self.chance.below(self.clients.len())
    }

    /// The number of one of the clients.
    fn client_number(&mut self) -> ClientNumber {
        let place = self.client();
        match self.clients.as_slice().get(place) {
            Some(client) => client.number,
            None => ClientNumber::new(1),
        }
    }

    /// A moment: a little later mostly, one that was before in one of twenty.
    fn moment(&mut self) -> u64 {
        if self.chance.once_in(20) {
            return self
                .now
                .saturating_sub(u64::from(self.chance.number_below(5_000)));
        }
        self.now = self
            .now
            .saturating_add(u64::from(self.chance.number_below(50)));
        self.now
    }

    /// A client's message.
    fn message(&mut self, alloc: Global) -> io::Result<()> {
        let place = self.client();
        let at = self.moment();
        if place >= self.clients.len() {
            return Ok(());
        }
        let text = self.clients[place].message(alloc, &mut self.chance, at)?;
        self.say(alloc, place, text.as_slice(), at)
    }

    /// A client's link goes where it has one, and the next one comes, on which it logs on.
    fn log_on(&mut self, alloc: Global, place: usize) -> io::Result<()> {
        let at = self.moment();
        self.link_gone(alloc, place, at)?;
        self.link_comes(alloc, place, at)?;
        if place >= self.clients.len() {
            return Ok(());
        }
        let text = self.clients[place].log_on(alloc, &mut self.chance, at)?;
        self.say(alloc, place, text.as_slice(), at)?;
        self.reset(alloc, place, at)
    }

    /// A client's number is put right, whatever was lost before.
    fn reset(&mut self, alloc: Global, place: usize, at: u64) -> io::Result<()> {
        if place >= self.clients.len() {
            return Ok(());
        }
        let text = self.clients[place].reset(alloc, at)?;
        self.say(alloc, place, text.as_slice(), at)
    }

    /// A client's link is gone, where it has one.
    fn link_gone(&mut self, alloc: Global, place: usize, at: u64) -> io::Result<()> {
        if place >= self.clients.len() {
            return Ok(());
        }
        let client = self.clients[place].number;
        let link = self.clients[place].link;
        if link == 0 {
            return Ok(());
        }
        self.take(
            alloc,
            WorldStep::Client(Event::ClientGone { client, link, at }),
        )
    }

    /// A client's next link comes.
    fn link_comes(&mut self, alloc: Global, place: usize, at: u64) -> io::Result<()> {
        if place >= self.clients.len() {
            return Ok(());
        }
        let client = self.clients[place].number;
        let link = self.clients[place].link.saturating_add(1);
        self.clients[place].link = link;
        self.take(
            alloc,
            WorldStep::Client(Event::ClientUp { client, link, at }),
        )
    }

    /// A client's frame comes.
    fn say(&mut self, alloc: Global, place: usize, text: &[u8], at: u64) -> io::Result<()> {
        let Some(frame) = frame_of(alloc, text)? else {
            return Ok(());
        };
        if place >= self.clients.len() {
            return Ok(());
        }
        let event = Event::ClientMessage {
            client: self.clients[place].number,
            link: self.clients[place].link,
            at,
            frame,
        };
        self.take(alloc, WorldStep::Client(event))
    }

    /// Time passes: a little, or so much that links are closed.
    fn tick(&mut self, alloc: Global) -> io::Result<()> {
        let passed = match self.chance.number_below(6) {
            0 => 16_000,
            1 => 1_001,
            2 => 31_000,
            _ => self.chance.number_below(3_000),
        };
        self.now = self.now.saturating_add(u64::from(passed));
        let event = self.tick_event();
        self.take(alloc, WorldStep::Client(event))
    }

    /// The tick of a client or of a port; in one of ten an event that does nothing.
    fn tick_event(&mut self) -> Event {
        let at = self.now;
        let client = self.client_number();
        let port = self.port();
        match self.chance.number_below(10) {
            0 => self.stray(client, port),
            1..=3 => Event::ClientTick { client, at },
            _ => Event::PortTick { port, at },
        }
    }

    /// An event that does nothing: of a number that the settings don't have, of a link that isn't current, or one that
    /// isn't a client's.
    fn stray(&mut self, client: ClientNumber, port: PortNumber) -> Event {
        let at = self.now;
        let link = u64::MAX;
        match self.chance.number_below(5) {
            0 => Event::ClientTick {
                client: ClientNumber::new(1_000),
                at,
            },
            1 => Event::PortTick {
                port: PortNumber::new(1_000),
                at,
            },
            2 => Event::PortUp { port, link, at },
            3 => Event::PortGone { port, link, at },
            _ => Event::ClientGone { client, link, at },
        }
    }

    /// What a market chooses where its answer is free.
    fn choice(&mut self) -> Choice {
        match self.chance.number_below(12) {
            0 => Choice::AcceptDead,
            1..=2 => refusal(&mut self.chance),
            3 => Choice::TakeOff(Removal {
                token: [b' '; 14],
                shares: 0,
            }),
            4 => Choice::Nothing,
            _ => Choice::AcceptLive,
        }
    }

    /// What a market does by itself.
    fn act(&mut self, port: PortNumber) -> Choice {
        match self.chance.number_below(12) {
            0..=5 => self.trade(port),
            6..=7 => self.removal(port),
            8..=9 => Choice::Break(Breaking {
                match_number: u64::from(self.chance.number_below(self.trades.saturating_add(1)))
                    + 1,
            }),
            10 => system_event(),
            _ => self.choice(),
        }
    }

    /// A trade of an order that is open, if one is found.
    fn trade(&mut self, port: PortNumber) -> Choice {
        let (token, row) = self.open_order(port);
        let shares = self.shares_of(&row);
        self.trades = self.trades.saturating_add(1);
        Choice::Execute(Trading {
            token,
            shares,
            price: 100_000 + self.chance.number_below(1_000),
        })
    }

    /// Shares leave the book, of an order that is open, if one is found.
    fn removal(&mut self, port: PortNumber) -> Choice {
        let (token, row) = self.open_order(port);
        let shares = self.shares_of(&row);
        Choice::TakeOff(Removal { token, shares })
    }

    /// All that is open, or a part of it.
    fn shares_of(&mut self, row: &BookRow) -> u32 {
        let unfilled = row.unfilled.min(999_999) as u32;
        if self.chance.once_in(3) {
            return unfilled;
        }
        1 + self.chance.number_below(unfilled)
    }

    /// A token of an order of which something is open, and what the market has of it: one of the newest, looked for a
    /// few times.
    fn open_order(&mut self, port: PortNumber) -> ([u8; 14], BookRow) {
        self.look_for_newer();
        let mut token = token_of(self.newest);
        let mut row = self.world.row(port.number(), &token);
        for _ in 0..24 {
            if row.unfilled > 0 {
                break;
            }
            let back = u64::from(self.chance.number_below(40));
            token = token_of(self.newest.saturating_sub(back));
            row = self.world.row(port.number(), &token);
        }
        (token, row)
    }

    /// Whether a market has a newer token.
    fn look_for_newer(&mut self) {
        let from = self.newest;
        for ahead in 1..24 {
            let number = from.saturating_add(ahead);
            if self.has_token(number) {
                self.newest = number;
            }
        }
    }

    /// Whether one of the markets has the token of this number.
    fn has_token(&self, number: u64) -> bool {
        let token = token_of(number);
        for port in 1..=self.ports {
            if self.world.row(port, &token).side.is_some() {
                return true;
            }
        }
        false
    }
}

/// The token of a number; spaces where it has none.
fn token_of(number: u64) -> [u8; 14] {
    match Token::of(number) {
        Ok(token) => token.bytes(),
        Err(_) => [b' '; 14],
    }
}

/// A refusal by a letter.
fn refusal(chance: &mut Chance) -> Choice {
    match Letter::of(65 + chance.number_below(26) as u8) {
        Some(letter) => Choice::Refuse(letter),
        None => Choice::Nothing,
    }
}

/// The system's event.
fn system_event() -> Choice {
    match Letter::of(b'Q') {
        Some(letter) => Choice::SystemEvent(letter),
        None => Choice::Nothing,
    }
}
