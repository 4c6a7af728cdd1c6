//! A case: steps that are written out.

use super::judging::{Named, judge, played_of};
use super::sender::Sender;
use super::show;
use super::sums::Sums;
use crate::events::{Here, event_of};
use closed_world::WorldStep;
use gate_audit::Played;
use gate_events::{Batch, Event};
use gate_journal::History;
use gate_lines::{Flags, audit_text, batch_text};
use gate_settings::Settings;
use market_law::Choice;
use random_world::world_settings;
use std::alloc::{AllocError, Global};
use std::io::{self, ErrorKind};

/// How many clients and ports there are in a case: clients 1 and 3 are on port 1, client 2 is on port 2.
const CLIENTS: u16 = 3;

const PORTS: u16 = 2;

/// How many packets are delivered each way in the end.
const ROUNDS: u32 = 12;

/// A port's link that no connection has.
const OTHER_LINK: u64 = 1_000;

/// The moment at which a case begins.
const FIRST_MOMENT: u64 = 1_764_595_800_000;

/// A case, with its steps so far.
#[derive(Drop)]
pub struct Case {
    name: Vec<u8>,
    steps: Vec<WorldStep>,
    senders: [Sender; 3],
    at: u64,
}

impl Case {
    /// A case of no name, without steps. Takes no memory.
    pub fn new(alloc: Global) -> Case {
        Case {
            name: Vec::new(alloc),
            steps: Vec::new(alloc),
            senders: [Sender::new(), Sender::new(), Sender::new()],
            at: FIRST_MOMENT,
        }
    }

    /// A case of this name, without steps.
    pub fn named(alloc: Global, name: &str) -> Result<Case, AllocError> {
        let mut case = Case::new(alloc);
        case.name.extend_from_slice(name.as_bytes())?;
        Ok(case)
    }

    /// A step more.
    pub fn push(&mut self, step: WorldStep) -> Result<bool, AllocError> {
        self.steps.push(step)?;
        Ok(true)
    }

    /// So many milliseconds pass; whether that is a number.
    pub fn at(&mut self, passed: Option<u64>) -> bool {
        let Some(passed) = passed else {
            return false;
        };
        self.at = self.at.saturating_add(passed);
        true
    }

    /// What a word says of a client or a port; whether there is such a word, and such a client or port.
    ///
    /// `log_on`, `client FIELDS`, `gone` of a client; `tick` of a port; and steps that can't be taken, events of a port
    /// that are brought from without: `port_up`, `port_packet`, `port_gone`.
    pub fn bring(
        &mut self,
        alloc: Global,
        word: &str,
        number: u16,
        fields: &str,
    ) -> Result<bool, AllocError> {
        match word {
            "log_on" => self.log_on(alloc, number),
            "client" => self.bring_client(alloc, word, number, fields),
            "gone" => self.bring_client(alloc, word, number, ""),
            "tick" | "port_up" | "port_packet" | "port_gone" => {
                self.bring_port(alloc, word, number)
            }
            _ => Ok(false),
        }
    }

    /// A client's next link comes, and it logs on; whether there is such a client.
    fn log_on(&mut self, alloc: Global, number: u16) -> Result<bool, AllocError> {
        if let Some(sender) = self.sender(number) {
            sender.go_on();
        }
        let is_up = self.bring_client(alloc, "client_up", number, "")?;
        Ok(is_up && self.bring_client(alloc, "client", number, "35=A|98=0|108=30|")?)
    }

    /// An event of a client on its link, with a message of these fields.
    fn bring_client(
        &mut self,
        alloc: Global,
        word: &str,
        number: u16,
        fields: &str,
    ) -> Result<bool, AllocError> {
        let at = self.at;
        let Some(sender) = self.sender(number) else {
            return Ok(false);
        };
        let link = sender.link;
        let text = sender.text(alloc, number, fields.as_bytes(), at)?;
        let event = event_of(alloc, word, number, Here { link, at }, text.as_slice())?;
        self.push_event(event)
    }

    /// An event of a port on a link that it doesn't have, with a heartbeat where it is a packet.
    fn bring_port(&mut self, alloc: Global, word: &str, number: u16) -> Result<bool, AllocError> {
        let here = Here {
            link: OTHER_LINK,
            at: self.at,
        };
        let event = event_of(alloc, word, number, here, b"H")?;
        self.push_event(event)
    }

    /// A client's event more, where there is one.
    fn push_event(&mut self, event: Option<Event>) -> Result<bool, AllocError> {
        match event {
            Some(event) => self.push(WorldStep::Client(event)),
            None => Ok(false),
        }
    }

    /// What a client of the case sends.
    fn sender(&mut self, number: u16) -> Option<&mut Sender> {
        self.senders.get_mut(usize::from(number.checked_sub(1)?))
    }

    /// Plays the case, and shows what came of it.
    pub fn end(&self, alloc: Global, settings: &Settings, shown: &mut Vec<u8>) -> io::Result<()> {
        let mut sums = Sums::none();
        let played = judge(alloc, self.as_played(settings), &mut sums, shown)?;
        Ok(self.tell(alloc, &sums, &played, shown)?)
    }

    /// Plays the case with all that is on its way delivered in the end, without a loss and with one behind each of its
    /// deliveries in turn, and shows what came of them together, and then of the one without a loss.
    pub fn end_crossed(
        &mut self,
        alloc: Global,
        settings: &Settings,
        shown: &mut Vec<u8>,
    ) -> io::Result<()> {
        self.deliver_all()?;
        let mut sums = Sums::none();
        let played = judge(alloc, self.as_played(settings), &mut sums, shown)?;
        self.tell_crossed(alloc, settings, &mut sums, &played, shown)
    }

    /// Plays the case with each loss, and shows what came of all, and of the play without a loss.
    fn tell_crossed(
        &mut self,
        alloc: Global,
        settings: &Settings,
        sums: &mut Sums,
        played: &Played,
        shown: &mut Vec<u8>,
    ) -> io::Result<()> {
        self.cross(alloc, settings, sums, shown)?;
        Ok(self.tell(alloc, sums, played, shown)?)
    }

    /// Plays the case, and shows what links are told, batch by batch.
    pub fn tell_links(
        &self,
        alloc: Global,
        settings: &Settings,
        shown: &mut Vec<u8>,
    ) -> io::Result<()> {
        let played = played_of(alloc, self.as_played(settings))?;
        Ok(show_history(alloc, &played.history, shown)?)
    }

    /// The steps so far, to be played.
    fn as_played<'a>(&'a self, settings: &'a Settings) -> Named<'a> {
        Named {
            name: self.name.as_slice(),
            settings,
            steps: self.steps.as_slice(),
            counted: self.steps.len() as u64,
        }
    }

    /// Shows what came of the case.
    fn tell(
        &self,
        alloc: Global,
        sums: &Sums,
        played: &Played,
        shown: &mut Vec<u8>,
    ) -> Result<(), AllocError> {
        shown.extend_from_slice(self.name.as_slice())?;
        show(shown, format!(in alloc; ": {sums}\n")?)?;
        shown.extend_from_slice(audit_text(alloc, played.pairs.as_slice())?.as_slice())
    }

    /// All that is on its way is delivered.
    fn deliver_all(&mut self) -> Result<(), AllocError> {
        for port in 1..PORTS + 1 {
            self.push(WorldStep::Connect(port))?;
        }
        for _ in 0..ROUNDS {
            for port in 1..PORTS + 1 {
                self.push(WorldStep::ToMarket(port, Choice::AcceptLive))?;
                self.push(WorldStep::ToCore(port))?;
            }
        }
        Ok(())
    }

    /// Plays the case with a loss behind each of its deliveries in turn.
    fn cross(
        &mut self,
        alloc: Global,
        settings: &Settings,
        sums: &mut Sums,
        shown: &mut Vec<u8>,
    ) -> io::Result<()> {
        for place in 0..self.steps.len() {
            if let Some(port) = self.delivery_at(place) {
                self.insert_behind(place, WorldStep::Connect(port))?;
                self.insert_behind(place, WorldStep::Lose(port))?;
                let _played = judge(alloc, self.as_played(settings), sums, shown)?;
                self.remove_behind(place);
                self.remove_behind(place);
            }
        }
        Ok(())
    }

    /// The port of the delivery at a place; `None` where there is none.
    fn delivery_at(&self, place: usize) -> Option<u16> {
        match self.steps.get(place) {
            Some(WorldStep::ToMarket(port, _)) => Some(*port),
            Some(WorldStep::ToCore(port)) => Some(*port),
            _ => None,
        }
    }

    /// A step more behind the one at a place, where there is one.
    fn insert_behind(&mut self, place: usize, step: WorldStep) -> Result<(), AllocError> {
        if place < self.steps.len() {
            self.steps.insert(place + 1, step)?;
        }
        Ok(())
    }

    /// The step behind the one at a place goes, where there is one.
    fn remove_behind(&mut self, place: usize) {
        if place < self.steps.len().saturating_sub(1) {
            let _step = self.steps.remove(place + 1);
        }
    }
}

/// Shows what links are told in a history.
fn show_history(alloc: Global, history: &History, shown: &mut Vec<u8>) -> Result<(), AllocError> {
    let batches = history.batches(alloc)?;
    show_batches(alloc, batches.as_slice(), shown)
}

/// Shows what links are told, batch by batch.
fn show_batches(alloc: Global, batches: &[Batch], shown: &mut Vec<u8>) -> Result<(), AllocError> {
    let flags = Flags {
        num: false,
        raw: false,
        cold: false,
    };
    for batch in batches {
        shown.extend_from_slice(batch_text(alloc, flags, batch)?.as_slice())?;
    }
    Ok(())
}

/// The settings of each case.
pub fn case_settings(alloc: Global) -> io::Result<Settings> {
    match world_settings(alloc, CLIENTS, PORTS)? {
        Some(settings) => Ok(settings),
        None => Err(io::Error::from(ErrorKind::InvalidData)),
    }
}
