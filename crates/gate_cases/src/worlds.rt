//! Closed worlds played: those that lines write out, a case at a time, and those of seeds.

mod case;
mod choices;
mod judging;
mod order;
mod seeds;
mod sender;
mod sums;

use crate::events::small_number;
use case::{Case, case_settings};
use case_lines::{first_word, number_of};
use choices::choice_of;
use closed_world::WorldStep;
use seeds::{run_seeds, show_seed};
use std::alloc::{AllocError, Global};
use std::io;

/// How a case is played.
#[derive(Clone, Copy)]
enum Way {
    Once,
    /// Once, and what links are told is shown.
    Told,
    /// With a loss behind each delivery in turn, too.
    Crossed,
}

/// The case that is written out at present.
#[derive(Drop)]
pub struct Worlds {
    case: Case,
}

impl Worlds {
    /// No case yet. Takes no memory.
    pub fn new(alloc: Global) -> Worlds {
        Worlds {
            case: Case::new(alloc),
        }
    }

    /// Does what a line says, and shows what comes of it; a line that isn't understood is shown.
    pub fn take(&mut self, alloc: Global, line: &str, shown: &mut Vec<u8>) -> io::Result<()> {
        if !self.does(alloc, line, shown)? {
            show(shown, format!(in alloc; "not understood: {line}\n")?)?;
        }
        Ok(())
    }

    /// Does what a line says; false where it isn't understood.
    fn does(&mut self, alloc: Global, line: &str, shown: &mut Vec<u8>) -> io::Result<bool> {
        let (word, rest) = first_word(line);
        match word {
            "case" => self.case = Case::named(alloc, rest)?,
            "end" => self.play(alloc, Way::Once, shown)?,
            "told" => self.play(alloc, Way::Told, shown)?,
            "crossings" => self.play(alloc, Way::Crossed, shown)?,
            "worlds" => return run_seeds(alloc, rest, shown),
            "world" => return show_seed(alloc, rest, shown),
            "at" => return Ok(self.case.at(number_of(rest))),
            _ => return Ok(self.step(alloc, word, rest)?),
        }
        Ok(true)
    }

    /// Plays the case in a way.
    fn play(&mut self, alloc: Global, way: Way, shown: &mut Vec<u8>) -> io::Result<()> {
        let settings = case_settings(alloc)?;
        match way {
            Way::Once => self.case.end(alloc, &settings, shown),
            Way::Told => self.case.tell_links(alloc, &settings, shown),
            Way::Crossed => self.case.end_crossed(alloc, &settings, shown),
        }
    }

    /// A step of the case; false where the line isn't understood.
    fn step(&mut self, alloc: Global, word: &str, rest: &str) -> Result<bool, AllocError> {
        let (number, rest) = first_word(rest);
        let Some(number) = small_number(number) else {
            return Ok(false);
        };
        match step_of(word, number, rest) {
            Some(step) => self.case.push(step),
            None => self.case.bring(alloc, word, number, rest),
        }
    }
}

/// A step of the world or of its market; `None` of anything else.
fn step_of(word: &str, port: u16, rest: &str) -> Option<WorldStep> {
    match word {
        "connect" => Some(WorldStep::Connect(port)),
        "core" => Some(WorldStep::ToCore(port)),
        "lose" => Some(WorldStep::Lose(port)),
        "market" => Some(WorldStep::ToMarket(port, choice_of(rest)?)),
        "act" => Some(WorldStep::Act(port, choice_of(rest)?)),
        _ => None,
    }
}

/// Shows a text.
fn show(shown: &mut Vec<u8>, text: String) -> Result<(), AllocError> {
    shown.extend_from_slice(text.as_bytes())
}
