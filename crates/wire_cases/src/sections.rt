//! The sections of the input, and what their lines are said to.

use crate::ports::Port;
use crate::sessions::Link;
use crate::{settings, values};
use case_lines::{Judged, Lines, first_word, show_answer};
use std::alloc::{AllocError, Global};
use std::io::{self, ErrorKind};

/// What the lines of a section are.
#[derive(Clone, Copy)]
enum Section {
    /// Calls of the wire and of values.
    Wire,
    /// Cases of a FIX session.
    Sessions,
    /// Cases of a port's session and of a market.
    Ports,
    /// Settings files.
    Settings,
}

/// The section, and the cases that its lines are of.
#[derive(Drop)]
pub struct Cases {
    section: Section,
    sessions: Judged<Link>,
    ports: Judged<Port>,
}

impl Cases {
    /// No case yet; the first section is of calls.
    pub fn new(alloc: Global) -> Result<Cases, AllocError> {
        Ok(Cases {
            section: Section::Wire,
            sessions: Judged::new(alloc, Link::new(alloc)?),
            ports: Judged::new(alloc, Port::new(alloc)),
        })
    }

    /// Begins the section of this name, and shows how the case before it ended; `InvalidData` where there is none.
    fn begin(&mut self, alloc: Global, name: &str, shown: &mut Vec<u8>) -> io::Result<()> {
        match section_of(name) {
            Some(section) => {
                self.section = section;
                Ok(self.end(alloc, shown)?)
            }
            None => Err(io::Error::from(ErrorKind::InvalidData)),
        }
    }
}

impl Lines for Cases {
    fn take(&mut self, alloc: Global, line: &str, shown: &mut Vec<u8>) -> io::Result<()> {
        let (word, rest) = first_word(line);
        match self.section {
            _ if word == "==" => self.begin(alloc, rest, shown),
            Section::Sessions => self.sessions.take(alloc, line, shown),
            Section::Ports => self.ports.take(alloc, line, shown),
            Section::Wire => Ok(show(shown, line, values::answer(alloc, word, rest)?)?),
            Section::Settings => Ok(show(shown, line, settings::answer(alloc, word, rest)?)?),
        }
    }

    fn end(&mut self, alloc: Global, shown: &mut Vec<u8>) -> Result<(), AllocError> {
        self.sessions.end(alloc, shown)?;
        self.ports.end(alloc, shown)
    }
}

/// Shows a call with its answer.
fn show(shown: &mut Vec<u8>, call: &str, answer: String) -> Result<(), AllocError> {
    show_answer(shown, call, answer.as_str())
}

/// The section of a name.
fn section_of(name: &str) -> Option<Section> {
    match name {
        "wire" => Some(Section::Wire),
        "sessions" => Some(Section::Sessions),
        "ports" => Some(Section::Ports),
        "settings" => Some(Section::Settings),
        _ => None,
    }
}
