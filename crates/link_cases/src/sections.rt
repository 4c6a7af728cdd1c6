//! The sections of the input, and what their lines are said to.

use crate::journal::Days;
use crate::links::Links;
use case_lines::Lines;
use std::alloc::Global;
use std::io::{self, ErrorKind};

/// What the lines of a section are.
#[derive(Clone, Copy)]
enum Section {
    /// Streams and lists by chance, and links step by step.
    Links,
    /// Pages of the journal.
    Journal,
}

/// The section, and what its lines are said to.
#[derive(Drop)]
pub struct Cases {
    section: Section,
    links: Links,
    days: Days,
}

impl Cases {
    /// Nothing was said; the first section is of links. Takes no memory.
    pub fn new(alloc: Global) -> Cases {
        Cases {
            section: Section::Links,
            links: Links::new(alloc),
            days: Days::new(alloc),
        }
    }
}

impl Lines for Cases {
    fn take(&mut self, alloc: Global, line: &str, shown: &mut Vec<u8>) -> io::Result<()> {
        if let Some(name) = line.strip_prefix("== ") {
            self.section = section_of(name)?;
            return Ok(());
        }
        match self.section {
            Section::Links => self.links.take(alloc, line, shown),
            Section::Journal => self.days.take(alloc, line, shown),
        }
    }
}

/// The section of a name; `InvalidData` where there is none.
fn section_of(name: &str) -> io::Result<Section> {
    match name {
        "links" => Ok(Section::Links),
        "journal" => Ok(Section::Journal),
        _ => Err(io::Error::from(ErrorKind::InvalidData)),
    }
}
