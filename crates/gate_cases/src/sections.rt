//! The sections of the input, and what their lines are said to.

use crate::calls::Calls;
use crate::desks::Desks;
use crate::scripts::Case;
use crate::worlds::Worlds;
use case_lines::Lines;
use std::alloc::{AllocError, Global};
use std::fs;
use std::io::{self, ErrorKind};
use std::sync::Wait;
use std::time::Clock;

/// What the lines of a section are.
#[derive(Clone, Copy)]
enum Section {
    /// Cases of scripts.
    Scripts,
    /// Names of files with scripts.
    Examples,
    /// Steps of desks.
    Desk,
    /// Closed worlds.
    Worlds,
    /// Calls that no script shows.
    Calls,
}

/// The section, and the cases that its lines are of.
pub struct Cases<'a, R> {
    files: &'a HostRuntime,
    waits: &'a R,
    section: Section,
    is_mixed: bool,
    script: Case,
    desks: Desks,
    worlds: Worlds,
    calls: Calls,
}

/// Written by hand, so that one call drops all.
impl<'a, R> Drop for Cases<'a, R> {
    fn drop(self) {
        let Cases {
            files: _,
            waits: _,
            section: _,
            is_mixed: _,
            script: _,
            desks: _,
            worlds: _,
            calls: _,
        } = self;
    }
}

impl<'a, R: Wait + Clock> Lines for Cases<'a, R> {
    fn take(&mut self, alloc: Global, line: &str, shown: &mut Vec<u8>) -> io::Result<()> {
        if let Some(name) = line.strip_prefix("== ") {
            return self.begin(alloc, name, shown);
        }
        match self.section {
            Section::Scripts => Ok(self.take_script(alloc, line, shown)?),
            Section::Examples => run_example(self.files, alloc, line, shown),
            Section::Desk => Ok(self.desks.take(self.waits, alloc, line, shown)?),
            Section::Worlds => self.worlds.take(alloc, line, shown),
            Section::Calls => Ok(self.calls.take(alloc, line, shown)?),
        }
    }

    fn end(&mut self, alloc: Global, shown: &mut Vec<u8>) -> Result<(), AllocError> {
        self.script.end(alloc, self.is_mixed, shown)?;
        self.script = Case::new(alloc);
        Ok(())
    }
}

impl<'a, R: Wait + Clock> Cases<'a, R> {
    /// No case yet; the first section is of scripts, each run in all ways where that is asked for. Takes no memory.
    pub fn new(files: &'a HostRuntime, waits: &'a R, is_mixed: bool) -> Cases<'a, R> {
        let alloc = files.alloc();
        Cases {
            files,
            waits,
            section: Section::Scripts,
            is_mixed,
            script: Case::new(alloc),
            desks: Desks::new(alloc),
            worlds: Worlds::new(alloc),
            calls: Calls::new(alloc),
        }
    }

    /// Begins the section of this name, and shows how the case before it ended; `InvalidData` where there is none.
    fn begin(&mut self, alloc: Global, name: &str, shown: &mut Vec<u8>) -> io::Result<()> {
        match section_of(name) {
            Some(section) => {
                self.section = section;
                Ok(self.end(alloc, shown)?)
            }
            None => Err(io::Error::from(ErrorKind::InvalidData)),
        }
    }

    /// Takes a line of a script's case.
    fn take_script(
        &mut self,
        alloc: Global,
        line: &str,
        shown: &mut Vec<u8>,
    ) -> Result<(), AllocError> {
        match line.strip_prefix("case ") {
            Some(name) => {
                self.end(alloc, shown)?;
                self.script.begin(name)
            }
            None => self.script.take(alloc, line.as_bytes()),
        }
    }
}

/// Runs an example, in all ways: the file of this name is a script, and has to print just what the file `NAME.stdout`
/// says.
fn run_example(
    files: &HostRuntime,
    alloc: Global,
    name: &str,
    shown: &mut Vec<u8>,
) -> io::Result<()> {
    let script = fs::read(files, name)?;
    let wanted = fs::read(files, format!(in alloc; "{name}.stdout")?)?;
    let example = Case::whole(alloc, name, script, wanted)?;
    Ok(example.end(alloc, true, shown)?)
}

/// The section of a name.
fn section_of(name: &str) -> Option<Section> {
    match name {
        "scripts" => Some(Section::Scripts),
        "examples" => Some(Section::Examples),
        "desk" => Some(Section::Desk),
        "worlds" => Some(Section::Worlds),
        "calls" => Some(Section::Calls),
        _ => None,
    }
}
