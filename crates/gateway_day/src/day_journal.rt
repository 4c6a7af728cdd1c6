//! Where a day is written ahead, and what is there of it.

ghost use Rattle.std.specs.Prelude.{◌≡◌, [], IfOk};
ghost use Rattle.journal_log.specs.Whole.{HasJust};
ghost use Rattle.gateway_day.specs.Stopped.{EndsTorn, IsStopped};

use journal_file::{DayReader, Ending, FileFault, NextTurns, ReadFault};
use journal_log::{HostFile, OpenFault, StoppedLog};
use std::alloc::Global;
use std::io::Read;
use thiserror::Error;

/// Where a day is written ahead, and when that is synced.
#[derive(Drop)]
pub struct DayJournal {
    pub file: JournalFile,
    pub syncs: Syncs,
}

/// A journal's file.
#[derive(Drop)]
pub enum JournalFile {
    /// It was made, and has nothing.
    New(NewFile),
    /// It was there: the day goes on behind what it has.
    Stopped(StoppedLog),
}

/// A file that has nothing. Its type keeps that.
#[derive(Drop)]
pub struct NewFile {
    file: HostFile,
    ghost nothing: { HasJust [] file },
}

impl NewFile {
    ghost use Rattle.std.specs.Prelude.{[]};
    ghost use Rattle.journal_log.specs.Whole.{HasJust};

    /// The file. Takes no memory.
    pub fn into_file(self) -> HostFile
        ensures { HasJust [] result }
    {
        self.file
    }
}

/// When a journal's file is synced.
#[derive(Clone, Copy, Debug, PartialEq, Eq)]
pub enum Syncs {
    /// Before anybody is told.
    Each,
    /// Each so many milliseconds.
    Every(u64),
    /// By the system alone.
    Never,
}

/// A day that stopped: how many events its file has, and how many bytes of a write that was cut short stand behind
/// them, of which nobody was told anything.
#[derive(Drop)]
pub struct StoppedDay {
    pub journal: DayJournal,
    pub events: u64,
    pub torn: u64,
}

/// Why a day that stopped can't go on.
#[derive(Clone, Copy, Debug, PartialEq, Eq, Drop, Error)]
pub enum StoppedFault {
    /// The day is over.
    #[error("the day is over")]
    Over,
    /// The file is damaged, or not of the form that is written: the place of the first page with which something is
    /// wrong, from 0, and what.
    #[error("page {0}: {1}")]
    Damaged(u32, FileFault),
    /// It can't be read.
    #[error("{0}")]
    File(OpenFault),
    /// Memory ran out.
    #[error("out of memory")]
    NoMemory,
}

impl From<ReadFault> for StoppedFault {
    fn from(fault: ReadFault) -> StoppedFault {
        match fault {
            ReadFault::NoMemory => StoppedFault::NoMemory,
            ReadFault::Read(_) => StoppedFault::File(OpenFault::Failed),
            ReadFault::NoFile(page, fault) => StoppedFault::Damaged(page, fault),
        }
    }
}

impl From<OpenFault> for StoppedFault {
    fn from(fault: OpenFault) -> StoppedFault {
        match fault {
            OpenFault::NoMemory => StoppedFault::NoMemory,
            fault => StoppedFault::File(fault),
        }
    }
}

impl DayJournal {
    ghost use Rattle.std.specs.Prelude.{[], ℕ, List, IfOk};
    ghost use Rattle.gateway_day.specs.Stopped.{IsStopped};
    ghost use Rattle.journal_log.specs.Whole.{HasJust};

    /// Of a day that begins, in a file that was made.
    pub fn begun(file: HostFile) -> DayJournal
        requires { HasJust [] file }
    {
        DayJournal {
            file: JournalFile::New(NewFile { file }),
            syncs: Syncs::Each,
        }
    }

    /// Of a day that stopped, once its file was read through, page by page: it says a day that goes on. Nothing of it
    /// is changed.
    pub fn of_stopped(alloc: Global, stopped: StoppedLog) -> Result<StoppedDay, StoppedFault>
        ensures { IfOk result (λ day. (file : List ℕ) × IsStopped file day.events day.torn) }
    {
        let mut stopped = stopped;
        let mut reader = DayReader::new(alloc);
        let (events, torn) = count_events(alloc, stopped.file(), &mut reader)?;
        stopped.rewind()?;
        let journal = DayJournal {
            file: JournalFile::Stopped(stopped),
            syncs: Syncs::Each,
        };
        Ok(StoppedDay {
            journal,
            events,
            torn,
        })
    }

    /// The same, whose file is synced each so many milliseconds, or left to the system (`HostFile::synced_later`).
    pub fn synced_later(self, milliseconds: Option<u64>) -> DayJournal {
        let syncs = match milliseconds {
            Some(every) => Syncs::Every(every),
            None => Syncs::Never,
        };
        DayJournal {
            file: self.file,
            syncs,
        }
    }
}

/// How many events a day's file has that goes on, once it was read to its end; and how many bytes of a write that was
/// cut short stand behind them.
fn count_events<R: Read>(
    alloc: Global,
    input: &mut R,
    reader: &mut DayReader,
) -> Result<(u64, u64), StoppedFault>
    requires { reader.old.yielded ≡ [] }
    ensures { IfOk result (λ counts. IsStopped reader.new.read counts.0 counts.1) }
{
    let mut events = 0u64;
    for _ in 0..u64::MAX {
        match reader.next(alloc, input)? {
            NextTurns::Turns(part) => events = events.wrapping_add(part.count()),
            NextTurns::End(ending) => return Ok((events, torn_of(ending)?)),
        }
    }
    Err(StoppedFault::File(OpenFault::Failed))
}

/// How many bytes of a write that was cut short stand at the end of the file of a day that goes on.
fn torn_of(ending: Ending) -> Result<u64, StoppedFault>
    ensures { IfOk result (EndsTorn ending) }
{
    match ending {
        Ending::GoesOn => Ok(0),
        Ending::Torn(torn) => Ok(torn as u64),
        Ending::Over => Err(StoppedFault::Over),
    }
}
