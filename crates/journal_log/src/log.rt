//! The log.

ghost use Rattle.std.specs.Prelude.{◌≡◌, ◌⊎◌, ◌<◌, ◌≤◌, ◌++◌, ◌∷◌, [], List, ℕ, length};
ghost use Rattle.std.specs.Prelude.{Err, IsErrOf, None, OnErr, OnOk, Some};
ghost use Rattle.journal_pages.specs.declared.version.Version.TheVariants.{Two};
ghost use Rattle.journal_file.specs.File.{sized_page};
ghost use Rattle.journal_log.specs.Crash.{Follows, Only, StandsBefore};
ghost use Rattle.journal_log.specs.Log.{IsEnded, IsSettled, LeavesAtLeast};
ghost use Rattle.journal_log.specs.Pieces.{bytes_ahead, page_of};
ghost use Rattle.journal_log.specs.declared.fault.LogFault.{LogFault};
ghost use Rattle.journal_log.specs.declared.fault.LogFault.TheVariants.{Ended, Failed, NoMemory};

use crate::fault::{LogFault, WriteFault};
use crate::file::LogFile;
use crate::pieces::Pieces;
use crate::sized::{append_head, append_sized};
use std::alloc::Global;
use std::marker::Model;

/// So many bytes of memory are kept for what is written next, at most.
const MOST_KEPT: usize = 131_072;

/// A log over a file. Contracts see the file, and why the log takes no more, if it doesn't.
#[derive(Drop)]
pub struct DayLog<F: LogFile> {
    file: F,
    /// What is written next. It is kept for its memory, unless that was a long page.
    bytes: Vec<u8>,
    shut: Option<LogFault>,
}

impl<F: LogFile> Model for DayLog<F> {
    ghost use Rattle.journal_log.specs.State.{LogState};

    ghost Value = { LogState F };

    ghost view = { λ l. record { file = l.file; shut = l.shut } };
}

impl<F: LogFile> DayLog<F> {
    /// A log over this file, behind what it has. Takes no memory.
    pub fn over(alloc: Global, file: F) -> DayLog<F>
        ensures file { result.file ≡ file }
        ensures goes_on { result.shut ≡ None }
    {
        DayLog {
            file,
            bytes: Vec::new(alloc),
            shut: None,
        }
    }

    /// The file.
    pub fn file(&self) -> &F
        ensures { result.now ≡ self.now.file }
    {
        &self.file
    }

    /// Adds a page, by one write and one sync. At `Ok` each crash leaves it, whole and behind those before; at `Err`
    /// each crash leaves those before. A page has a byte at least: one of none is an end.
    ///
    /// `Failed` where the file fails, and from then on: the file isn't called again. `Ended` behind an end.
    /// `NoMemory` leaves the log as it was.
    pub fn commit(&mut self, page: &[u8]) -> Result<(), LogFault>
        requires { 1 ≤ length page.now }
        ensures told { OnOk result ((pages : List (List ℕ)) → IsSettled F.seen F.may_leave pages self.old.file
            → IsSettled F.seen F.may_leave (pages ++ page.now ∷ []) self.new.file) }
        ensures kept { (pages : List (List ℕ)) → IsSettled F.seen F.may_leave pages self.old.file
            → LeavesAtLeast F.may_leave pages self.new.file }
        ensures goes_on { OnOk result (self.new.shut ≡ None) }
        ensures failed { IsErrOf result Failed → self.new.shut ≡ Some Failed }
        ensures cause { IsErrOf result Failed
            → (self.old.shut ≡ Some Failed) ⊎ (F.faults self.old.file < F.faults self.new.file) }
        ensures ended { IsErrOf result Ended → self.old.shut ≡ Some Ended }
        ensures no_memory { IsErrOf result NoMemory → self.new ≡ self.old }
        ensures last { (fault : LogFault) → self.old.shut ≡ Some fault → (result ≡ Err fault) × (self.new ≡ self.old) }
    {
        self.add(page)
    }

    /// Adds a page of so many records before it and of these records, likewise, of which no copy is made: it is written
    /// piece by piece, and synced once.
    pub(crate) fn commit_pieces(&mut self, before: u64, pieces: Pieces<'_>) -> Result<(), LogFault>
        ensures told { OnOk result ((pages : List (List ℕ)) → IsSettled F.seen F.may_leave pages self.old.file
            → IsSettled F.seen F.may_leave (pages ++ page_of before pieces.entry ∷ []) self.new.file) }
        ensures kept { (pages : List (List ℕ)) → IsSettled F.seen F.may_leave pages self.old.file
            → LeavesAtLeast F.may_leave pages self.new.file }
        ensures goes_on { OnOk result (self.new.shut ≡ None) }
        ensures open { OnOk result (self.old.shut ≡ None) }
        ensures failed { IsErrOf result Failed → self.new.shut ≡ Some Failed }
        ensures ended { IsErrOf result Ended → self.old.shut ≡ Some Ended }
        ensures no_memory { IsErrOf result NoMemory → self.new ≡ self.old }
        ensures last { (fault : LogFault) → self.old.shut ≡ Some fault → (result ≡ Err fault) × (self.new ≡ self.old) }
    {
        self.add_pieces(before, pieces)
    }

    /// Adds the end of a day that is over, likewise; the log takes nothing behind it.
    pub fn end(&mut self) -> Result<(), LogFault>
        ensures told { OnOk result ((pages : List (List ℕ)) → IsSettled F.seen F.may_leave pages self.old.file
            → IsEnded F.seen F.may_leave pages self.new.file) }
        ensures kept { (pages : List (List ℕ)) → IsSettled F.seen F.may_leave pages self.old.file
            → LeavesAtLeast F.may_leave pages self.new.file }
        ensures ended { OnOk result (self.new.shut ≡ Some Ended) }
        ensures failed { IsErrOf result Failed → self.new.shut ≡ Some Failed }
        ensures cause { IsErrOf result Failed
            → (self.old.shut ≡ Some Failed) ⊎ (F.faults self.old.file < F.faults self.new.file) }
        ensures twice { IsErrOf result Ended → self.old.shut ≡ Some Ended }
        ensures no_memory { IsErrOf result NoMemory → self.new ≡ self.old }
        ensures last { (fault : LogFault) → self.old.shut ≡ Some fault → (result ≡ Err fault) × (self.new ≡ self.old) }
    {
        self.add(&[])?;
        self.shut = Some(LogFault::Ended);
        Ok(())
    }

    /// Adds a page, or an end, behind its length and its sum, and has it durable.
    fn add(&mut self, page: &[u8]) -> Result<(), LogFault>
        ensures added { OnOk result (F.seen self.new.file ≡ F.seen self.old.file ++ sized_page Two page.now) }
        ensures durable { OnOk result (Only (F.seen self.new.file) (F.may_leave self.new.file)) }
        ensures crash { Follows StandsBefore (F.may_leave self.old.file) (F.may_leave self.new.file) }
        ensures goes_on { OnOk result (self.new.shut ≡ None) }
        ensures failed { IsErrOf result Failed → self.new.shut ≡ Some Failed }
        ensures cause { IsErrOf result Failed
            → (self.old.shut ≡ Some Failed) ⊎ (F.faults self.old.file < F.faults self.new.file) }
        ensures ended { IsErrOf result Ended → self.old.shut ≡ Some Ended }
        ensures no_memory { IsErrOf result NoMemory → self.new ≡ self.old }
        ensures last { (fault : LogFault) → self.old.shut ≡ Some fault → (result ≡ Err fault) × (self.new ≡ self.old) }
    {
        if let Some(fault) = self.shut {
            return Err(fault);
        }
        self.bytes.clear();
        append_sized(&mut self.bytes, page)?;
        let is_put = put(&mut self.file, self.bytes.as_slice());
        if self.bytes.capacity() > MOST_KEPT {
            self.bytes = Vec::new(*self.bytes.allocator());
        }
        match is_put {
            Ok(()) => Ok(()),
            Err(_) => {
                self.shut = Some(LogFault::Failed);
                Err(LogFault::Failed)
            }
        }
    }

    /// Adds a page of so many records before it and of these records behind its length and its sum, and has it durable.
    fn add_pieces(&mut self, before: u64, pieces: Pieces<'_>) -> Result<(), LogFault>
        ensures added { OnOk result (F.seen self.new.file
            ≡ F.seen self.old.file ++ sized_page Two (page_of before pieces.entry)) }
        ensures durable { OnOk result (Only (F.seen self.new.file) (F.may_leave self.new.file)) }
        ensures crash { Follows StandsBefore (F.may_leave self.old.file) (F.may_leave self.new.file) }
        ensures goes_on { OnOk result (self.new.shut ≡ None) }
        ensures open { OnOk result (self.old.shut ≡ None) }
        ensures failed { IsErrOf result Failed → self.new.shut ≡ Some Failed }
        ensures ended { IsErrOf result Ended → self.old.shut ≡ Some Ended }
        ensures no_memory { IsErrOf result NoMemory → self.new ≡ self.old }
        ensures last { (fault : LogFault) → self.old.shut ≡ Some fault → (result ≡ Err fault) × (self.new ≡ self.old) }
    {
        if let Some(fault) = self.shut {
            return Err(fault);
        }
        self.bytes.clear();
        append_head(&mut self.bytes, before, pieces)?;
        match put_pieces(&mut self.file, self.bytes.as_slice(), pieces) {
            Ok(()) => Ok(()),
            Err(_) => {
                self.shut = Some(LogFault::Failed);
                Err(LogFault::Failed)
            }
        }
    }
}

/// Adds bytes and pieces behind them to a file, and has all of them durable.
fn put_pieces<F: LogFile>(
    output: &mut F,
    bytes: &[u8],
    pieces: Pieces<'_>,
) -> Result<(), WriteFault>
    ensures added { OnOk result (F.seen output.new ≡ F.seen output.old ++ (bytes.now ++ bytes_ahead pieces.entry)) }
    ensures durable { OnOk result (Only (F.seen output.new) (F.may_leave output.new)) }
    ensures crash { Follows StandsBefore (F.may_leave output.old) (F.may_leave output.new) }
    ensures cause { OnErr result (F.faults output.old < F.faults output.new) }
{
    output.append(bytes)?;
    write_pieces(output, pieces)?;
    output.sync()?;
    Ok(())
}

/// Adds pieces to a file.
fn write_pieces<F: LogFile>(file: &mut F, pieces: Pieces<'_>) -> Result<(), WriteFault>
    ensures added { OnOk result (F.seen file.new ≡ F.seen file.old ++ bytes_ahead pieces.entry) }
    ensures crash { Follows StandsBefore (F.may_leave file.old) (F.may_leave file.new) }
    ensures earlier { F.faults file.old ≤ F.faults file.new }
    ensures cause { OnErr result (F.faults file.old < F.faults file.new) }
{
    let mut rest = pieces;
    while let Some((piece, behind)) = rest.split_first() {
        file.append(piece)?;
        rest = behind;
    }
    Ok(())
}

/// Adds bytes to a file, and has them durable.
fn put<F: LogFile>(file: &mut F, bytes: &[u8]) -> Result<(), WriteFault>
    ensures added { OnOk result (F.seen file.new ≡ F.seen file.old ++ bytes.now) }
    ensures durable { OnOk result (Only (F.seen file.new) (F.may_leave file.new)) }
    ensures crash { Follows StandsBefore (F.may_leave file.old) (F.may_leave file.new) }
    ensures cause { OnErr result (F.faults file.old < F.faults file.new) }
{
    file.append(bytes)?;
    file.sync()?;
    Ok(())
}
