//! A log's file, opened.

ghost use Rattle.std.specs.Prelude.{◌≡◌, [], length, take, IfOk};
ghost use Rattle.journal_log.specs.Whole.{HasJust, HasNothing};

use crate::host_fault::{OpenFault, fault_of};
use crate::host_file::HostFile;
use journal_file::{DayReader, SizedBytes};
use journal_pages::Noted;
use std::fs::{File, Files, OpenOptions, TryLockError};
use std::io::{self, ErrorKind, Seek};
use std::os::unix::fs::OpenOptionsExt;
use std::path::Path;

/// A log's file that was opened.
#[derive(Drop)]
pub enum FoundLog {
    /// It was made, and has nothing.
    New(HostFile),
    /// It was there.
    There(StoppedLog),
}

/// A log's file that was there: of a day that stopped, or is over. Nobody else can open it as a log.
#[derive(Drop)]
pub struct StoppedLog {
    file: File,
}

impl StoppedLog {
    /// The file, to be read; at first from its beginning.
    pub fn file(&mut self) -> &mut File {
        &mut self.file
    }

    /// Has the file be read from its beginning again.
    pub fn rewind(&mut self) -> Result<(), OpenFault> {
        match self.file.rewind() {
            Ok(()) => Ok(()),
            Err(error) => Err(fault_of(&error)),
        }
    }

    /// Goes on behind these bytes, with which the file begins, as it was read: those behind them are cut, and the cut
    /// is durable before anything is added, since else what was cut might come back behind it. What was read may not
    /// have been durable; it is now.
    pub fn go_on(self, reader: &DayReader, written: SizedBytes) -> Result<HostFile, OpenFault>
        requires front { take (length written) reader.now.read ≡ written }
        ensures { IfOk result (λ file. HasJust (take (length written) reader.now.read) file) }
    {
        let StoppedLog { file } = self;
        let _ = reader;
        let size = written.size();
        cut(&file, size)?;
        Ok(HostFile::with(file, written.into_noted(), size))
    }
}

/// Opens a log's file: made new where there is none, which its owner alone may read and write, else with what it has.
/// It is locked, so that another process that opens it is refused, for as long as it is open; its name is durable.
pub fn open_log<R: Files<File = File>>(rt: &R, path: &str) -> Result<FoundLog, OpenFault>
    ensures { IfOk result HasNothing }
{
    match make_new(rt, path) {
        Ok(file) => {
            lock(&file)?;
            sync_folder(rt, path)?;
            Ok(FoundLog::New(HostFile::with(file, Noted::new(), 0)))
        }
        Err(error) if error.kind() == ErrorKind::AlreadyExists => {
            let stopped = find_log(rt, path)?;
            Ok(FoundLog::There(stopped))
        }
        Err(error) => Err(fault_of(&error)),
    }
}

/// Makes a file that isn't there.
fn make_new<R: Files<File = File>>(rt: &R, path: &str) -> io::Result<File> {
    let mut options = OpenOptions::new();
    options
        .read(true)
        .append(true)
        .create_new(true)
        .mode(0o600)
        .open(rt, path)
}

/// Opens a log's file that is there, and locks it as `open_log` does. `Missing` where it isn't there.
pub fn find_log<R: Files<File = File>>(rt: &R, path: &str) -> Result<StoppedLog, OpenFault> {
    let mut options = OpenOptions::new();
    let file = match options.read(true).append(true).open(rt, path) {
        Ok(file) => file,
        Err(error) => return Err(fault_of(&error)),
    };
    lock(&file)?;
    sync_folder(rt, path)?;
    Ok(StoppedLog { file })
}

/// Locks a file, or finds that another process has it.
fn lock(file: &File) -> Result<(), OpenFault> {
    match file.try_lock() {
        Ok(()) => Ok(()),
        Err(TryLockError::WouldBlock) => Err(OpenFault::InUse),
        Err(TryLockError::Error(error)) => Err(fault_of(&error)),
    }
}

/// Has the name of a file durable: what its folder has.
fn sync_folder<R: Files<File = File>>(rt: &R, path: &str) -> Result<(), OpenFault> {
    let synced = match File::open(rt, folder_of(path)) {
        Ok(folder) => folder.sync_all(),
        Err(error) => Err(error),
    };
    match synced {
        Ok(()) => Ok(()),
        Err(error) => Err(fault_of(&error)),
    }
}

/// The folder of a file.
fn folder_of(path: &str) -> &str {
    let Some(folder) = Path::new(path).parent() else {
        return ".";
    };
    let folder = folder.as_str();
    if folder.is_empty() { "." } else { folder }
}

/// Leaves so many bytes of a file, and has them durable.
fn cut(file: &File, size: u64) -> Result<(), OpenFault> {
    let cut = match file.set_len(size) {
        Ok(()) => file.sync_all(),
        Err(error) => Err(error),
    };
    match cut {
        Ok(()) => Ok(()),
        Err(error) => Err(fault_of(&error)),
    }
}
