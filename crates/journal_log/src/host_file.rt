//! A file of the system as a log's file.
//!
//! Its clauses speak of the bytes that its calls were given and answered for. What they can't see, and is trusted: that
//! `append` writes these bytes and `sync` has the system write them to the disk, which are one line each here; and that
//! what the system answers is so. Where syncing is left for later, `sync` asks nothing of the disk: there a crash is
//! one of the process alone, which all that the system was given outlives.

ghost use Rattle.std.specs.Prelude.{◌≡◌, ◌≤◌, List, ℕ, length};
ghost use Rattle.journal_log.specs.Left.{IsLeft};

use crate::fault::WriteFault;
use crate::file::LogFile;
use crate::host_fault::{OpenFault, fault_of};
use crate::later::LaterSync;
use journal_pages::Noted;
use std::alloc::Global;
use std::fs::File;
use std::io::Write;
use std::sync::Arc;
use std::sync::atomic::{AtomicBool, Ordering};

/// A file that is open to be added to, with what it has as it was noted.
#[derive(Drop)]
pub struct HostFile {
    file: File,
    noted: Noted,
    /// One for each call that failed.
    failures: Noted,
    /// How many bytes it has.
    size: u64,
    /// How many of them are durable.
    durable: u64,
    /// Whether a later sync failed, where syncing is left for later.
    later: Option<Arc<AtomicBool>>,
    ghost counted: { size ≡ length noted.bytes },
    ghost fewer: { durable ≤ size },
}

impl HostFile {
    /// A file that has the bytes that were noted, so many, all of them durable, which is trusted.
    pub(crate) fn with(file: File, noted: Noted, size: u64) -> HostFile
        requires { size ≡ length noted.bytes }
        ensures noted { result.noted.bytes ≡ noted.bytes }
        ensures durable { result.durable ≡ length noted.bytes }
    {
        HostFile {
            file,
            noted,
            failures: Noted::new(),
            size,
            durable: size,
            later: None,
        }
    }

    /// How many bytes it has. Takes no memory.
    pub fn size(&self) -> u64
        ensures { result ≡ length self.now.noted.bytes }
    {
        self.size
    }

    /// Whether a later sync failed.
    fn has_failed_later(&self) -> bool {
        match &self.later {
            Some(has_failed) => has_failed.load(Ordering::SeqCst),
            None => false,
        }
    }

    /// Has the system write all to the disk, unless that is left for later.
    fn written(&self) -> Result<(), WriteFault> {
        if self.has_failed_later() {
            return Err(WriteFault);
        }
        if self.later.is_some() {
            return Ok(());
        }
        match self.file.sync_data() {
            Ok(()) => Ok(()),
            Err(_) => Err(WriteFault),
        }
    }
}

impl HostFile {
    ghost use Rattle.std.specs.Prelude.{IfOk};
    ghost use Rattle.journal_log.specs.Whole.{IsSameFile};

    /// Leaves syncing for later: from now on `sync` asks nothing of the disk. What it answers for outlives the process,
    /// and the machine only once the other handle, which comes beside, has synced it. Once that fails each call of the
    /// file fails. `Failed` where there is no further handle.
    pub fn synced_later(self, alloc: Global) -> Result<(HostFile, LaterSync), OpenFault>
        ensures { IfOk result (λ both. IsSameFile self both.0) }
    {
        let other = match self.file.try_clone() {
            Ok(other) => other,
            Err(error) => return Err(fault_of(&error)),
        };
        let Ok(ours) = Arc::new(alloc, AtomicBool::new(false)) else {
            return Err(OpenFault::NoMemory);
        };
        let Ok(theirs) = Arc::try_clone(&ours) else {
            return Err(OpenFault::NoMemory);
        };
        Ok((self.with_later(ours), LaterSync::of(other, theirs)))
    }

    /// The same file, whose syncs are left for later.
    fn with_later(self, has_failed: Arc<AtomicBool>) -> HostFile
        ensures { IsSameFile self result }
    {
        let mut file = self;
        file.later = Some(has_failed);
        file
    }
}

impl LogFile for HostFile {
    ghost seen = { λ f. f.noted.bytes };

    ghost may_leave = { λ f c. IsLeft f.durable f.noted.bytes c };

    ghost faults = { λ f. length f.failures.bytes };

    fn append(&mut self, bytes: &[u8]) -> Result<(), WriteFault> {
        if self.has_failed_later() {
            self.failures.note(&[1]);
            return Err(WriteFault);
        }
        let Some(size) = self.size.checked_add(bytes.len() as u64) else {
            self.failures.note(&[1]);
            return Err(WriteFault);
        };
        self.noted.note(bytes);
        self.size = size;
        match self.file.write_all(bytes) {
            Ok(()) => Ok(()),
            Err(_) => {
                self.failures.note(&[1]);
                Err(WriteFault)
            }
        }
    }

    fn sync(&mut self) -> Result<(), WriteFault> {
        match self.written() {
            Ok(()) => {
                self.durable = self.size;
                Ok(())
            }
            Err(_) => {
                self.failures.note(&[1]);
                Err(WriteFault)
            }
        }
    }
}
