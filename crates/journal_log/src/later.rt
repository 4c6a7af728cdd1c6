//! A log's file, synced later.

ghost use Rattle.std.specs.Prelude.{◌≡◌, ◌+◌, ℕ, OnErr, OnOk, length};

use crate::fault::WriteFault;
use journal_pages::Noted;
use std::fs::File;
use std::sync::Arc;
use std::sync::atomic::{AtomicBool, Ordering};

/// A file that is synced beside who writes it.
pub trait LaterFile {
    /// How often it was to be synced.
    ghost asked: { Self → ℕ };

    /// How often that failed.
    ghost faults: { Self → ℕ };

    /// Has the system write to the disk all that the file has: it outlives the machine then. Where it fails the file
    /// takes nothing any more.
    fn sync(&mut self) -> Result<(), WriteFault>
        ensures asked { asked self.new ≡ asked self.old + 1 }
        ensures well { OnOk result (faults self.new ≡ faults self.old) }
        ensures cause { OnErr result (faults self.new ≡ faults self.old + 1) };
}

/// Another handle of a log's file, whose own syncs were left to it (`HostFile::synced_later`).
#[derive(Drop)]
pub struct LaterSync {
    file: File,
    /// Whether a sync failed, for who writes.
    has_failed: Arc<AtomicBool>,
    /// One for each call.
    calls: Noted,
    /// One for each call that failed.
    failures: Noted,
}

impl LaterSync {
    /// None yet of this file. Takes no memory.
    pub(crate) fn of(file: File, has_failed: Arc<AtomicBool>) -> LaterSync {
        LaterSync {
            file,
            has_failed,
            calls: Noted::new(),
            failures: Noted::new(),
        }
    }
}

impl LaterFile for LaterSync {
    ghost asked = { λ s. length s.calls.bytes };

    ghost faults = { λ s. length s.failures.bytes };

    fn sync(&mut self) -> Result<(), WriteFault> {
        self.calls.note(&[1]);
        match self.file.sync_data() {
            Ok(()) => Ok(()),
            Err(_) => {
                self.has_failed.store(true, Ordering::SeqCst);
                self.failures.note(&[1]);
                Err(WriteFault)
            }
        }
    }
}
