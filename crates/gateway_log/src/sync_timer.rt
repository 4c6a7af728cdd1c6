//! When a journal's file is synced, where that isn't with each write.

ghost use Rattle.std.specs.Prelude.{◌≡◌, ◌+◌, ◌<◌, ◌≤◌, true, false};

use journal_log::LaterFile;

/// Has a journal's file synced each so many milliseconds.
#[derive(Drop)]
pub struct SyncTimer<F> {
    file: F,
    /// So many milliseconds lie between two syncs.
    every: u64,
    /// When the next one is due, by the clock.
    next: u64,
    /// A sync failed: there is no further one.
    has_failed: bool,
}

impl<F: LaterFile> SyncTimer<F> {
    /// Of this file, each so many milliseconds, the first time at once. Takes no memory.
    pub fn each(file: F, every: u64) -> SyncTimer<F>
        ensures file { result.file ≡ file }
        ensures at_once { result.next ≡ 0 }
        ensures goes_on { result.has_failed ≡ false }
    {
        SyncTimer {
            file,
            every,
            next: 0,
            has_failed: false,
        }
    }

    /// Syncs the file, where it is due at this moment, in milliseconds of the clock. The answer says whether a sync has
    /// failed; it is never tried again.
    pub fn look(&mut self, now: u64) -> bool
        ensures due { self.old.has_failed ≡ false → self.old.next ≤ now
            → F.asked self.new.file ≡ F.asked self.old.file + 1 }
        ensures failed { F.faults self.old.file < F.faults self.new.file → result ≡ true }
        ensures lasts { self.old.has_failed ≡ true → (result ≡ true) × (self.new ≡ self.old) }
        ensures kept { self.new.has_failed ≡ result }
    {
        if self.has_failed {
            return true;
        }
        if now < self.next {
            return false;
        }
        self.next = now.saturating_add(self.every);
        match self.file.sync() {
            Ok(()) => false,
            Err(_) => {
                self.has_failed = true;
                true
            }
        }
    }
}
