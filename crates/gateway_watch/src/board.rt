//! A board that one thread writes and others read.

use desk_steps::Status;
use std::sync::{Mutex, MutexGuard, Wait};

/// How all stood, and when that was.
#[derive(Drop)]
pub struct Shown {
    /// All of it is of one moment, by its type.
    pub status: Status,
    /// Milliseconds since 1970, UTC.
    pub at: u64,
}

/// A board: how all stood last, or nothing at first.
#[derive(Drop)]
pub struct StatusBoard {
    shown: Mutex<Option<Shown>>,
}

impl StatusBoard {
    /// A board with nothing on it. Takes no memory.
    pub fn new() -> StatusBoard {
        StatusBoard {
            shown: Mutex::new(None),
        }
    }

    /// Puts onto the board how all stood at a moment. While somebody reads it it stays as it is: then the answer is
    /// `false`, and nobody is waited for.
    pub fn put(&self, status: Status, at: u64) -> bool {
        match self.shown.try_lock() {
            Some(mut guard) => {
                let shown = &mut *guard;
                *shown = Some(Shown { status, at });
                true
            }
            None => false,
        }
    }

    /// What is on the board, which stays as it is for as long as it is looked at.
    pub fn look(&self, rt: &impl Wait) -> MutexGuard<'_, Option<Shown>> {
        self.shown.lock(rt)
    }
}
