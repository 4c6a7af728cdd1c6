//! What is asked of a day that is served, and what is known of it.

use gateway_watch::StatusBoard;
use std::alloc::{AllocError, Global};
use std::sync::atomic::{AtomicBool, Ordering};

/// What is asked of a day that is served, by whoever may ask it, whether it is over, and how all stood last.
#[derive(Drop)]
pub struct DayControl {
    is_ending: AtomicBool,
    is_hurried: AtomicBool,
    is_over: AtomicBool,
    /// For each client, whether its link is to end.
    links: Vec<AtomicBool>,
    board: StatusBoard,
}

impl DayControl {
    /// Of a day with so many clients of which nothing is asked yet.
    pub fn new(alloc: Global, clients: usize) -> Result<DayControl, AllocError> {
        Ok(DayControl {
            is_ending: AtomicBool::new(false),
            is_hurried: AtomicBool::new(false),
            is_over: AtomicBool::new(false),
            links: flags_of(alloc, clients)?,
            board: StatusBoard::new(),
        })
    }

    /// Asks that the day be ended, once the market's answers were awaited for a while.
    pub fn end(&self) {
        self.is_ending.store(true, Ordering::SeqCst);
    }

    /// Asks that the day be ended at once.
    pub fn end_now(&self) {
        self.is_hurried.store(true, Ordering::SeqCst);
        self.is_ending.store(true, Ordering::SeqCst);
    }

    /// Whether the day is to be ended.
    pub fn is_ending(&self) -> bool {
        self.is_ending.load(Ordering::SeqCst)
    }

    /// Whether it is to be ended at once.
    pub fn is_hurried(&self) -> bool {
        self.is_hurried.load(Ordering::SeqCst)
    }

    /// Asks that the link of the client of this number, from 1, be ended, where it has one.
    pub fn disconnect(&self, client: u16) {
        if let Some(flag) = self.link(usize::from(client).saturating_sub(1)) {
            flag.store(true, Ordering::SeqCst);
        }
    }

    /// Asks that each client's link be ended.
    pub fn end_links(&self) {
        for flag in &self.links {
            flag.store(true, Ordering::SeqCst);
        }
    }

    /// Whether the link of the client at this place, from 0, is to end; `None` where there is no such client.
    pub fn link(&self, place: usize) -> Option<&AtomicBool> {
        self.links.get(place)
    }

    /// How all stood last.
    pub fn board(&self) -> &StatusBoard {
        &self.board
    }

    /// Says that the day is over: the endpoint's threads end.
    pub fn close(&self) {
        self.is_over.store(true, Ordering::SeqCst);
    }

    /// Whether the day is over.
    pub fn is_over(&self) -> bool {
        self.is_over.load(Ordering::SeqCst)
    }
}

/// So many flags that aren't set.
fn flags_of(alloc: Global, count: usize) -> Result<Vec<AtomicBool>, AllocError> {
    let mut flags = Vec::new(alloc);
    for _ in 0..count {
        flags.push(AtomicBool::new(false))?;
    }
    Ok(flags)
}
