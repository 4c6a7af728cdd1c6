//! What is told of memory that is refused, as it comes and as it goes.

use crate::link_log::{LinkLog, Whose};
use std::fmt;
use std::fmt::{Display, Formatter};
use std::time::Clock;

/// Tells once that events wait for memory, and once that they don't any more.
#[derive(Drop)]
pub struct MemoryWatch<'a, R> {
    link_log: LinkLog<'a, R>,
    /// Since when memory is refused, in milliseconds since 1970.
    since: Option<u64>,
}

impl<'a, R: Clock + Eprint> MemoryWatch<'a, R> {
    /// Memory is there. Takes none.
    pub fn new(rt: &'a R) -> MemoryWatch<'a, R> {
        MemoryWatch {
            link_log: LinkLog::new(rt, Whose::Gateway),
            since: None,
        }
    }

    /// Memory is refused at this moment, or it isn't.
    pub fn look(&mut self, is_refused: bool, now: u64) {
        match self.since {
            None if is_refused => {
                self.since = Some(now);
                self.link_log.log("out of memory: events wait");
            }
            Some(since) if !is_refused => {
                self.since = None;
                self.link_log.log_of(&IsBack(now.saturating_sub(since)));
            }
            _ => {}
        }
    }
}

/// That memory is back, after so many milliseconds.
#[derive(Drop)]
struct IsBack(u64);

impl Display for IsBack {
    fn fmt<W: fmt::Write>(&self, f: &mut Formatter<W>) -> fmt::Result {
        let (seconds, tenths) = (self.0 / 1000, self.0 % 1000 / 100);
        write!(f, "memory is back after {seconds}.{tenths} s")
    }
}
