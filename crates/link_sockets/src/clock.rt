//! The clock of a worker: the system's time, and a pause.

use gate_workers::Clock;
use std::thread;
use std::time::{self, Duration};

/// The system's time, and a sleep of a fixed length.
#[derive(Drop)]
pub struct SystemClock<'a, R> {
    rt: &'a R,
    last: u64,
    pause: Duration,
}

impl<'a, R: time::Clock> SystemClock<'a, R> {
    /// A clock whose pauses last this long. Takes no memory.
    pub fn new(rt: &'a R, pause: Duration) -> SystemClock<'a, R> {
        SystemClock { rt, last: 0, pause }
    }
}

impl<'a, R: time::Clock> Clock for SystemClock<'a, R> {
    ghost use Rattle.std.specs.Prelude.{None};

    ghost reported = { λ _. None };

    /// The system's moment; the last one given if the system's is earlier or can't be read.
    fn now_ms(&mut self) -> u64 {
        if let Ok(since) = self.rt.since_1970() {
            let now = u64::try_from(since.as_millis()).unwrap_or(u64::MAX);
            self.last = self.last.max(now);
        }
        self.last
    }

    fn pause(&mut self) {
        thread::sleep(self.rt, self.pause);
    }
}
