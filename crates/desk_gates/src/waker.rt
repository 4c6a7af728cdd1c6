//! The clock of a writer.

use desk::{DeskName, Shared};
use gate_workers::Clock;
use std::hash::{BuildHasher, BuildHasherDefault, FoldHasher};
use std::sync::Wait;
use std::time::{self, Duration};

/// The system's time; a pause ends when its outlet is woken, and after a fixed length at the latest.
#[derive(Drop)]
pub struct WakerClock<'a, K: DeskName, R, S: BuildHasher + Drop = BuildHasherDefault<FoldHasher>> {
    rt: &'a R,
    shared: &'a Shared<K, S>,
    outlet: usize,
    longest: Duration,
    last: u64,
}

impl<'a, K: DeskName, R: Wait + time::Clock, S: BuildHasher + Drop> WakerClock<'a, K, R, S> {
    /// The clock of this outlet's writer. Takes no memory.
    pub fn new(
        rt: &'a R,
        shared: &'a Shared<K, S>,
        outlet: usize,
        longest: Duration,
    ) -> WakerClock<'a, K, R, S> {
        WakerClock {
            rt,
            shared,
            outlet,
            longest,
            last: 0,
        }
    }
}

impl<'a, K: DeskName, R: Wait + time::Clock, S: BuildHasher + Drop> Clock
    for WakerClock<'a, K, R, S> {
    ghost use Rattle.std.specs.Prelude.{None};

    ghost reported = { λ _. None };

    /// The system's moment; the last one given if the system's is earlier or can't be read.
    fn now_ms(&mut self) -> u64 {
        if let Ok(since) = self.rt.since_1970() {
            let now = u64::try_from(since.as_millis()).unwrap_or(u64::MAX);
            self.last = self.last.max(now);
        }
        self.last
    }

    /// Until its outlet is woken, at the latest until the outlet's own moment of the current span: a span is `longest`,
    /// and the outlets' moments follow one another in it.
    fn pause(&mut self) {
        let most = match self.rt.since_1970() {
            Ok(since) => until_own_moment(since, self.longest, self.outlet),
            Err(_) => self.longest,
        };
        self.shared.nap(self.rt, self.outlet, most);
    }
}

/// How many outlets have moments of their own in a span: those of the most clients and ports.
const MOMENTS: u32 = 80;

/// How long it is until an outlet's next own moment, for spans of this length: never longer than a span, and just a
/// span if it is a second or more.
fn until_own_moment(now: Duration, span: Duration, outlet: usize) -> Duration {
    let nanos = span.subsec_nanos();
    if span.as_secs() != 0 || nanos == 0 {
        return span;
    }
    let place = (outlet % MOMENTS as usize) as u32;
    let own = nanos / MOMENTS * place;
    let left = nanos - (now.subsec_nanos() + own) % nanos;
    Duration::from_nanos(u64::from(left))
}
