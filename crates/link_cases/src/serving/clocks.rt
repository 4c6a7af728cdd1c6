//! A clock over a system whose time goes back.

use gate_workers::Clock;
use link_sockets::SystemClock;
use std::alloc::{AllocError, Global};
use std::io;
use std::sync::atomic::{AtomicUsize, Ordering};
use std::time::{self, Duration};

/// A system that tells these moments, in milliseconds since 1970, one after the other, and then can't tell any.
#[derive(Drop)]
struct Moments {
    told: [u64; 4],
    next: AtomicUsize,
}

impl time::Clock for Moments {
    fn monotonic(&self) -> io::Result<Duration> {
        Ok(Duration::ZERO)
    }

    fn since_1970(&self) -> io::Result<Duration> {
        let next = self.next.fetch_add(1, Ordering::SeqCst);
        match self.told.get(next) {
            Some(moment) => Ok(Duration::from_millis(*moment)),
            None => Err(io::Error::from(io::ErrorKind::Unsupported)),
        }
    }
}

/// Shows six moments of a clock over a system that tells four.
pub fn show_clock(alloc: Global, shown: &mut Vec<u8>) -> Result<(), AllocError> {
    let system = Moments {
        told: [5_000, 3_000, 4_999, 6_001],
        next: AtomicUsize::new(0),
    };
    let mut clock = SystemClock::new(&system, Duration::from_millis(1));
    for _ in 0..6 {
        shown.extend_from_slice(format!(in alloc; "{}\n", clock.now_ms())?.as_bytes())?;
    }
    Ok(())
}
