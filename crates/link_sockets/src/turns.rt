//! The pause before a line is opened again.

use std::sync::atomic::{AtomicBool, Ordering};
use std::thread;
use std::time::{Clock, Duration};

/// How many times a pause of a second checks whether the line has ended.
const LOOKS: u32 = 100;

fn look() -> Duration {
    Duration::from_millis(10)
}

/// Waits for a second, or until the line has ended, if that is sooner.
pub(crate) fn wait_a_second<R: Clock>(rt: &R, is_over: &AtomicBool) {
    for _ in 0..LOOKS {
        if is_over.load(Ordering::SeqCst) {
            return;
        }
        thread::sleep(rt, look());
    }
}
