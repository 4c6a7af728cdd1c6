//! Who ends a day.

ghost use Rattle.std.specs.Prelude.{◌<◌, ◌^◌, IfSome};

use crate::day_flags::DayFlags;
use gateway_control::DayControl;
use operator_settings::{DaySettings, next_at};
use std::alloc::Global;
use std::sync::{Arc, Wait};
use std::thread;
use std::thread::{JoinHandle, Threads};
use std::time::{Clock, Duration};
use stderr_queue::LineQueue;

/// How often in a second it is looked whether the day is to end.
const LOOKS: u64 = 20;

/// A moment that no day reaches.
const FAR: u64 = 9_000_000_000_000_000_000;

fn look() -> Duration {
    Duration::from_millis(50)
}

/// A thread that ends a day where it is told to, or at its time: from then on no further link of a client is taken, and
/// once the market's answers were awaited for a while the links of clients end, and with the last of them those of
/// ports. `None` where no thread can be had.
pub(crate) fn end_in_time<R>(
    rt: &R,
    settings: DaySettings,
    control: Arc<DayControl>,
    flags: Arc<DayFlags>,
    lines: Arc<LineQueue>,
) -> Option<JoinHandle<()>>
where
    R: Threads + Wait + Clock + Copy + Send + Drop + 'static,
{
    let own = *rt;
    thread::spawn(rt, move || watch(&own, settings, &control, &flags, &lines)).ok()
}

/// Waits for the day's end, and ends it.
fn watch<R: Clock + Wait>(
    rt: &R,
    settings: DaySettings,
    control: &DayControl,
    flags: &DayFlags,
    lines: &LineQueue,
) {
    let end = end_of(rt, settings);
    let DaySettings { linger, .. } = settings;
    if !waits_for_the_end(rt, end, control, flags) {
        return;
    }
    if flags.is_over() {
        let _ = lines.tell(rt, "gateway: journal: write failed: nothing more is told");
        flags.end_clients();
        control.end_links();
        return;
    }
    let _ = lines.tell(rt, "gateway: the day ends: no further link is taken");
    flags.close();
    for _ in 0..linger * LOOKS {
        if control.is_hurried() || control.is_over() {
            break;
        }
        thread::sleep(rt, look());
    }
    flags.end_clients();
    control.end_links();
}

/// The first moment behind now at which the day ends by its time, in milliseconds since 1970; `None` where it ends when
/// it is told to.
pub(crate) fn end_of<R: Clock>(rt: &R, settings: DaySettings) -> Option<u64> {
    let DaySettings { ends, .. } = settings;
    match (ends, now(rt)) {
        (Some(time), Some(now)) => Some(next_at(now, time)),
        _ => None,
    }
}

/// Waits until the day is to end, by its time, since it is told to, or since its journal is lost; `false` where it is
/// over before.
fn waits_for_the_end<R: Clock>(
    rt: &R,
    end: Option<u64>,
    control: &DayControl,
    flags: &DayFlags,
) -> bool {
    for _ in 0..u64::MAX {
        if control.is_over() {
            return false;
        }
        if control.is_ending() || flags.is_over() || is_reached(rt, end) {
            return true;
        }
        thread::sleep(rt, look());
    }
    false
}

/// Whether a moment has come.
fn is_reached<R: Clock>(rt: &R, end: Option<u64>) -> bool {
    match (end, now(rt)) {
        (Some(end), Some(now)) => end <= now,
        _ => false,
    }
}

/// Now, in milliseconds since 1970; `None` where the system can't say, or is 285 million years from then.
pub(crate) fn now<R: Clock>(rt: &R) -> Option<u64>
    ensures { IfSome result (λ now. now < 2 ^ 63) }
{
    let since = rt.since_1970().ok()?;
    match u64::try_from(since.as_millis()) {
        Ok(now) if now < FAR => Some(now),
        _ => None,
    }
}
