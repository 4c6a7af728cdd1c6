//! Times of day, in UTC.

ghost use Rattle.std.specs.Prelude.{◌≡◌, ◌<◌, ◌≤◌, ◌+◌, ◌%◌, ◌^◌};

/// Milliseconds of a day. (UTC as the system has it knows no leap second.)
pub(crate) const A_DAY: u64 = 86_400_000;

/// The first moment behind `now`, in milliseconds since 1970, at which it is this time of day, in milliseconds since
/// midnight.
pub fn next_at(now: u64, time: u64) -> u64
    requires time { time < 86400000 }
    requires now { now < 2 ^ 63 }
    ensures time { result % 86400000 ≡ time }
    ensures later { now < result }
    ensures soon { result ≤ now + 86400000 }
{
    let passed = now % A_DAY;
    let midnight = now - passed;
    if passed < time {
        midnight + time
    } else {
        midnight + A_DAY + time
    }
}
