//! How long it takes until a port is connected again.

ghost use Rattle.std.specs.Prelude.{◌≤◌};

use std::time::Duration;

/// The pause before a port is connected again, in seconds, behind so many tries in vain, or links that ended soon, one
/// after the other: 1, 2, 4 .. 32, and then 60.
pub fn pause_after(tries: u32) -> u64
    ensures least { 1 ≤ result }
    ensures most { result ≤ 60 }
{
    match tries {
        0 | 1 => 1,
        2 => 2,
        3 => 4,
        4 => 8,
        5 => 16,
        6 => 32,
        _ => 60,
    }
}

/// How long a link has to be up so that the next try comes after a second.
pub(crate) fn soon() -> Duration {
    Duration::from_secs(10)
}

/// How long a reason that stays the same isn't told again.
pub(crate) fn between_lines() -> Duration {
    Duration::from_secs(600)
}
