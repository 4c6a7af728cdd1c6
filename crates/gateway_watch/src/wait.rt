//! How long orders wait at a port.

ghost use Rattle.std.specs.Prelude.{◌≡◌};
ghost use Rattle.gateway_watch.specs.Waits as spec;

use crate::marks::passes;

/// How long orders wait at a port.
#[derive(Clone, Copy, Debug, PartialEq, Eq)]
pub struct PortWait {
    /// Since when, in milliseconds since 1970: the first look, of those one after the other, at which they did.
    pub since: u64,
    /// When it was looked last.
    pub seen: u64,
}

/// What is known of a wait after a look at this moment, at which orders wait or don't.
pub fn wait_after(before: Option<PortWait>, is_waiting: bool, now: u64) -> Option<PortWait>
    ensures { result ≡ spec.wait_after before is_waiting now }
{
    if !is_waiting {
        return None;
    }
    match before {
        Some(wait) => Some(PortWait {
            since: wait.since,
            seen: now,
        }),
        None => Some(PortWait {
            since: now,
            seen: now,
        }),
    }
}

/// Since when orders wait, where that is to be told at a look at this moment: since the look before it a mark was
/// passed. `None` where nothing is to be told.
pub fn due_since(before: Option<PortWait>, is_waiting: bool, now: u64) -> Option<u64>
    ensures { result ≡ spec.due_since before is_waiting now }
{
    if !is_waiting {
        return None;
    }
    match before {
        Some(wait) => due_of(wait, now),
        None => None,
    }
}

/// The same of orders that waited at the look before.
fn due_of(wait: PortWait, now: u64) -> Option<u64>
    ensures { result ≡ spec.due_of wait now }
{
    let PortWait { since, seen } = wait;
    if passes(seen.saturating_sub(since), now.saturating_sub(since)) {
        Some(since)
    } else {
        None
    }
}
