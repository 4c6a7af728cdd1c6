//! A day, as it is shown.

ghost use Rattle.std.specs.Prelude.{◌≡◌, ◌-◌, drop, map};
ghost use Rattle.status_page.specs.Page as page;
ghost use Rattle.status_page.specs.Words as spec;

use gateway_watch::Shown;

/// How long a board may stay as it is, in milliseconds, before that is an alarm. It is put anew each second.
const LONGEST_AGE: u64 = 5_000;

/// What a day's gateway, clients and ports are called, and when the day began and ends. It has neither a password nor a
/// user.
#[derive(Drop)]
pub struct DayNames {
    /// The gateway's own name.
    pub gateway: Vec<u8>,
    /// The names of the clients, in the order of the settings.
    pub clients: Vec<Vec<u8>>,
    /// The addresses of the ports, in the order of the settings.
    pub ports: Vec<Vec<u8>>,
    /// Milliseconds since 1970, UTC.
    pub begun: u64,
    /// Likewise; `None` where the day ends when it is told to.
    pub ends: Option<u64>,
}

/// How old what is shown is, in milliseconds.
pub(crate) fn age_of(shown: &Shown, now: u64) -> u64
    ensures { result ≡ now - shown.now.at }
{
    now.saturating_sub(shown.at)
}

/// Whether what is shown is older than it may be, or nothing is where something has to be.
pub(crate) fn is_late(names: &DayNames, shown: &Option<Shown>, now: u64) -> bool
    ensures { result ≡ spec.is_late names.now shown.now now }
{
    match shown {
        Some(shown) => now.saturating_sub(shown.at) > LONGEST_AGE,
        None => now.saturating_sub(names.begun) > LONGEST_AGE,
    }
}

/// The first name; empty where there are no more.
pub fn first_name(names: &[Vec<u8>]) -> &[u8]
    ensures { result.now ≡ page.first_name (map (λ v. v.items) names.now) }
{
    match names {
        [name, ..] => name.as_slice(),
        [] => b"",
    }
}

/// The names behind the first.
pub fn other_names(names: &[Vec<u8>]) -> &[Vec<u8>]
    ensures { map (λ v. v.items) result.now ≡ drop 1 (map (λ v. v.items) names.now) }
{
    match names {
        [_, names @ ..] => names,
        [] => names,
    }
}
