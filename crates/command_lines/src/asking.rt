//! What a command line asks for.

ghost use Rattle.std.specs.Prelude.{◌≡◌, ◌≤◌, IfSome, option_map};
ghost use Rattle.command_lines.specs.Command as spec;

use wire_bytes::{are_digits, number_of};

/// What a command line asks for.
#[derive(Clone, Copy)]
pub enum Asked<'a> {
    /// The audit of the script in this file.
    Audit(&'a str),
    /// The audit of the day that a journal's file keeps, by the settings in a file.
    AuditDay {
        /// The journal's file.
        journal: &'a str,
        /// The settings' file.
        settings: &'a str,
        /// Whether a day that goes on is audited, too.
        so_far: bool,
    },
    /// The day of the script in this file, as a journal.
    Keep(&'a str),
    /// A gateway by the settings in a file.
    Run {
        /// The settings' file.
        settings: &'a str,
        /// How many links of each client are served, as it was said.
        links: Option<&'a str>,
        /// The file that the day's journal is written to.
        journal: Option<&'a str>,
        /// When that is synced, as it was said.
        sync: Option<&'a str>,
    },
    /// A gateway by the settings in a file, until it is told to end.
    Serve {
        /// The settings' file.
        settings: &'a str,
        /// The file that the day's journal is written to.
        journal: Option<&'a str>,
        /// When that is synced, as it was said.
        sync: Option<&'a str>,
    },
    /// The end of the gateway that is served by the settings in a file.
    End {
        /// The settings' file.
        settings: &'a str,
        /// Whether it ends at once, and doesn't await the market's answers for a while.
        at_once: bool,
    },
    /// The end of the day of a gateway that stopped, which a journal's file keeps, by the settings in a file.
    EndDay {
        /// The journal's file.
        journal: &'a str,
        /// The settings' file.
        settings: &'a str,
    },
    /// The messages of the day that a journal's file keeps.
    Export {
        /// The journal's file.
        journal: &'a str,
        /// The form, as it was said.
        format: Option<&'a str>,
    },
    /// The demonstration.
    Demo,
    /// The demonstration, until it is told to end.
    ServedDemo,
    /// The closed world of a seed.
    World {
        /// The seed, as it was said.
        seed: &'a str,
        /// How many steps are drawn, as it was said.
        steps: &'a str,
        /// How many clients there are, as it was said.
        clients: Option<&'a str>,
        /// How many ports there are, as it was said.
        ports: Option<&'a str>,
    },
}

/// When a journal's file is synced.
#[derive(Clone, Copy)]
pub enum Syncs {
    /// With each write, before anybody is told.
    Each,
    /// Each so many milliseconds.
    Every(u16),
    /// When the system does it by itself.
    Never,
}

/// When a journal's file is to be synced: `each`, also where nothing is said, `never`, or so many milliseconds, as
/// digits in front of `ms`, for 1 to 60,000. `None` of anything else.
pub fn syncs_of(said: Option<&str>) -> Option<Syncs>
    ensures { result ≡ spec.syncs_of (option_map (λ text. text.now) said.entry) }
{
    match said {
        None => Some(Syncs::Each),
        Some(text) => syncs_in(text),
    }
}

/// The same of what was said.
fn syncs_in(text: &str) -> Option<Syncs>
    ensures { result ≡ spec.syncs_in text.now }
{
    match text {
        "each" => Some(Syncs::Each),
        "never" => Some(Syncs::Never),
        _ => every_in(text.as_bytes()),
    }
}

/// The same of milliseconds.
fn every_in(text: &[u8]) -> Option<Syncs>
    ensures { result ≡ spec.every_in text.now }
{
    match text.strip_suffix(b"ms") {
        Some(digits) => every_of(digits),
        None => None,
    }
}

/// The same of their number.
fn every_of(digits: &[u8]) -> Option<Syncs>
    ensures { result ≡ spec.every_of digits.now }
{
    match number_in(digits, 1, 60_000) {
        Some(number) => Some(Syncs::Every(number as u16)),
        None => None,
    }
}

/// How many links of each client are to be served: digits, for 1 to 1,000, and 1 where nothing is said. `None` of
/// anything else.
pub fn links_of(said: Option<&str>) -> Option<u16>
    ensures { result ≡ spec.links_of (option_map (λ text. text.now) said.entry) }
{
    match said {
        None => Some(1),
        Some(digits) => links_in(digits.as_bytes()),
    }
}

/// The same of what was said.
fn links_in(digits: &[u8]) -> Option<u16>
    ensures { result ≡ spec.links_in digits.now }
{
    if !are_digits(digits) {
        return None;
    }
    match number_of(digits) {
        Some(number) if 1 <= number && number <= 1_000 => Some(number as u16),
        _ => None,
    }
}

/// A number that was said: digits, one at least, for one from the least to the most. `None` of anything else.
pub fn number_between(digits: &str, least: u64, most: u64) -> Option<u64>
    ensures number { result ≡ spec.number_between least most digits.now }
    ensures within { IfSome result (λ number. (least ≤ number) × (number ≤ most)) }
{
    number_in(digits.as_bytes(), least, most)
}

/// The same of the bytes.
fn number_in(digits: &[u8], least: u64, most: u64) -> Option<u64>
    ensures number { result ≡ spec.number_between least most digits.now }
    ensures within { IfSome result (λ number. (least ≤ number) × (number ≤ most)) }
{
    if digits.is_empty() {
        return None;
    }
    if !are_digits(digits) {
        return None;
    }
    match number_of(digits) {
        Some(number) if least <= number && number <= most => Some(number),
        _ => None,
    }
}
