//! Whether the process stood still a moment ago.

ghost use Rattle.std.specs.Prelude.{◌≡◌};
ghost use Rattle.gateway_watch.specs.Standstills as spec;

/// Rounds of ticks are some 100 ms apart. Where more than this many milliseconds lie between two, the process stood
/// still: it was stopped, or its machine was.
const LONGEST_ROUND: u64 = 1_000;

/// For so many milliseconds behind a standstill no tick goes through: readers take first what their sockets have held.
const FOR_READERS: u64 = 1_000;

/// What is known of a process by the moments of its ticks, in milliseconds since 1970.
#[derive(Clone, Copy, Debug, PartialEq, Eq)]
pub struct Standstill {
    /// The moment of the last tick; 0 before the first.
    pub last: u64,
    /// Until when no tick goes through.
    pub until: u64,
}

impl Standstill {
    /// Before the first tick. Takes no memory.
    pub fn new() -> Standstill
        ensures { result ≡ spec.begun }
    {
        Standstill { last: 0, until: 0 }
    }

    /// What is known behind a tick of this moment. While none goes through another standstill isn't looked for: so a
    /// machine so slow that each round takes as long as one has ticks nevertheless, in every other round.
    pub fn after(self, at: u64) -> Standstill
        ensures { result ≡ spec.after self at }
    {
        let Standstill { last, until } = self;
        let latest = last.saturating_add(LONGEST_ROUND);
        if last != 0 && until <= last && latest < at {
            Standstill {
                last: at,
                until: at.saturating_add(FOR_READERS),
            }
        } else {
            Standstill { last: at, until }
        }
    }

    /// Whether its last tick goes through.
    pub fn lets_through(self) -> bool
        ensures { result ≡ spec.lets_through self }
    {
        self.until <= self.last
    }
}
