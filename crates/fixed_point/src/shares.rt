//! A number of shares.

ghost use Rattle.std.specs.Prelude.{◌≡◌, ◌≤◌, ◌↔◌, IsSome, IfSome};
ghost use Rattle.fixed_point.specs.Decimal.{most_shares};

use std::marker::Model;
use wire_law::MOST_SHARES;

/// A number of shares, from `Shares::LEAST` to `Shares::MOST`. Contracts see the number.
///
/// Source: OUCH 4.2, "Enter Order Message", shares: more than 0 and below 1,000,000.
#[derive(Clone, Copy, Debug, PartialEq, Eq)]
pub struct Shares {
    count: u32,
}

impl Model for Shares {
    ghost use Rattle.std.specs.Prelude.{ℕ, ◌≤◌};
    ghost use Rattle.fixed_point.specs.Decimal.{most_shares};

    ghost Value = { ℕ };

    ghost view = { λ shares. shares.count };

    ghost invariant = { λ shares. (1 ≤ shares.count) × (shares.count ≤ most_shares) };

    ghost inverse = { λ n. record { count = n } };
}

impl Shares {
    /// The least number of shares.
    pub const LEAST: u32 = 1;

    /// The greatest number of shares.
    pub const MOST: u32 = MOST_SHARES;

    /// That many shares, which the caller knows to be in range. Takes no memory.
    pub fn new(count: u32) -> Self
        requires least { 1 ≤ count }
        requires most { count ≤ most_shares }
        ensures { result ≡ count }
    {
        Shares { count }
    }

    /// That many shares; `None` below `Shares::LEAST` and above `Shares::MOST`. Takes no memory.
    pub fn of(count: u32) -> Option<Self>
        ensures in_range { IsSome result ↔ ((1 ≤ count) × (count ≤ most_shares)) }
        ensures value { IfSome result (λ shares. shares ≡ count) }
    {
        if count < Shares::LEAST {
            return None;
        }
        if count > Shares::MOST {
            return None;
        }
        Some(Shares::new(count))
    }

    /// How many shares they are. Takes no memory.
    pub fn count(self) -> u32
        ensures value { result ≡ self }
        ensures least { 1 ≤ result }
        ensures most { result ≤ most_shares }
    {
        self.count
    }
}
