//! A price with four decimals.

ghost use Rattle.std.specs.Prelude.{◌≡◌, ◌≤◌, ◌↔◌, IsSome, IfSome};
ghost use Rattle.fixed_point.specs.Decimal.{most_price};

use std::marker::Model;

/// A price in 1/10,000 of the currency unit, from `Price4::LEAST` to `Price4::MOST`. Contracts see the number.
///
/// Source: OUCH 4.2, "Data Types", price: four decimals, and $199,999.9900 at most.
#[derive(Clone, Copy, Debug, PartialEq, Eq)]
pub struct Price4 {
    units: u32,
}

impl Model for Price4 {
    ghost use Rattle.std.specs.Prelude.{ℕ, ◌≤◌};
    ghost use Rattle.fixed_point.specs.Decimal.{most_price};

    ghost Value = { ℕ };

    ghost view = { λ price. price.units };

    ghost invariant = { λ price. (1 ≤ price.units) × (price.units ≤ most_price) };

    ghost inverse = { λ n. record { units = n } };
}

impl Price4 {
    /// The least price, in 1/10,000.
    pub const LEAST: u32 = 1;

    /// The greatest price, in 1/10,000.
    pub const MOST: u32 = 1_999_999_900;

    /// The price of that many 1/10,000, which the caller knows to be one. Takes no memory.
    pub fn new(units: u32) -> Self
        requires least { 1 ≤ units }
        requires most { units ≤ most_price }
        ensures { result ≡ units }
    {
        Price4 { units }
    }

    /// The price of that many 1/10,000; `None` below `Price4::LEAST` and above `Price4::MOST`. Takes no memory.
    pub fn of(units: u32) -> Option<Self>
        ensures in_range { IsSome result ↔ ((1 ≤ units) × (units ≤ most_price)) }
        ensures value { IfSome result (λ price. price ≡ units) }
    {
        if units < Price4::LEAST {
            return None;
        }
        if units > Price4::MOST {
            return None;
        }
        Some(Price4::new(units))
    }

    /// How many 1/10,000 the price is. Takes no memory.
    pub fn units(self) -> u32
        ensures value { result ≡ self }
        ensures least { 1 ≤ result }
        ensures most { result ≤ most_price }
    {
        self.units
    }
}
