//! Why a text says no amount.

ghost use Rattle.std.specs.Prelude.{◌≡◌};
ghost use Rattle.fixed_point.specs.Refusal.{decimal_refusal_number};

use thiserror::Error;

/// Why a text is refused: the first of these that holds, in this order.
#[derive(Clone, Copy, Debug, PartialEq, Eq, Drop, Error)]
pub enum DecimalRefusal {
    /// Not an optional `-` and then digits with at most one point and at least one digit.
    #[error("not a float")]
    NotFloat,
    /// Finer than the unit: not a whole number of 1/10,000, or of shares.
    #[error("not exact")]
    NotExact,
    /// Below the least amount, or above the greatest.
    #[error("out of range")]
    OutOfRange,
}

impl DecimalRefusal {
    /// The refusal's number: 1 `NotFloat`, 2 `NotExact`, 3 `OutOfRange`. Takes no memory.
    pub fn number(self) -> u8
        ensures { result ≡ decimal_refusal_number self }
    {
        match self {
            DecimalRefusal::NotFloat => 1,
            DecimalRefusal::NotExact => 2,
            DecimalRefusal::OutOfRange => 3,
        }
    }
}
