//! Why reports aren't read.

ghost use Rattle.std.specs.Prelude.{◌≡◌};
ghost use Rattle.order_accounts.specs.declared.reading_fault.ReadingFault.TheVariants.{NoMemory};

use std::alloc::{AllocError, AllocFailed};
use thiserror::Error;

/// Why the reports of an order weren't read.
#[derive(Clone, Copy, Debug, PartialEq, Eq, Drop, Error)]
pub enum ReadingFault {
    #[error("out of memory")]
    NoMemory,
    /// A number of the reports, or a sum of them, is larger than its integer holds: 32 bits for what is open, 128
    /// bits for every other.
    #[error("a number is too large")]
    TooLarge,
}

impl From<AllocError> for ReadingFault {
    ghost from_gives = { λ _ fault. fault ≡ NoMemory };

    fn from(_error: AllocError) -> ReadingFault {
        ReadingFault::NoMemory
    }
}

impl<T: Drop> From<AllocFailed<T>> for ReadingFault {
    ghost from_gives = { λ _ fault. fault ≡ NoMemory };

    fn from(_error: AllocFailed<T>) -> ReadingFault {
        ReadingFault::NoMemory
    }
}
