//! Why fields are no message.

ghost use Rattle.std.specs.Prelude.{◌≡◌};
ghost use Rattle.fix_values.specs.declared.refusal.TextFault.TheVariants.{NoMemory};

use fix_fields::SessionRefusal;
use std::alloc::{AllocError, AllocFailed};
use thiserror::Error;

/// Why fields weren't read as a message.
#[derive(Clone, Copy, Debug, PartialEq, Eq, Drop, Error)]
pub enum TextFault {
    #[error("out of memory")]
    NoMemory,
    #[error("a field is missing or has another format")]
    Refused(SessionRefusal),
}

impl From<AllocError> for TextFault {
    ghost from_gives = { λ _ fault. fault ≡ NoMemory };

    fn from(_error: AllocError) -> TextFault {
        TextFault::NoMemory
    }
}

impl<T: Drop> From<AllocFailed<T>> for TextFault {
    ghost from_gives = { λ _ fault. fault ≡ NoMemory };

    fn from(_error: AllocFailed<T>) -> TextFault {
        TextFault::NoMemory
    }
}
