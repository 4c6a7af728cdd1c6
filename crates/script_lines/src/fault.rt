//! Why a line can't be read.

ghost use Rattle.std.specs.Prelude.{◌≡◌};
ghost use Rattle.script_lines.specs.declared.fault.LineFault.TheVariants.{NoMemory};

use std::alloc::{AllocError, AllocFailed};

/// Why a line asks for nothing that can be done.
#[derive(Clone, Copy, Debug, PartialEq, Eq)]
pub enum LineFault {
    /// Memory ran out.
    NoMemory,
    /// It is no line of a script.
    NotUnderstood,
}

impl From<AllocError> for LineFault {
    ghost from_gives = { λ _ fault. fault ≡ NoMemory };

    fn from(_error: AllocError) -> LineFault {
        LineFault::NoMemory
    }
}

impl<T: Drop> From<AllocFailed<T>> for LineFault {
    ghost from_gives = { λ _ fault. fault ≡ NoMemory };

    fn from(_error: AllocFailed<T>) -> LineFault {
        LineFault::NoMemory
    }
}
