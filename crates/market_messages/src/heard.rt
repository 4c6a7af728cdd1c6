//! The result of a message on an order.

ghost use Rattle.std.specs.Prelude.{◌≡◌, ◌≤◌, length};
ghost use Rattle.market_messages.specs.declared.heard.RowFault.TheVariants.{NoMemory};

use fix_types::AppBody;
use orders::Change;
use std::alloc::{AllocError, AllocFailed};
use thiserror::Error;

/// The result of a message that is lawful of an order.
#[derive(Drop)]
pub struct Heard {
    /// What it changes of the order.
    pub change: Change,
    /// The bodies for its client, in order: six at most, or none.
    pub bodies: Vec<AppBody>,
    ghost few: { length bodies.items ≤ 6 },
}

/// Why a message isn't handled.
#[derive(Clone, Copy, Debug, PartialEq, Eq, Drop, Error)]
pub enum RowFault {
    #[error("out of memory")]
    NoMemory,
    #[error("a message that is not lawful here")]
    NotLawful,
}

impl From<AllocError> for RowFault {
    ghost from_gives = { λ _ fault. fault ≡ NoMemory };

    fn from(_error: AllocError) -> RowFault {
        RowFault::NoMemory
    }
}

impl<T: Drop> From<AllocFailed<T>> for RowFault {
    ghost from_gives = { λ _ fault. fault ≡ NoMemory };

    fn from(_error: AllocFailed<T>) -> RowFault {
        RowFault::NoMemory
    }
}
