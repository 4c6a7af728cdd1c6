//! What can fail.

ghost use Rattle.std.specs.Prelude.{◌≡◌};
ghost use Rattle.journal_log.specs.declared.fault.LogFault.TheVariants.{Failed, NoMemory};

use std::alloc::AllocError;
use thiserror::Error;

/// A file could not be written, or not be made durable.
#[derive(Clone, Copy, Debug, PartialEq, Eq, Drop, Error)]
#[error("write failed")]
pub struct WriteFault;

/// Why a page isn't in a log.
#[derive(Clone, Copy, Debug, PartialEq, Eq, Drop, Error)]
pub enum LogFault {
    /// The file couldn't be written or not be made durable, now or earlier. The log writes nothing any more: the system
    /// may have dropped what it was given, and answer the next call with success.
    #[error("write failed")]
    Failed,
    /// The log has its end: the day is over.
    #[error("the day is over")]
    Ended,
    /// Memory ran out before anything was written. The log is as it was.
    #[error("out of memory")]
    NoMemory,
}

impl From<WriteFault> for LogFault {
    ghost from_gives = { λ _ fault. fault ≡ Failed };

    fn from(_fault: WriteFault) -> LogFault {
        LogFault::Failed
    }
}

impl From<AllocError> for LogFault {
    ghost from_gives = { λ _ fault. fault ≡ NoMemory };

    fn from(_error: AllocError) -> LogFault {
        LogFault::NoMemory
    }
}
