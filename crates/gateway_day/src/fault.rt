//! Why a gateway could not run to its end.

ghost use Rattle.std.specs.Prelude.{◌≡◌};
ghost use Rattle.gateway_day.specs.Faults.{run_fault};
ghost use Rattle.gateway_day.specs.declared.fault.RunFault.TheVariants.{NoMemory};

use desk::ReplayFault;
use gate_serving::ServeFault;
use journal_file::ReadFault;
use journal_log::OpenFault;
use order_accounts::ReadingFault;
use std::alloc::AllocError;

/// Why a gateway could not run to its end.
#[derive(Clone, Copy, Debug, PartialEq, Eq)]
pub enum RunFault {
    /// Memory ran out where nothing can be served without it, or for ten seconds as the day was closed.
    NoMemory,
    /// A thread could not be had.
    NoThread,
    /// The batch of the event at this place of the journal, from 0, isn't the one that these settings, or this program,
    /// give.
    OtherDay(u64),
    /// The journal's file can't be read.
    Unread,
    /// The journal's file can't be cut, or not be made durable.
    Journal(OpenFault),
    /// A number of an order's account is larger than its integer holds.
    TooLarge,
    /// A link is up at the end of a day that nobody serves.
    LinkUp,
    /// The day isn't in memory, and its journal's file doesn't have it.
    NoDay,
}

impl From<AllocError> for RunFault {
    ghost from_gives = { λ _ fault. fault ≡ NoMemory };

    fn from(_: AllocError) -> RunFault {
        RunFault::NoMemory
    }
}

impl From<OpenFault> for RunFault {
    fn from(fault: OpenFault) -> RunFault {
        match fault {
            OpenFault::NoMemory => RunFault::NoMemory,
            fault => RunFault::Journal(fault),
        }
    }
}

impl From<ReplayFault> for RunFault {
    fn from(fault: ReplayFault) -> RunFault {
        match fault {
            ReplayFault::OtherDay(place) => RunFault::OtherDay(place),
            ReplayFault::Unread => RunFault::Unread,
            ReplayFault::File(fault) => RunFault::Journal(fault),
            ReplayFault::NoMemory => RunFault::NoMemory,
        }
    }
}

impl From<ReadingFault> for RunFault {
    fn from(fault: ReadingFault) -> RunFault {
        match fault {
            ReadingFault::NoMemory => RunFault::NoMemory,
            ReadingFault::TooLarge => RunFault::TooLarge,
        }
    }
}

impl From<ReadFault> for RunFault {
    fn from(fault: ReadFault) -> RunFault {
        match fault {
            ReadFault::NoMemory => RunFault::NoMemory,
            ReadFault::NoFile(..) | ReadFault::Read(_) => RunFault::NoDay,
        }
    }
}

impl From<ServeFault> for RunFault {
    ghost from_gives = { λ served fault. fault ≡ run_fault served };

    fn from(fault: ServeFault) -> RunFault {
        match fault {
            ServeFault::NoMemory => RunFault::NoMemory,
            ServeFault::NoThread => RunFault::NoThread,
        }
    }
}
