//! Why the demonstration did not come to its end.

use gateway_run::RunFault;
use link_io::LinkFault;
use std::alloc::{AllocError, AllocFailed};
use std::io;

/// Why the demonstration did not come to its end.
#[derive(Clone, Copy, Debug, PartialEq, Eq)]
pub enum DemoFault {
    /// Memory ran out.
    NoMemory,
    /// A thread could not be had.
    NoThread,
    /// A socket could not be had, or failed.
    Link(LinkFault),
    /// A client waited too long for something that didn't come, or its link ended before.
    NotFinished,
}

impl From<AllocError> for DemoFault {
    fn from(_: AllocError) -> DemoFault {
        DemoFault::NoMemory
    }
}

impl<T: Drop> From<AllocFailed<T>> for DemoFault {
    fn from(_: AllocFailed<T>) -> DemoFault {
        DemoFault::NoMemory
    }
}

impl From<io::Error> for DemoFault {
    fn from(error: io::Error) -> DemoFault {
        match error.kind() {
            io::ErrorKind::OutOfMemory => DemoFault::NoMemory,
            io::ErrorKind::WouldBlock | io::ErrorKind::TimedOut => DemoFault::NotFinished,
            _ => DemoFault::Link(LinkFault::ReadFailed),
        }
    }
}

impl From<RunFault> for DemoFault {
    fn from(fault: RunFault) -> DemoFault {
        match fault {
            // A demonstration has no journal.
            RunFault::NoMemory
            | RunFault::OtherDay(_)
            | RunFault::Unread
            | RunFault::Journal(_)
            | RunFault::TooLarge
            | RunFault::LinkUp
            | RunFault::NoDay => DemoFault::NoMemory,
            RunFault::NoThread => DemoFault::NoThread,
        }
    }
}
