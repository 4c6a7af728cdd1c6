//! Why a run stops before its script's end.

ghost use Rattle.std.specs.Prelude.{◌≡◌};
ghost use Rattle.gate_lines.specs.declared.stop.Stop.TheVariants.{NoMemory, Stream};
ghost use Rattle.gate_lines.specs.Status.{stop_status, stop_at, stop_of_stream};

use script_lines::LineFault;
use std::alloc::AllocError;
use std::io;
use thiserror::Error;
use wire_streams::StreamFault;

/// Why a run stops before its script's end. It prints as the line that tells so.
#[derive(Clone, Copy, Debug, PartialEq, Eq, Drop, Error)]
pub enum Stop {
    /// The line of this number, from 1, is none that the runner knows.
    #[error("line {0}: not understood")]
    NotUnderstood(u64),
    /// Memory ran out.
    #[error("out of memory")]
    NoMemory,
    /// A read or a write failed, or the script has no end.
    #[error("read or write failed")]
    Stream,
}

impl Stop {
    /// Why a run stops at the line of this number.
    pub fn at_line(fault: LineFault, number: u64) -> Stop
        ensures { result ≡ stop_at number fault }
    {
        match fault {
            LineFault::NoMemory => Stop::NoMemory,
            LineFault::NotUnderstood => Stop::NotUnderstood(number),
        }
    }

    /// The status of a run that stops so: 2 for a line that isn't understood, otherwise 1.
    pub fn status(self) -> u8
        ensures { result ≡ stop_status self }
    {
        match self {
            Stop::NotUnderstood(_) => 2,
            Stop::NoMemory => 1,
            Stop::Stream => 1,
        }
    }
}

impl From<AllocError> for Stop {
    ghost from_gives = { λ _ stop. stop ≡ NoMemory };

    fn from(_error: AllocError) -> Stop {
        Stop::NoMemory
    }
}

impl From<io::Error> for Stop {
    ghost from_gives = { λ _ stop. stop ≡ Stream };

    fn from(_error: io::Error) -> Stop {
        Stop::Stream
    }
}

impl From<StreamFault> for Stop {
    ghost from_gives = { λ fault stop. stop ≡ stop_of_stream fault };

    fn from(fault: StreamFault) -> Stop {
        match fault {
            StreamFault::NoMemory => Stop::NoMemory,
            StreamFault::Stream => Stop::Stream,
        }
    }
}
