//! Why a stream gave no line, or took no text.

ghost use Rattle.std.specs.Prelude.{◌≡◌};
ghost use Rattle.wire_streams.specs.declared.stream_fault.StreamFault.TheVariants.{NoMemory, Stream};

use std::alloc::{AllocError, AllocFailed};
use std::io;
use thiserror::Error;

/// Why a stream gave no line, or took no text. It prints as the line that tells so.
#[derive(Clone, Copy, Debug, PartialEq, Eq, Drop, Error)]
pub enum StreamFault {
    /// Memory ran out.
    #[error("out of memory")]
    NoMemory,
    /// A read or a write failed, or the stream has no end.
    #[error("read or write failed")]
    Stream,
}

impl From<AllocError> for StreamFault {
    ghost from_gives = { λ _ fault. fault ≡ NoMemory };

    fn from(_error: AllocError) -> StreamFault {
        StreamFault::NoMemory
    }
}

impl<T: Drop> From<AllocFailed<T>> for StreamFault {
    ghost from_gives = { λ _ fault. fault ≡ NoMemory };

    fn from(_error: AllocFailed<T>) -> StreamFault {
        StreamFault::NoMemory
    }
}

impl From<io::Error> for StreamFault {
    ghost from_gives = { λ _ fault. fault ≡ Stream };

    fn from(_error: io::Error) -> StreamFault {
        StreamFault::Stream
    }
}
