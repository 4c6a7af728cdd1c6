//! Why a step of a link's engine failed.

ghost use Rattle.std.specs.Prelude.{◌≡◌};
ghost use Rattle.link_io.specs.Limits.{fault_number, of_decoding};
ghost use Rattle.link_io.specs.declared.link_fault.LinkFault.TheVariants.{NoMemory};

use link_decoders::DecodeFault;
use std::alloc::{AllocError, AllocFailed};
use thiserror::Error;

/// Why a step of a link's engine failed. After the first four the link is over: each later step answers the same.
#[derive(Clone, Copy, Debug, PartialEq, Eq, Drop, Error)]
pub enum LinkFault {
    /// 1: a read failed.
    #[error("read failed")]
    ReadFailed,
    /// 2: a write failed, or took none of some bytes.
    #[error("write failed")]
    WriteFailed,
    /// 3: a head announces a frame of more than 8,192 bytes, or a packet has a length of 0.
    #[error("frame too long or empty packet")]
    Malformed,
    /// 4: the link's steps are used up.
    #[error("limit of steps")]
    StepLimit,
    /// 5: memory ran out. What was read or taken is kept, and the next step goes on with it.
    #[error("out of memory")]
    NoMemory,
}

impl LinkFault {
    /// Its number, 1 to 5. Takes no memory.
    pub fn number(self) -> u8
        ensures { result ≡ fault_number self }
    {
        match self {
            LinkFault::ReadFailed => 1,
            LinkFault::WriteFailed => 2,
            LinkFault::Malformed => 3,
            LinkFault::StepLimit => 4,
            LinkFault::NoMemory => 5,
        }
    }
}

impl From<DecodeFault> for LinkFault {
    ghost from_gives = { λ fault given. given ≡ of_decoding fault };

    fn from(fault: DecodeFault) -> LinkFault {
        match fault {
            DecodeFault::Malformed => LinkFault::Malformed,
            DecodeFault::NoMemory => LinkFault::NoMemory,
        }
    }
}

impl From<AllocError> for LinkFault {
    ghost from_gives = { λ _ fault. fault ≡ NoMemory };

    fn from(_error: AllocError) -> LinkFault {
        LinkFault::NoMemory
    }
}

impl<T: Drop> From<AllocFailed<T>> for LinkFault {
    ghost from_gives = { λ _ fault. fault ≡ NoMemory };

    fn from(_error: AllocFailed<T>) -> LinkFault {
        LinkFault::NoMemory
    }
}
