//! Why no further event was made.

ghost use Rattle.std.specs.Prelude.{◌≡◌};
ghost use Rattle.link_decoders.specs.declared.decode_fault.DecodeFault.TheVariants.{NoMemory};

use std::alloc::AllocError;
use thiserror::Error;

/// Why no further event was made of a link's bytes.
#[derive(Clone, Copy, Debug, PartialEq, Eq, Drop, Error)]
pub enum DecodeFault {
    /// A head announces a frame of more than 8,192 bytes, or a packet has a length of 0: no event can follow.
    #[error("frame too long or empty packet")]
    Malformed,
    /// Memory ran out. The bytes are kept, and the same event is made next time.
    #[error("out of memory")]
    NoMemory,
}

impl From<AllocError> for DecodeFault {
    ghost from_gives = { λ _ fault. fault ≡ NoMemory };

    fn from(_error: AllocError) -> DecodeFault {
        DecodeFault::NoMemory
    }
}
