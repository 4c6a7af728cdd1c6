//! Why a text is no page.

ghost use Rattle.std.specs.Prelude.{◌≡◌};
ghost use Rattle.journal_pages.specs.declared.fault.PageFault.TheVariants.{NoMemory};

use std::alloc::{AllocError, AllocFailed};
use thiserror::Error;

/// Why a text is no page of the journal. Records are judged one after another, each for `CutShort`, `Kind`, `Payload`
/// and `Order`, in this order; the first that is found is given.
#[derive(Clone, Copy, Debug, PartialEq, Eq, Drop, Error)]
pub enum PageFault {
    /// 1: it doesn't begin with its version's name, or is shorter than what stands before a page's records.
    #[error("head")]
    Head,
    /// 2: a record's kind isn't 1 to 15.
    #[error("kind")]
    Kind,
    /// 3: a record ends before its head or its payload does, or there is none.
    #[error("cut short")]
    CutShort,
    /// 4: a record's payload, source, link or moment isn't one that its kind has, or its batch.
    #[error("payload")]
    Payload,
    /// 5: a record stands where its kind can't.
    #[error("order of kinds")]
    Order,
    /// 6: its number isn't that of the records before it. No text alone is refused so, but a page behind others.
    #[error("number")]
    Number,
    /// Memory ran out. The text may be read again.
    #[error("out of memory")]
    NoMemory,
}

impl From<AllocError> for PageFault {
    ghost from_gives = { λ _ fault. fault ≡ NoMemory };

    fn from(_error: AllocError) -> PageFault {
        PageFault::NoMemory
    }
}

impl<T: Drop> From<AllocFailed<T>> for PageFault {
    ghost from_gives = { λ _ fault. fault ≡ NoMemory };

    fn from(_error: AllocFailed<T>) -> PageFault {
        PageFault::NoMemory
    }
}
