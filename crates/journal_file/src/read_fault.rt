//! Why a day's file isn't read further.

ghost use Rattle.std.specs.Prelude.{◌≡◌};

use crate::fault::FileFault;
use journal_pages::PageFault;
use std::alloc::AllocError;
use std::io::Error;
use thiserror::Error as ErrorText;

/// Why a day's file isn't read further.
#[derive(Debug, Drop, ErrorText)]
pub enum ReadFault {
    /// It is none: the place of the first page with which something is wrong, from 0, and what.
    #[error("page {0}: {1}")]
    NoFile(u32, FileFault),
    /// Memory ran out.
    #[error("out of memory")]
    NoMemory,
    /// A read failed, or the input went on behind its end.
    #[error("read or write failed")]
    Read(Error),
}

impl From<AllocError> for ReadFault {
    fn from(_: AllocError) -> ReadFault
        ensures { result ≡ ReadFault.NoMemory }
    {
        ReadFault::NoMemory
    }
}

/// What is wrong with a page, as why the file is none.
pub(crate) fn wrong_page(found: (u32, PageFault)) -> ReadFault
    ensures { result ≡ ReadFault.NoFile (found.0) (FileFault.Page (found.1)) }
{
    ReadFault::NoFile(found.0, FileFault::Page(found.1))
}
