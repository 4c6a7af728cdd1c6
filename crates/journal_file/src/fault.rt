//! Why bytes are no day's file.

use journal_pages::PageFault;
use thiserror::Error;

/// Why bytes are no day's file, of the page with which something is wrong.
#[derive(Clone, Copy, Debug, PartialEq, Eq, Drop, Error)]
pub enum FileFault {
    /// What is wrong with the page, or with its place: `CutShort` where there are fewer bytes than its length says,
    /// `Head` where bytes stand behind the end. `NoMemory` says nothing of the file.
    #[error("{0}")]
    Page(PageFault),
    /// The sum before the page isn't that of its bytes.
    #[error("sum")]
    Sum,
}
