//! Why a day isn't exported.

use journal_file::ReadFault;
use thiserror::Error;
use wire_streams::StreamFault;

/// Why a day isn't exported.
#[derive(Debug, Drop, Error)]
pub enum ExportFault {
    /// Its file is none, or isn't read further.
    #[error("{0}")]
    File(ReadFault),
    /// A write fails, the output can't be flushed, or memory runs out.
    #[error("{0}")]
    Stream(StreamFault),
}
