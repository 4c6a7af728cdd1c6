//! Why a log's file can't be had.

use std::io::{self, ErrorKind};
use thiserror::Error;

/// Why a log's file can't be had.
#[derive(Clone, Copy, Debug, PartialEq, Eq, Drop, Error)]
pub enum OpenFault {
    /// Another process has it.
    #[error("in use")]
    InUse,
    /// It isn't there.
    #[error("no such file")]
    Missing,
    /// It can't be made, opened, read, cut or made durable.
    #[error("cannot write")]
    Failed,
    /// Memory ran out.
    #[error("out of memory")]
    NoMemory,
}

/// Why a file can't be had, by what the system says.
pub(crate) fn fault_of(error: &io::Error) -> OpenFault {
    match error.kind() {
        ErrorKind::OutOfMemory => OpenFault::NoMemory,
        ErrorKind::NotFound => OpenFault::Missing,
        _ => OpenFault::Failed,
    }
}
