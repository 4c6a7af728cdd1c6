//! What a step of a reader did.

/// What a step of a reader did.
#[derive(Clone, Copy, Debug, PartialEq, Eq)]
pub enum Progress {
    /// This many bytes were read, 1 or more, and all events of the stream so far are put.
    Read(usize),
    /// The stream is at its end, and all its events are put.
    Ended,
    /// An event was given back. It is put first in the next step.
    Held,
}
