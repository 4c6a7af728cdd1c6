//! Readers of frames and of packets, which are asked the same.

use std::alloc::{AllocError, Global};

/// How units are taken from a reader.
#[derive(Clone, Copy)]
pub enum Way {
    /// Those that a piece completes, all at once.
    Fed,
    /// One after another, where they stand in front.
    Lent,
    /// One after another: frames are moved out, packets lent.
    Moved,
}

/// What stands in front of a reader.
#[derive(Clone, Copy, PartialEq, Eq)]
pub enum Front {
    Unit,
    Nothing,
    /// What can be no unit, behind which nothing is read: too long a frame, a length of 0.
    Over,
}

/// How many bytes came to a reader, were copied to be kept, and were skipped.
#[derive(Clone, Copy)]
pub struct Counts {
    pub fed: u64,
    pub copied: u64,
    pub skipped: u64,
}

/// A reader that takes units from a stream.
pub trait UnitReader {
    /// A whole unit.
    fn unit() -> &'static [u8];

    /// A reader to which nothing came.
    fn begun(alloc: Global) -> Self;

    /// How many bytes came.
    fn counts(&self) -> Counts;

    /// A piece comes.
    fn bring(&mut self, alloc: Global, piece: &[u8]) -> Result<(), AllocError>;

    /// What stands in front: of a frame its text and its values of 35, 10 and 34, of a packet its type and payload, are
    /// added to `text`.
    fn show_front(&mut self, text: &mut Vec<u8>) -> Result<Front, AllocError>;

    /// Passes what stands in front; whether a unit does.
    fn go_on(&mut self) -> bool;

    /// Takes a piece, and adds the bytes of each unit that is whole then; false where nothing more is read.
    fn take(
        &mut self,
        alloc: Global,
        way: Way,
        piece: &[u8],
        units: &mut Vec<u8>,
    ) -> Result<bool, AllocError>;
}
