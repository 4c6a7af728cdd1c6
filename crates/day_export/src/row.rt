//! What stands in front of a row.

/// Who said something, or was told it.
#[derive(Clone, Copy, Debug, PartialEq, Eq)]
pub(crate) enum Who {
    Client(u16),
    Port(u16),
}

/// Whether it came or was told.
#[derive(Clone, Copy, Debug, PartialEq, Eq)]
pub(crate) enum Way {
    In,
    Out,
}

/// What stands in front of a message's row.
#[derive(Clone, Copy, Debug)]
pub(crate) struct Head {
    /// The moment of the event, in milliseconds since 1970.
    pub(crate) at: u64,
    pub(crate) who: Who,
    pub(crate) way: Way,
}
