//! How far an order is.

/// How far an order is.
#[derive(Clone, Copy, Debug, PartialEq, Eq)]
pub enum Stage {
    /// The market hasn't answered it.
    Waiting,
    /// It is in the market's book.
    Working,
    /// It is over.
    Closed,
}
