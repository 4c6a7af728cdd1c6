//! What the market has of one order, as a value.

/// The side and the quantities of an order in the market's book.
///
/// An order that the book never had, or that was rejected, has zeros and no side.
#[derive(Clone, Copy, Debug, PartialEq, Eq)]
pub struct BookRow {
    /// The byte that FIX writes, Side (54).
    pub side: Option<u8>,
    /// What is executed, in shares, without the trades that were broken.
    pub executed: u64,
    /// What is open, in shares.
    pub unfilled: u64,
    /// What is cancelled, in shares.
    pub cancelled: u128,
    /// Shares times price of the trades that stand, in 1/10,000.
    pub value: u128,
}
