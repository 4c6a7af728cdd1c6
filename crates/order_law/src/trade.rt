//! Trades.

/// A trade of an order. One that was broken stays, so that its number isn't used again.
#[derive(Clone, Copy, Debug, PartialEq, Eq)]
pub struct Trade {
    pub match_number: u64,
    pub shares: u32,
    /// In 1/10,000.
    pub price: u32,
    /// It was taken back.
    pub is_broken: bool,
}
