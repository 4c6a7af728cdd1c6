//! What the market's messages and the reports of an order have to say alike.

/// The side and the quantities of an order, as one of the two has them.
#[derive(Clone, Copy, Debug, PartialEq, Eq)]
pub struct Account {
    /// The byte that FIX writes, Side (54).
    pub side: u8,
    /// What is open, in shares.
    pub unfilled: u32,
    /// What is executed, in shares, without the trades that were broken.
    pub executed: u128,
    /// What is cancelled, in shares.
    pub cancelled: u128,
    /// Shares times price of the trades that stand, in 1/10,000.
    pub value: u128,
    /// The order is over.
    pub is_closed: bool,
}
