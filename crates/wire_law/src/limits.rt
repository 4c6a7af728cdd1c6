//! What a number in the market's messages is at most.

/// The most shares of one message.
///
/// Source: OUCH 4.2, "Enter Order Message", shares: more than 0 and below 1,000,000.
pub const MOST_SHARES: u32 = 999_999;
