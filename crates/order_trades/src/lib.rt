//! The trades of one order, found by match number in a time that doesn't grow with how many there are.
//!
//! No two trades of an order have the same match number: so an index leads from each to its place. A few trades are
//! walked, and take no more memory than their list.
#![tactic(auto)]

mod held;
mod indexed;
mod told_trade;
mod trades;

pub use told_trade::ToldTrade;
pub use trades::Trades;
