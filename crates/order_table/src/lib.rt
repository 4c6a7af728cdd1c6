//! The table of orders: the accepted orders and the tokens that were given, and what is looked up in it.
//!
//! It knows nothing of messages from the market and of reports. Contracts see it as `order_machine`'s table.
#![tactic(auto)]

mod client_sums;
mod keys;
mod order_list;
mod sums;
mod table;
mod token_list;

pub use table::{GivenToken, Table};
