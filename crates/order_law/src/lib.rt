//! What the order level promises, as definitions over lists: what a message asks, which verdict it gets, what the
//! market's messages and the reports say of an order, and the headline that links them.
//!
//! Contracts of the crates above cite `specs/`. `order_examples` has exchanges that are written down, on which the
//! definitions are computed with every check. In Rust there are only the types that definitions and code share;
//! `order_accounts` runs two of the definitions.
#![tactic(auto)]

mod account;
mod stage;
mod trade;

pub use account::Account;
pub use stage::Stage;
pub use trade::Trade;
