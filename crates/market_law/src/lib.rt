//! The market's machine, as definitions: what it keeps, what it answers to a message, and what it may do by itself.
//!
//! Contracts of the crates above cite `specs/`. In Rust there are the choices that are handed to it, what it has of an
//! order, and its five laws.
//!
//! Source: OUCH 4.2, "Inbound Messages" and "Outbound Messages".
#![tactic(auto)]

mod choice;
mod laws;
mod row;

pub use choice::{Breaking, Choice, Letter, Removal, Trading};
pub use laws::{
    books_are_lives, fill_or_kill_trades_all_or_nothing, orders_stay_within_what_was_asked,
    tokens_are_used_once, what_is_said_is_lawful,
};
pub use row::BookRow;
