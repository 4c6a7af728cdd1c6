//! The market's book: the machine of `market_law` as a value that is stepped by messages and choices.
//!
//! In go messages to the market, as `ouch_codec` has them, each with a choice, and choices that the market takes by
//! itself; out come its messages. Contracts see a `Book` as the law's machine.
//!
//! Source: OUCH 4.2, "Inbound Messages" and "Outbound Messages".
#![tactic(auto)]

mod book;
mod order;
mod places;
mod saying;
mod sides;

pub use book::Book;
