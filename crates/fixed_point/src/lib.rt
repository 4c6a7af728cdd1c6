//! Prices and numbers of shares as exact whole numbers, and the decimal texts that say them.
//!
//! Texts go in and `Price4`s or counts come out; prices and averages go out again as the one text of their number. A
//! text is never rounded and no sum wraps: each text of any length says one amount, or is refused for one reason. What
//! a text says is a definition that computes, `specs/Decimal.antt`, and `specs/Examples.antt` has it at work.
//!
//! Source: FIX 4.4 Volume 1, data types float, Price and Qty; OUCH 4.2, "Data Types", price.
#![tactic(auto)]

mod averaging;
mod decimal;
mod digits;
mod laws;
mod parsing;
mod price4;
mod printing;
mod refusal;
mod shares;
mod worth;

pub use averaging::average;
pub use decimal::is_float;
pub use laws::{printed_denotes, printed_reads_back, said_in_range};
pub use parsing::{parse_price, parse_qty};
pub use price4::Price4;
pub use printing::{PriceText, fraction_digits, print_price, significant_digits};
pub use refusal::DecimalRefusal;
pub use shares::Shares;
pub use worth::{WorthRefusal, parse_worth};
