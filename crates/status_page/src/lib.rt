//! What an operator is shown of a day that is served: a page of HTML, and the same as JSON.
//!
//! Each is drawn of one status, in memory. The page fetches nothing and has no script.
//!
//! Source: HTML Living Standard; RFC 8259.
#![tactic(auto)]

mod clients;
mod day;
mod escaping;
mod json;
mod json_rows;
mod json_values;
mod page;
mod pieces;
mod port_words;
mod ports;

pub use day::{DayNames, first_name, other_names};
pub use escaping::push_escaped;
pub use json::json_of;
pub use page::page_of;
