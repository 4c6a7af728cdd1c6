//! A day's journal, as it is handed on: a row for each message of the order level that came or was told, without users
//! and passwords.
//!
//! Of FIX messages the fields that are listed are handed on (`specs/Exported.antt`) and no others, of packets to and
//! from the market those alone that are an OUCH message: no login is among them.
//!
//! Source: FIX 4.4 Volume 4; OUCH 4.2; SoupBinTCP 3.00; RFC 4180; RFC 8259.
#![tactic(auto)]

mod cells;
mod day;
mod fault;
mod fields;
mod format;
mod market;
mod row;
mod turn;
mod writing;

pub use day::export_file;
pub use fault::ExportFault;
pub use format::{Format, format_of};
