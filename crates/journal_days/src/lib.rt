//! The journal's pages of a day, one behind another: records are written into them and read across them, and those of
//! two days are compared.
//!
//! A page takes records as long as it has at most 65,536 bytes with them; the next record begins a new one. A page may
//! begin and end inside a batch. Pages that were stored or sent are read again where they are such pages, however they
//! were cut.
//!
//! The format is the gateway's own, version 1.
#![tactic(auto)]

mod comparing;
mod day;
mod judge;
mod laws;
mod numbers;
mod pages;
mod records;

pub use comparing::{difference_behind, first_difference};
pub use day::judge_day;
pub use judge::DayJudge;
pub use laws::{days_are_rewritten, days_go_on, numbers_count_records};
pub use numbers::next_number;
pub use pages::{DayPages, PagesMark};
pub use records::DayRecords;
