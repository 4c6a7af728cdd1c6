//! Pages of the journal that lines write, and pages that are changed from these.

mod asking;
mod cases;
mod changing;
mod reading;
mod records;
mod resending;
mod tally;
mod words;

pub use cases::Days;
