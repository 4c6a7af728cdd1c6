//! A day's pages in one file.
//!
//! Each page stands behind its length and its sum, eight bytes each, the high byte first; behind the last one stands an
//! end once the day is over, which is a page of no bytes. A file without an end is of a day that goes on, be it that a
//! write was cut short; any other is damaged. Files of an older form, without sums, are read too.
//!
//! The form is the gateway's own.
#![tactic(auto)]

mod ending;
mod fault;
mod laws;
mod read_fault;
mod reader;
mod reading;
mod running_sum;
mod sized_bytes;
mod sum;
mod window;
mod writing;

pub use ending::Ending;
pub use fault::FileFault;
pub use laws::{files_are_one, files_are_read};
pub use read_fault::ReadFault;
pub use reader::{DayReader, NextTurns};
pub use reading::{DayFile, read_file};
pub use running_sum::RunningSum;
pub use sized_bytes::{SizedBytes, TooManyBytes};
pub use sum::sum_of;
pub use writing::write_day;
