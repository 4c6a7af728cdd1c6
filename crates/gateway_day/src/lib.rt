//! A gateway's day: how it goes on behind a journal, and, once it is over, its history, its audit, and whether its
//! journal has it.
#![tactic(auto)]

mod day;
mod day_journal;
mod fault;

pub use day::{AuditedDay, Day, audit_day, end_day, end_stopped_day, write_fault};
pub use day_journal::{DayJournal, JournalFile, NewFile, StoppedDay, StoppedFault, Syncs};
pub use fault::RunFault;
