//! The journal that is written ahead: a history's turns are in a file, durable, before anybody is told of them.
//!
//! A day's log (`DayLog`) has pages that are added to a file, each behind its length and its sum (`journal_file`), each
//! durable before the next; and an end. What any crash leaves of it begins with the pages that were acknowledged. Its
//! file in the system's file system (`HostFile`) is made new or found, locked, and added to.
//!
//! What a history has more than its log goes into the log as one page, whole turns (`TurnLog`). A history that is made
//! anew is compared with a day that was written, part by part.
#![tactic(auto)]

mod comparing;
mod fault;
mod file;
mod host_fault;
mod host_file;
mod later;
mod laws;
mod log;
mod mark;
mod opening;
mod pieces;
mod sized;
mod turn_log;

pub use comparing::{Compared, compare_since, mark_of};
pub use fault::{LogFault, WriteFault};
pub use file::LogFile;
pub use host_fault::OpenFault;
pub use host_file::HostFile;
pub use later::{LaterFile, LaterSync};
pub use laws::acknowledged_pages_are_read;
pub use log::DayLog;
pub use mark::HistoryMark;
pub use opening::{FoundLog, StoppedLog, find_log, open_log};
pub use turn_log::TurnLog;
