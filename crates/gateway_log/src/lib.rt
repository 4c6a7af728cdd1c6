//! What a gateway tells on standard error of its links, of memory and of logins, a line at a time, and what its threads
//! share of the links: how many clients have one, where they come from, and when a journal is synced later.
#![tactic(auto)]

mod counted;
mod link_log;
mod logged_gate;
mod login_pause;
mod memory_watch;
mod refusals;
mod run_opener;
mod sync_timer;

pub use counted::{ClientCounts, CountedLinks, LinkStates};
pub use link_log::{LinkLog, LoggedOpener, Whose};
pub use logged_gate::LoggedGate;
pub use login_pause::{NextLogin, pause_behind};
pub use memory_watch::MemoryWatch;
pub use refusals::{RefusedLogon, RejectedLogin};
pub use run_opener::RunOpener;
pub use sync_timer::SyncTimer;
