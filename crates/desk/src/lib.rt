//! The desk: one core behind one lock, with a ring to each inlet and outlet.
//!
//! Threads put events and take lists by ends of their own and wait for nobody; who turns the desk takes its lock, and
//! steps an event of each inlet at most. Each step goes into the history with its batch. What a desk keeps is in the
//! type that lies under the lock: see `Desk`.
#![tactic(auto)]

mod opening;
mod outlet_set;
mod replaying;
mod shared;

pub use desk_rings::{DeskName, Finished, Inlet, Outlet, more_places};
pub use desk_steps::{Closed, Desk, Status, Turned};
pub use gate_events::Recipient;
pub use gate_journal::{GrowingHistory, History, OpenLink};
pub use journal_log::{HostFile, LogFault, StoppedLog};
pub use opening::{Parts, open_desk};
pub use outlet_set::OutletSet;
pub use replaying::{ReplayFault, Replayed};
pub use shared::{Shared, Turns};
