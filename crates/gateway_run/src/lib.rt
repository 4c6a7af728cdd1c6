//! The gateway as it runs: a desk, and for each client's and each port's line the threads that serve it. It ends when
//! all its clients' links have been served, and gives its day.
#![tactic(auto)]

mod by_settings;
mod clock;
mod context;
mod ends;
mod lines;
mod port_faults;
mod resuming;
mod run_gate;
mod running;

pub use by_settings::{end_stopped, run_settings};
pub use ends::{LinkRules, RunPlan};
pub use gate_audit::{OrderPair, audit};
pub use gate_events::PortNumber;
pub use gate_journal::History;
pub use gate_settings::Settings;
pub use gateway_day::{
    AuditedDay, Day, DayJournal, RunFault, StoppedDay, StoppedFault, audit_day, end_day,
    end_stopped_day, write_fault,
};
pub use gateway_watch::StatusBoard;
pub use order_accounts::ReadingFault;
pub use running::{run, run_shown};
pub use settings_file::{SettingsFault, SettingsFile, read};
pub use soup_session::PortFault;
