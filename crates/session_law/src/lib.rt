//! What the acceptor's session of FIX 4.4 owes: its table, and what is said of all its calls together.
#![tactic(auto)]

mod frame;
mod issued_report;
mod kind;
mod laws;
mod phase;

pub use frame::{Frame, Kept, Out};
pub use issued_report::IssuedReport;
pub use kind::Kind;
pub use laws::{calls_determine_runs, calls_move_numbers_little, runs_keep_their_numbers};
pub use phase::{Logged, Phase};
