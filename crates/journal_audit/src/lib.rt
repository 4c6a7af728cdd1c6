//! The audit of a day that was kept as a file of pages, be it over or not, and the day of a script as such a file.
#![tactic(auto)]

mod audit;
mod read_day;
mod script;
mod so_far;

pub use audit::audit_file;
pub use script::script_file;
pub use so_far::audit_so_far;
