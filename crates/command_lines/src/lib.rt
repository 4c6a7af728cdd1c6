//! The command lines of `gateway` and of `gate_script`, read by `clap`, and what the script program does by its own.
#![tactic(auto)]

mod asking;
mod building;
mod command;
mod help;
mod script_asking;
mod script_program;
mod table;
mod version;

pub use asking::{Asked, Syncs, links_of, number_between, syncs_of};
pub use clap::Error;
pub use command::{asked, is_version};
pub use script_asking::{refusal_status, script_flags};
pub use script_program::{run_program, write_refusal};
