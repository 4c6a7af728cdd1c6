//! Scripts of the whole gateway: events by lines in, and what the gateway tells its links by lines out. And audits, by
//! lines.
//!
//! A line is an event of a client or a port, or the moment from here on. It is stepped through the gateway's core,
//! sessions included, and what follows is printed before the next line is taken: the client's lines first, then the
//! port's fault, then the port's. A script says all that happens, so the same script always prints the same. What links
//! are told are bytes; they are read back by the readers of their formats, and shown field by field.
//!
//! A line that isn't understood ends the run, and so do a lack of memory and a read or write that fails. What earlier
//! lines printed stays.
//!
//! `run_script` runs a script, `run_script_with` with a hasher, `audit_script` audits what it comes to, `write_audit`
//! writes the audit of any history's pairs, `script_history` gives the history itself.
#![tactic(auto)]

mod audit;
mod audit_lines;
mod batch_lines;
mod flags;
mod frames;
mod messages;
mod packets;
mod script;
mod stop;
mod words;
mod write;

pub use audit::audit_script;
pub use audit_lines::audit_text;
pub use batch_lines::batch_text;
pub use flags::Flags;
pub use script::{run_script, run_script_with, script_history, tell};
pub use stop::Stop;
pub use write::write_audit;
