//! A runner of a script's lines: the gateway's core, and what the lines have told of links and of the time.
//!
//! A line is an event of a client or a port, or the moment from here on. The runner makes its events, steps them
//! through the core, sessions included, and keeps each with its batch. Nothing is printed here.
#![tactic(auto)]

mod events;
mod frames;
mod links;
mod packets;
mod runner;
mod settings;

pub use runner::{Runner, warm_runner};
pub use settings::fixed_settings;
