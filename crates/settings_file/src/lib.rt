//! The settings file of the gateway: a text in TOML with its own name, its ports and its clients, read whole or refused
//! by the first key that is missing or wrong.
//!
//! Which keys there are, in which order they are judged, and what each has to be is `specs/Rules.antt`; what a file
//! says is `specs/File.antt`.
//!
//! Source: TOML 1.1; the keys are this gateway's own.
#![tactic(auto)]

mod client;
mod example;
mod fault;
mod keys;
mod port;
mod reading;
mod texts;

pub use example::EXAMPLE;
pub use fault::{Refusal, SettingsFault, SettingsTable};
pub use reading::{SettingsFile, read};
