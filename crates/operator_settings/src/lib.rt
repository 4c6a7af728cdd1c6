//! What an operator sets beside the gateway's own settings, in the same file: when a day ends, who may tell it to end,
//! and from which addresses each client may connect. All of it is optional.
//!
//! ```toml
//! [day]
//! ends = 21:05:00
//! linger = 10
//! [control]
//! listen = "127.0.0.1:9100"
//! token = "0123456789abcdef"
//! host = "gw1.example:9100"
//! [[client]]
//! from = ["10.4.0.0/16", "127.0.0.1"]
//! ```
//!
//! Source: TOML 1.1; the keys are this gateway's own.
#![tactic(auto)]

mod control;
mod day;
mod fault;
mod keys;
mod ranges;
mod reading;
mod settings;
mod texts;
mod time_of_day;

pub use fault::OperatorFault;
pub use ranges::{AddressRange, admit};
pub use reading::{OperatorSettings, read_operator};
pub use settings::{ControlSettings, DaySettings};
pub use time_of_day::next_at;
