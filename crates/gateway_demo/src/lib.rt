//! The demonstration: a gateway, a market simulator and two clients on loopback, and the audit of what came of it. Of
//! one that is served until it is told to end, its settings, and the clients and the market that trade with it.
#![tactic(auto)]

mod client;
mod fault;
mod market;
mod serving;
mod settings;
mod showing;
mod traders;

pub use fault::DemoFault;
pub use serving::{ServedDemo, served_demo};
pub use showing::show_demo;
pub use traders::Traders;
