//! The lines of a script of the whole gateway: what each asks for.
//!
//! A line is one event: a link of a client or a port comes up or goes, time passes there, a client's frame comes as
//! fields or as bytes, a port's packet comes as bytes or by what it says, or the moment from here on is told. Nothing
//! is stepped here.
#![tactic(auto)]

mod bars;
mod client;
mod client_lines;
mod fault;
mod hexadecimal;
mod line;
mod login;
mod market;
mod payload;
mod port;
mod port_lines;
mod words;

pub use client::Client;
pub use fault::LineFault;
pub use line::{Line, line_of};
pub use payload::payload_of;
pub use port::Port;
