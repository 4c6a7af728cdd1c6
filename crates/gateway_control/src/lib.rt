//! The control endpoint of a gateway: HTTP/1.1 over TCP, one request a connection, for an operator on this machine or
//! with a token. Who may do what is `control_guard`'s table.
//!
//! Its threads hold what is asked of the day, its names and its board, and nothing else: neither the desk nor a ring,
//! so that no reader of the endpoint can hold up trading. What it can take is bounded: four connections at once, five
//! seconds, 16 KiB of a head and 1,024 bytes of a body each; further connections wait in the listener.
//!
//! Source: RFC 9112.
#![tactic(auto)]

mod answers;
mod asking;
mod control;
mod endpoint;
mod served;
mod timed;

pub use asking::{EndReply, ask_end};
pub use control::DayControl;
pub use endpoint::{Endpoint, serve_endpoint};
