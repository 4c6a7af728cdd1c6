//! Who may have the control endpoint show or do something: a table over values, without a socket.
//!
//! Its rows are `specs/Guard.antt`. What they keep out: pages of other sites in an operator's browser, which send a
//! request from this very machine (by a name that the attacker's DNS gives, or with an `Origin` of their own), and
//! whoever else reaches the address and doesn't have the token.
//!
//! Source: RFC 9110, "Host and :authority", "Authorization"; RFC 6454, "The HTTP Origin Header"; RFC 7617, "The 'Basic'
//! Authentication Scheme"; RFC 6750, "Authorization Request Header Field".
#![tactic(auto)]

mod asked;
mod path;
mod request;
mod secret;
mod table;
mod token;

pub use asked::{Act, View};
pub use request::{Method, Request, Rules};
pub use table::{Refusal, Verdict, judged};
pub use token::token_in;
