//! The market's end of a SoupBinTCP session, over the market's book: a simulator to demonstrate and test against.
//!
//! In go links that come and go, packets with a choice each, and what the market does by itself; out come packets. It
//! serves one link after another, keeps every sequenced message of its session, and gives them again from the number
//! that a login asks for.
//!
//! Source: SoupBinTCP 3.00; OUCH 4.2.
#![tactic(auto)]

mod event;
mod laws;
mod link;
mod numbers;
mod packets;
mod reading;
mod saying;
mod sim;

pub use event::SimEvent;
pub use laws::messages_are_sent_from_the_number_asked;
pub use link::SimLink;
pub use sim::Sim;
