//! What the market was asked and hasn't answered: the messages of all ports in one list, in the order in which they
//! were asked.
//!
//! A message is removed as soon as the market answers it, and all messages of an order as soon as it is closed. When a
//! session is lost nobody knows what arrived, so a port that comes up again is sent its own messages once more: the
//! market takes each token once. What answers which message is stated in `order_law`; that the list is what the law
//! calls outstanding, in `order_machine`.
//!
//! Source: OUCH 4.2, "Inbound Messages" and "Outbound Messages"; SoupBinTCP 3.00, "Login Request Packet".
#![tactic(auto)]

mod answering;
mod asked;
mod chains;
mod marking;
mod messages;
mod places;

pub use messages::AskedMessages;
