//! The order level as one value: clients' messages and market payloads go in, messages to the market and bodies for
//! clients come out.
//!
//! It is stepped by an application message of a client, or by a payload of a market port. It knows nothing of links,
//! sequence numbers and time. Each call gives all that it causes, or changes nothing. What a port was asked and
//! hasn't answered is kept, so that it can be sent once more when the port comes up again.
//!
//! Beneath it is the ledger of orders (`OrderLedger`): the orders of all clients with their tokens, the ClOrdIDs that
//! were used, and the numbers that were given. It knows nothing of what a port was sent.
//!
//! Source: FIX 4.4 Volume 4, "Order State Change Matrices"; OUCH 4.2, order messages; SoupBinTCP 3.00, "Login Request
//! Packet".
#![tactic(auto)]

mod ledger;
mod ledger_turns;
mod market_error;
mod order_core;
mod outcome;
mod runs;
mod used_ids;

pub use fix_types::{AppBody, AppMsg};
pub use ledger::OrderLedger;
pub use ledger_turns::{ChangedOrder, ClientTurn, MarketTurn};
pub use market_error::MarketError;
pub use market_messages::MarketFault;
pub use order_core::OrderCore;
pub use ouch_codec::{DecodeRefusal, Inbound, Outbound, decode};
pub use outcome::{CoreOut, MarketOut};
pub use runs::{Event, Outcome, run, step};
pub use to_market::{ClientTerms, PortState};
