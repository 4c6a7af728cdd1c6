//! The audit of a history: what each accepted order's client has read of it, from the reports of the batches alone;
//! and which messages of a port were handled, from its links and packets.
//!
//! It reads events and batches after they were given, for programs that print an audit and for tests; it judges
//! nothing.
//!
//! Source: FIX 4.4 Volume 4, "Execution Report"; SoupBinTCP 3.00, "Sequenced Data Packet".
#![tactic(auto)]

mod accepted;
mod accounts;
mod day_audit;
mod fix_accounts;
mod growing;
mod kept_reading;
mod kept_readings;
mod lives;
mod messages;
mod opening;
mod openings;
mod order_key;
mod order_pair;
mod order_reading;
mod order_readings;
mod paired;
mod pairs;
mod played;
mod port_again;
mod reports;
mod told;

pub use accounts::readings;
pub use day_audit::DayAudit;
pub use messages::handled_messages;
pub use order_pair::OrderPair;
pub use order_reading::OrderReading;
pub use pairs::audit;
pub use played::{Played, play};
