//! The account of one order, read twice: from the market's messages, and from its client's reports; and shelves, by
//! which an audit of a day finds what is an order's.
//!
//! `life_of` and `reading_of` are two definitions of `order_law`, run: plain folds that keep all that was said, know
//! no other order and look nothing up. They are for tests and audits, so neither judges what it reads.
//!
//! Orders and messages of the market stand on shelves, so that an order is found by its OrderID, and the messages on it
//! by its first token, without a look at all others. A shelf may have more than one order's. What is read of an order
//! goes by its own reports and messages alone, so what else stands there changes nothing.
//!
//! Source: OUCH 4.2, "Outbound Messages"; FIX 4.4 Volume 4, "Execution Report".
#![tactic(auto)]

mod chains;
mod life;
mod message;
mod messages;
mod orders;
mod places;
mod reading;
mod reading_fault;
mod shelves;

pub use life::{Life, life_of};
pub use messages::MessageShelves;
pub use orders::OrderPlaces;
pub use reading::{Reading, reading_of};
pub use reading_fault::ReadingFault;
