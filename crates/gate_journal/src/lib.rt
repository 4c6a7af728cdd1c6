//! Events with their batches as the pages of a day, and nothing beside them.
//!
//! What is pushed is written into the pages; what is asked is read from them. Pages that were stored or sent are a
//! history again. Two days are compared by their events and what came of each, wherever their pages were cut; and which
//! links are up is followed event by event.
#![tactic(auto)]

mod comparing;
mod growing_history;
mod history;
mod links;
mod turn_pages;
mod turns;

pub use comparing::first_other;
pub use growing_history::{GrowingHistory, RecentPages};
pub use history::History;
pub use links::{OpenLink, follow};
pub use turn_pages::TurnPages;
pub use turns::Turns;
