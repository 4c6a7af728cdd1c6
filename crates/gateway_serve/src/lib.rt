//! A day that is served until it is told to end: clients come and go for ever, ports are connected again after longer
//! and longer pauses, and at the end no further link is taken, the market's answers are awaited for a while, and each
//! client's and then each port's link is closed once what lay there for it is written.
#![tactic(auto)]

mod binding;
mod day_flags;
mod ending;
mod naming;
mod open_orders;
mod pacing;
mod served_port;
mod serving;
mod standing;
mod waiting_room;

pub use binding::{Bound, bind_all};
pub use open_orders::write_open_orders;
pub use pacing::pause_after;
pub use serving::serve_day;
