//! What a gateway that runs watches: the board of a day that is served, orders that wait at a port that isn't up, what
//! a client asks to be sent again, and a standstill of the process.
//!
//! Who writes the board waits for nobody. Who reads it holds the board alone, and neither the desk nor a ring. That
//! orders wait is decided on what the board shows, and told ten seconds after it began, and at each doubling.
#![tactic(auto)]

mod board;
mod fault_names;
mod marks;
mod order_watch;
mod resends;
mod standstill;
mod wait;
mod waiting;

pub use board::{Shown, StatusBoard};
pub use fault_names::fault_name;
pub use order_watch::{OrderWatch, ports_of_clients};
pub use resends::{Resends, TooMuch, asked_for, range_of};
pub use standstill::Standstill;
pub use wait::{PortWait, due_since, wait_after};
pub use waiting::{orders_at, orders_wait};
