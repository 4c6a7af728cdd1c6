//! The desk's side of its queues: events come out of the inlets' queues, output goes into the outlets'.
//!
//! Nothing is stepped here, and no call but `open_side` and `Side::stage` takes memory.
#![tactic(auto)]

mod batch_output;
mod opening;
mod places;
mod side;
mod slots;

pub use batch_output::BatchOutput;
pub use opening::open_side;
pub use side::Side;
