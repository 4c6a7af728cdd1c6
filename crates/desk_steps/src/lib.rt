//! What a desk does: the turns of its inlets, and what is left to do once ends have finished; and the value that does
//! it, which lies under a desk's lock.
//!
//! A desk is a core with its history (`RecordedCore`) and the desk's side of its rings (`Side`); the calls here take
//! both, so that nothing of either is opened while a step is half done. `Desk` has the two with the journal that is
//! written ahead of what is told: what it keeps is in its type.
#![tactic(auto)]

mod closing;
mod recorded;
mod reserving;
mod status;
mod turned;
mod turning;
mod value;

pub use closing::settle;
pub use recorded::RecordedCore;
pub use status::Status;
pub use turned::{Did, Turned};
pub use turning::round;
pub use value::{Closed, Desk};
