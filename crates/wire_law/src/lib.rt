//! What every codec of the gateway keeps: a value is written in one way, and what is written is read back as itself.
//!
//! A trait says it with ghost members: what a value is on the wire is a function of the value alone, and the laws
//! are facts about that function, which each `impl` proves once. A caller needs no more than the trait's clauses.
#![tactic(auto)]

mod fixed_wire;
mod limits;
mod printable;
mod text_wire;
mod whole_wire;

pub use fixed_wire::FixedWire;
pub use limits::MOST_SHARES;
pub use printable::{are_printable, are_visible, is_printable, is_visible, padded};
pub use text_wire::TextWire;
pub use whole_wire::WholeWire;
