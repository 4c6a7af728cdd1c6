//! A list of orders that can be put back to how it stood when it was last settled.
//!
//! An order is changed where it stands: what it had before is kept beside the list, and not the whole order.
#![tactic(auto)]

mod list;

pub use list::UndoOrders;
