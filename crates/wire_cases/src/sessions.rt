//! Cases of a FIX session, through its public calls alone.

mod conversation;
mod shown;

pub use conversation::Link;
