//! FIX fields as they are printed: a text that grows by a field, without the places of its values.
//!
//! Source: FIX 4.4 Volume 1, "FIX Tag=Value Syntax".
#![tactic(auto)]

mod placed;
mod printed;

pub use printed::{PrintedFields, printed_fields};
