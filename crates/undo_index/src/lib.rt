//! Collections that can be put back to how they stood when they were last settled: a list, indexes over it, and counts
//! by number.
//!
//! What was changed of a list since it was settled is kept beside the items, so putting back takes no memory, and what
//! was settled is no second copy of the list.
//!
//! The entries of an index are hints: where of a list the items with a key may stand. A hint never hides an item:
//! whatever the hasher answers, what is found is what a look through the whole list finds. What a hint leads to is
//! compared itself, so an item that was changed, or put back to how it was, needs no entry taken out. Each count is
//! found by such an index.
#![tactic(auto)]

mod counts;
mod found;
mod hint;
mod index;
mod keyed;
mod list;
mod number_count;
mod settled_list;
mod text_key;

pub use counts::NumberCounts;
pub use index::HintIndex;
pub use keyed::{Keyed, Sought};
pub use list::UndoList;
pub use number_count::NumberCount;
pub use settled_list::SettledList;
pub use text_key::TextKey;
