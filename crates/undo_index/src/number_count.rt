//! A number with its count, and by what it is found.

ghost use Rattle.std.specs.Prelude.{◌≡◌};
ghost use Rattle.undo_index.specs.Counts.{is_of, same_number};
ghost use Rattle.undo_index.specs.CountLaws.{count-alike};

use crate::keyed::{Keyed, Sought};

/// How often a number was counted.
#[derive(Clone, Copy)]
pub struct NumberCount {
    pub number: u64,
    pub count: usize,
}

/// A number, as a key and as what is looked for.
#[derive(Clone, Copy, PartialEq, Eq, Hash)]
pub(crate) struct NumberKey {
    pub number: u64,
}

impl Keyed<NumberKey> for NumberCount {
    ghost has = { λ k c. is_of k.number c };

    ghost respects_eq = { count-alike };

    fn has_key(&self, key: &NumberKey) -> bool {
        is_of(key.number, self)
    }
}

impl Sought<NumberCount> for NumberKey {
    ghost sought = { λ k c. is_of k.number c };

    fn is(&self, count: &NumberCount) -> bool {
        is_of(self.number, count)
    }
}

/// Whether a count is that of a number.
fn is_of(number: u64, count: &NumberCount) -> bool
    ensures { result ≡ is_of number count.now }
{
    number == count.number
}
