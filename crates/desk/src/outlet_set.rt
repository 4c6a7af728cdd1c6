//! A set of outlets.

ghost use Rattle.std.specs.Prelude.{◌≡◌, ◌<◌, true, bit_or};
ghost use Rattle.std.specs.Int.{bit_at};

/// Outlets for which there is output, by position.
#[derive(Clone, Copy, Debug, PartialEq, Eq)]
pub struct OutletSet {
    /// A bit for each.
    bits: u128,
}

impl OutletSet {
    /// Those whose bits are set.
    pub(crate) fn of_bits(bits: u128) -> OutletSet
        ensures { result.bits ≡ bits }
    {
        OutletSet { bits }
    }

    /// Those of either.
    pub(crate) fn and(self, others: OutletSet) -> OutletSet
        ensures { result.bits ≡ bit_or self.bits others.bits }
    {
        OutletSet {
            bits: self.bits | others.bits,
        }
    }

    /// Whether there is none.
    pub fn is_empty(self) -> bool
        ensures { result ≡ true → self.bits ≡ 0 }
    {
        self.bits == 0
    }

    /// Whether the outlet at this position is one of them.
    pub fn contains(self, position: usize) -> bool
        ensures yes { position < 128 → bit_at self.bits position ≡ 1 → result ≡ true }
        ensures no { result ≡ true → bit_at self.bits position ≡ 1 }
    {
        position < 128 && self.bits >> position & 1 == 1
    }
}
