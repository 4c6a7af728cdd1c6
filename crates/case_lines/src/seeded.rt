//! A hasher with a seed.

use std::hash::{BuildHasher, FoldHasher, Hasher};

/// The kit's `FoldHasher`, begun with a seed.
#[derive(Clone, Copy)]
pub struct Seeded {
    begun: FoldHasher,
}

impl Seeded {
    /// Begun with this seed. Takes no memory.
    pub fn of(seed: u64) -> Seeded {
        let mut begun = FoldHasher::default();
        begun.write_u64(seed);
        Seeded { begun }
    }
}

impl BuildHasher for Seeded {
    type Hasher = FoldHasher;

    ghost build_hasher = { λ made. made.begun };

    fn build_hasher(&self) -> FoldHasher {
        self.begun
    }
}
