//! A row of choices.

ghost use Rattle.std.specs.Prelude.{◌≤◌, ◌-◌};

use rand_core::Rng;
use rand_pcg::Pcg32;

/// Choices, the same for the same seed.
#[derive(Drop)]
pub struct Chance {
    words: Pcg32,
}

impl Chance {
    /// The choices of a seed, one row of them for each number.
    pub fn of(seed: u64, row: u64) -> Chance {
        Chance {
            words: Pcg32::new(seed, row),
        }
    }

    /// One of so many places; 0 where there is none.
    pub fn below(&mut self, limit: usize) -> usize
        ensures { result ≤ limit - 1 }
    {
        if limit == 0 {
            return 0;
        }
        self.words.next_u32() as usize % limit
    }

    /// A number below this one; 0 where it is 0.
    pub fn number_below(&mut self, limit: u32) -> u32
        ensures { result ≤ limit - 1 }
    {
        if limit == 0 {
            return 0;
        }
        self.words.next_u32() % limit
    }

    /// Whether this happens, which it does once in so many times.
    pub fn once_in(&mut self, times: usize) -> bool {
        self.below(times) == 0
    }

    /// Further choices of their own.
    pub fn next(&mut self) -> Chance {
        Chance::of(
            u64::from(self.words.next_u32()),
            u64::from(self.words.next_u32()),
        )
    }

    /// A byte.
    pub fn byte(&mut self) -> u8 {
        let [byte, ..] = self.words.next_u32().to_le_bytes();
        byte
    }
}
