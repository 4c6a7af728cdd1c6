//! The tokens of an order's pending replaces.

ghost use Rattle.std.specs.Prelude.{◌≡◌, ◌<◌, ◌≤◌, ◌++◌, ◌∷◌, [], length};

use std::marker::Model;

/// The tokens by which the market is to know an order next, as each of its pending replaces is done: the oldest
/// replace's first, four at most. Contracts see the list of them.
#[derive(Drop)]
pub struct NextTokens {
    tokens: [[u8; 14]; 4],
    count: usize,
    ghost within: { count ≤ 4 },
}

impl Model for NextTokens {
    ghost use Rattle.std.specs.Prelude.{ℕ, List, take};

    ghost Value = { List (List ℕ) };

    ghost view = { λ next. take next.count next.tokens };
}

impl NextTokens {
    /// So many at most.
    pub const MOST: usize = 4;

    /// None: no replace is pending. Takes no memory.
    pub fn new() -> NextTokens
        ensures { result ≡ [] }
    {
        NextTokens {
            tokens: [[0; 14]; 4],
            count: 0,
        }
    }

    /// One token more behind the others, where there is room. Takes no memory.
    pub fn push(&mut self, token: [u8; 14])
        requires { length self.old < 4 }
        ensures { self.new ≡ self.old ++ token ∷ [] }
    {
        self.tokens[self.count] = token;
        self.count += 1;
    }

    /// The tokens, in order. Takes no memory.
    pub fn as_slice(&self) -> &[[u8; 14]]
        ensures { result.now ≡ self.now }
    {
        &self.tokens[..self.count]
    }
}
