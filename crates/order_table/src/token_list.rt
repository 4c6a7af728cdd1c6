//! The list of tokens with its index.

ghost use Rattle.std.specs.Prelude.{◌≡◌, ◌≤◌, ◌<◌, ◌^◌, ◌++◌, ◌∷◌, [], None, Some, length, reverse};
ghost use Rattle.std.specs.Prelude.{slice_get, MatchOption, OnOk, ℕ, ◌+◌, ◌&&◌, nat_eq, decimal};
ghost use Rattle.std.specs.List.{count_by, find};
ghost use Rattle.undo_index.specs.Newest.{IsNewest};
ghost use Rattle.undo_index.specs.Counts.{counted, one_if};
ghost use Rattle.order_machine.specs.Table as table;

use crate::keys::ByToken;
use crate::table::GivenToken;
use std::alloc::{AllocError, Global};
use std::marker::Model;
use tokens::TokenKey;
use undo_index::{HintIndex, NumberCounts, UndoList};

/// The tokens that were given, the oldest first, each found by its port and its text; how many of them replaces of
/// each order were given is counted. Contracts see the list, now and as it was settled, and for how many tokens more
/// there is room.
pub(crate) struct TokenList {
    tokens: UndoList<GivenToken>,
    texts: HintIndex<TokenKey>,
    /// By OrderID.
    replaces: NumberCounts,
}

// Not derived: then each way out drops it in one call (docs/DECISIONS.md, "Drops").
impl Drop for TokenList {
    fn drop(self) {
        let TokenList {
            tokens: _,
            texts: _,
            replaces: _,
        } = self;
    }
}

impl Model for TokenList {
    ghost use Rattle.undo_index.specs.Hints.{Covered};
    ghost use Rattle.order_machine.specs.Table as table;
    ghost use Rattle.order_table.specs.Keys.{has_token_key};
    ghost use Rattle.order_table.specs.Replaces.{AreReplaces};
    ghost use Rattle.order_table.specs.Rooms.{room_of_token};
    ghost use Rattle.tokens.specs.TokenKeys.{same_token_key};
    ghost use Rattle.undo_index.specs.Undoing.{Undoable};

    ghost Value = { Undoable table.GivenToken };

    ghost view = { λ l. record {
      now = l.tokens.now;
      settled = l.tokens.settled;
      pushes = room_of_token l.tokens.pushes l.texts.room l.replaces.pushes;
      changes = l.tokens.changes;
    } };

    ghost invariant = { λ l. Covered same_token_key has_token_key l.texts l.tokens
        × AreReplaces l.replaces.now l.tokens.now × AreReplaces l.replaces.settled l.tokens.settled };
}

impl TokenList {
    /// No tokens. Takes no memory.
    pub fn new(alloc: Global) -> TokenList
        ensures now { result.now ≡ [] }
        ensures settled { result.settled ≡ [] }
    {
        TokenList {
            tokens: UndoList::new(alloc),
            texts: HintIndex::new(alloc),
            replaces: NumberCounts::new(alloc),
        }
    }

    /// The tokens, the oldest first.
    pub fn as_slice(&self) -> &[GivenToken]
        ensures { result.now ≡ self.now.now }
    {
        self.tokens.as_slice()
    }

    /// The token at a place.
    pub fn item_at(&self, place: usize) -> &GivenToken
        requires { place < length self.now.now }
        ensures { slice_get self.now.now place ≡ Some result.now }
    {
        self.tokens.item_at(place)
    }

    /// The place of the newest token that a port knows by this text.
    pub fn token_place(&self, port: u16, token: &[u8; 14]) -> Option<usize>
        ensures { MatchOption result
            (find (table.is_token port token.now) (reverse self.now.now) ≡ None)
            (λ place. IsNewest (table.is_token port token.now) self.now.now place) }
    {
        let key = TokenKey::of(port, token);
        self.texts
            .place_of(self.tokens.as_slice(), &key, &ByToken { port, token })
    }

    /// How many tokens replaces of the order with an OrderID were given. No token is looked at.
    pub fn replace_count(&self, order_id: u64) -> usize
        ensures { result ≡ count_by (table.is_replacement_of (decimal order_id)) self.now.now }
    {
        self.replaces.of(order_id)
    }

    /// Makes room for one token more. Nothing else changes, be there memory or not.
    pub fn reserve_push(&mut self) -> Result<(), AllocError>
        ensures room { OnOk result (1 ≤ self.new.pushes) }
        ensures now { self.new.now ≡ self.old.now }
        ensures settled { self.new.settled ≡ self.old.settled }
    {
        self.tokens.reserve_push()?;
        self.texts.reserve(1)?;
        self.replaces.reserve()?;
        Ok(())
    }

    /// One token more behind the others, for which there is room. Takes no memory.
    pub fn push(&mut self, given: GivenToken)
        requires { 1 ≤ self.old.pushes }
        ensures now { self.new.now ≡ self.old.now ++ given ∷ [] }
        ensures few { length self.new.now < 2 ^ 64 }
        ensures settled { self.new.settled ≡ self.old.settled }
    {
        let place = self.tokens.as_slice().len();
        let key = TokenKey::of(given.port, &given.token);
        let (order_id, is_replacement) = (given.order_id, given.is_replacement);
        self.texts.note(&self.tokens, key, place);
        self.tokens.push(given);
        count_replacement(&mut self.replaces, order_id, is_replacement);
    }

    /// From now on the list is put back to how it is now. Takes no memory.
    pub fn settle(&mut self)
        ensures now { self.new.now ≡ self.old.now }
        ensures settled { self.new.settled ≡ self.old.now }
    {
        self.tokens.settle();
        self.replaces.settle();
    }

    /// Puts the list back to how it was settled. Takes no memory.
    pub fn undo(&mut self)
        ensures now { self.new.now ≡ self.old.settled }
        ensures settled { self.new.settled ≡ self.old.settled }
    {
        self.tokens.undo();
        self.replaces.undo();
    }
}

/// Counts a token of an order, if a replace was given it. Takes no memory.
fn count_replacement(replaces: &mut NumberCounts, order_id: u64, is_replacement: bool)
    requires room { 1 ≤ replaces.old.pushes }
    requires fits { counted order_id replaces.old.now + 1 < 2 ^ 64 }
    ensures now { (other : ℕ) → counted other replaces.new.now
        ≡ counted other replaces.old.now + one_if (nat_eq other order_id && is_replacement) }
    ensures settled { replaces.new.settled ≡ replaces.old.settled }
{
    if is_replacement {
        replaces.count(order_id);
    }
}
