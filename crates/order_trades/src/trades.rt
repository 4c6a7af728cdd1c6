//! The trades of an order.

ghost use Rattle.std.specs.Prelude.{◌≡◌, ◌<◌, ◌++◌, ◌∷◌, [], Some, None, false, length, map, reverse, take};
ghost use Rattle.std.specs.Prelude.{slice_get, OnOk, OnErr, MatchOption};
ghost use Rattle.std.specs.List.{find, list_any};
ghost use Rattle.order_trades.specs.Marking.{changed_if, has_match, told_marked, told_stands, told_unbroken};

use crate::held::Held;
use crate::told_trade::ToldTrade;
use std::alloc::{AllocError, Global};
use std::marker::Model;

/// The trades of an order, the oldest first; no two have the same match number. Contracts see the list.
#[derive(Drop)]
pub struct Trades {
    held: Held,
}

impl Model for Trades {
    ghost use Rattle.std.specs.Prelude.{List};
    ghost use Rattle.order_trades.specs.Found.{AreApart};
    ghost use Rattle.order_trades.specs.Held.{held_trades};
    ghost use Rattle.order_trades.specs.declared.told_trade.ToldTrade.{ToldTrade};

    ghost Value = { List ToldTrade };

    ghost view = { λ t. held_trades t.held };

    ghost invariant = { λ t. AreApart (held_trades t.held) };
}

impl Trades {
    /// None. Takes no memory.
    pub fn new() -> Trades
        ensures { result ≡ [] }
    {
        Trades { held: Held::None }
    }

    /// How many there are.
    pub fn len(&self) -> usize
        ensures { result ≡ length self.now }
    {
        self.held.as_slice().len()
    }

    /// Whether one has this match number, broken or not.
    pub fn holds(&self, match_number: u64) -> bool
        ensures { result ≡ list_any (has_match match_number) self.now }
    {
        match self.held.place_of(match_number) {
            None => false,
            Some(_) => true,
        }
    }

    /// The newest that stands under this match number.
    pub fn standing(&self, match_number: u64) -> Option<ToldTrade>
        ensures { result ≡ find (told_stands match_number) (reverse self.now) }
    {
        match self.standing_place(match_number) {
            None => None,
            Some(place) => Some(self.at(place)),
        }
    }

    /// Its place: the one that `mark` changes, and that `put_back` has to be told to put it back.
    pub fn standing_place(&self, match_number: u64) -> Option<usize>
        ensures newest { MatchOption result
            (find (told_stands match_number) (reverse self.now) ≡ None)
            (λ place. find (told_stands match_number) (reverse self.now) ≡ slice_get self.now place) }
        ensures inside { MatchOption result Unit (λ place. place < length self.now) }
        ensures back { changed_if told_unbroken result (map (told_marked match_number) self.now) ≡ self.now }
    {
        match self.held.place_of(match_number) {
            None => None,
            Some(place) => {
                if self.at(place).trade.is_broken {
                    None
                } else {
                    Some(place)
                }
            }
        }
    }

    /// One more, the newest. None of them has its match number. The first takes no memory. `AllocError` leaves them as
    /// they were.
    pub fn push(&mut self, alloc: Global, told: ToldTrade) -> Result<(), AllocError>
        requires { list_any (has_match told.trade.match_number) self.old ≡ false }
        ensures pushed { OnOk result (self.new ≡ self.old ++ told ∷ []) }
        ensures err { OnErr result (self.new ≡ self.old) }
    {
        self.held.push(alloc, told)
    }

    /// Those with this match number are marked as broken. Takes no memory.
    pub fn mark(&mut self, match_number: u64)
        ensures { self.new ≡ map (told_marked match_number) self.old }
    {
        if let Some(place) = self.held.place_of(match_number) {
            let told = self.at(place);
            self.held.set(place, told.marked(match_number));
        }
    }

    /// The first so many of them, with the one at a place as it was before it was broken. Takes no memory.
    pub fn put_back(&mut self, count: usize, unbroken: Option<usize>)
        ensures { self.new ≡ changed_if told_unbroken unbroken (take count self.old) }
    {
        self.held.truncate(count);
        if let Some(place) = unbroken {
            self.unbreak(place);
        }
    }

    /// The one at a place, if there is one, isn't broken.
    fn unbreak(&mut self, place: usize)
        ensures { self.new ≡ changed_if told_unbroken (Some place) self.old }
    {
        if place < self.len() {
            let told = self.at(place);
            self.held.set(place, told.unbroken());
        }
    }

    /// The one at a place.
    fn at(&self, place: usize) -> ToldTrade
        requires { place < length self.now }
        ensures { slice_get self.now place ≡ Some result }
    {
        self.held.as_slice()[place]
    }
}
