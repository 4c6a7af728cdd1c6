//! Trades with an index by match number.

ghost use Rattle.std.specs.Prelude.{◌≡◌, ◌≤◌, ◌<◌, ◌++◌, ◌∷◌, ℕ, [], Some, true, false, cond, length, take, slice_get};
ghost use Rattle.std.specs.Prelude.{slice_set, nat_eq, IfOk, OnOk, OnErr, MatchOption};
ghost use Rattle.std.specs.List.{list_any};
ghost use Rattle.indexmap.specs.IndexMap.{spare};
ghost use Rattle.order_trades.specs.Found.{AreApart, IsAt, noted};
ghost use Rattle.order_trades.specs.Marking.{has_match};
ghost use Rattle.order_trades.specs.declared.told_trade.ToldTrade.{ToldTrade};

use crate::told_trade::ToldTrade;
use indexmap::IndexMap;
use std::alloc::{AllocError, Global};
use std::marker::Model;

/// Trades, the oldest first, and of each match number the place. Contracts see the list.
///
/// The index keeps numbers of trades that the list was cut off before: what it leads to is compared.
#[derive(Drop)]
pub(crate) struct Indexed {
    list: Vec<ToldTrade>,
    places: IndexMap<u64, usize>,
}

impl Model for Indexed {
    ghost use Rattle.std.specs.Prelude.{List};
    ghost use Rattle.order_trades.specs.Found.{Leads};
    ghost use Rattle.order_trades.specs.declared.told_trade.ToldTrade.{ToldTrade};

    ghost Value = { List ToldTrade };

    ghost view = { λ i. i.list.items };

    ghost invariant = { λ i. Leads i.places.entries i.list.items };
}

impl Indexed {
    /// No trades. Takes no memory.
    fn new(alloc: Global) -> Indexed
        ensures { result ≡ [] }
    {
        Indexed {
            list: Vec::new(alloc),
            places: IndexMap::new(alloc),
        }
    }

    /// These trades, of which no two have the same match number.
    pub fn of(alloc: Global, trades: &[ToldTrade]) -> Result<Indexed, AllocError>
        requires { AreApart trades.now }
        ensures { IfOk result (λ indexed. indexed ≡ trades.now) }
    {
        let mut indexed = Indexed::new(alloc);
        indexed.push_all(trades)?;
        Ok(indexed)
    }

    /// The trades.
    pub fn as_slice(&self) -> &[ToldTrade]
        ensures { result.now ≡ self.now }
    {
        self.list.as_slice()
    }

    /// The place of the trade with a match number.
    pub fn place_of(&self, match_number: u64) -> Option<usize>
        ensures { MatchOption result
            (list_any (has_match match_number) self.now ≡ false)
            (IsAt match_number self.now) }
    {
        match self.places.get(&match_number).copied() {
            None => None,
            Some(place) => place_if(&self.list, place, match_number),
        }
    }

    /// One trade more behind the others, none of which has its match number. `AllocError` leaves them as they were.
    pub fn push(&mut self, told: ToldTrade) -> Result<(), AllocError>
        requires { list_any (has_match told.trade.match_number) self.old ≡ false }
        ensures pushed { OnOk result (self.new ≡ self.old ++ told ∷ []) }
        ensures err { OnErr result (self.new ≡ self.old) }
    {
        self.list.reserve(1)?;
        self.places.reserve(1)?;
        let place = self.list.len();
        note(&mut self.places, told.trade.match_number, place);
        self.list.push_reserved(told);
        Ok(())
    }

    /// These behind none.
    fn push_all(&mut self, trades: &[ToldTrade]) -> Result<(), AllocError>
        requires none { self.old ≡ [] }
        requires apart { AreApart trades.now }
        ensures { OnOk result (self.new ≡ trades.now) }
    {
        for told in trades {
            self.push(*told)?;
        }
        Ok(())
    }

    /// A trade with the same match number at a place. Takes no memory.
    pub fn set(&mut self, place: usize, told: ToldTrade)
        requires inside { place < length self.old }
        requires same { (was : ToldTrade) → slice_get self.old place ≡ Some was
            → was.trade.match_number ≡ told.trade.match_number }
        ensures { self.new ≡ slice_set self.old place told }
    {
        self.list[place] = told;
    }

    /// The first so many trades. Takes no memory.
    pub fn truncate(&mut self, count: usize)
        ensures { self.new ≡ take count self.old }
    {
        self.list.truncate(count);
    }
}

/// Notes the place of a match number, for which there is room. Takes no memory.
fn note(places: &mut IndexMap<u64, usize>, match_number: u64, place: usize)
    requires { 1 ≤ spare places.old }
    ensures { (other : ℕ) → noted places.new.entries other
        ≡ cond (nat_eq match_number other) (Some place) (noted places.old.entries other) }
{
    match places.insert(match_number, place) {
        Ok(_) => {}
        Err(_) => {}
    }
}

/// A place, where the trade there has a match number. No trade elsewhere has it.
fn place_if(trades: &[ToldTrade], place: usize, match_number: u64) -> Option<usize>
    requires { (i : ℕ) (t : ToldTrade) → slice_get trades.now i ≡ Some t
        → t.trade.match_number ≡ match_number → place ≡ i }
    ensures { MatchOption result
        (list_any (has_match match_number) trades.now ≡ false)
        (IsAt match_number trades.now) }
{
    if is_at(trades, place, match_number) {
        Some(place)
    } else {
        None
    }
}

/// Whether the trade at a place has a match number.
fn is_at(trades: &[ToldTrade], place: usize, match_number: u64) -> bool
    ensures no { result ≡ false → (t : ToldTrade) → slice_get trades.now place ≡ Some t
        → has_match match_number t ≡ false }
    ensures yes { result ≡ true → (t : ToldTrade) × (slice_get trades.now place ≡ Some t)
        × (has_match match_number t ≡ true) }
{
    if place < trades.len() {
        trades[place].has_match(match_number)
    } else {
        false
    }
}
