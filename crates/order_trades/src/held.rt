//! Where the trades of an order stand.

ghost use Rattle.std.specs.Prelude.{◌≡◌, ◌<◌, ◌++◌, ◌∷◌, [], Some, false, length, take, slice_get, slice_set};
ghost use Rattle.std.specs.Prelude.{IfOk, OnOk, OnErr, MatchOption};
ghost use Rattle.std.specs.List.{list_any, position};
ghost use Rattle.order_trades.specs.Found.{AreApart, IsAt};
ghost use Rattle.order_trades.specs.Held.{held_trades};
ghost use Rattle.order_trades.specs.Marking.{has_match};
ghost use Rattle.order_trades.specs.declared.told_trade.ToldTrade.{ToldTrade};

use crate::indexed::Indexed;
use crate::told_trade::ToldTrade;
use std::alloc::{AllocError, Global};
use std::slice;

/// A list that comes to a second trade is given room for so many.
const ROOM: usize = 4;

/// So many trades are walked; with one more they have an index.
const MOST_WALKED: usize = 16;

/// Where trades stand: one in the value itself, a few in a list, many in a list with an index.
#[derive(Drop)]
pub(crate) enum Held {
    None,
    One(ToldTrade),
    Few(Vec<ToldTrade>),
    Many(Box<Indexed>),
}

impl Held {
    /// The trades, the oldest first.
    pub fn as_slice(&self) -> &[ToldTrade]
        ensures { result.now ≡ held_trades self.now }
    {
        match self {
            Held::None => &[],
            Held::One(told) => slice::from_ref(told),
            Held::Few(trades) => trades.as_slice(),
            Held::Many(indexed) => indexed.as_ref().as_slice(),
        }
    }

    /// The place of the trade with a match number.
    pub fn place_of(&self, match_number: u64) -> Option<usize>
        ensures { MatchOption result
            (list_any (has_match match_number) (held_trades self.now) ≡ false)
            (IsAt match_number (held_trades self.now)) }
    {
        match self {
            Held::None => None,
            Held::One(told) => place_in(slice::from_ref(told), match_number),
            Held::Few(trades) => place_in(trades, match_number),
            Held::Many(indexed) => indexed.as_ref().place_of(match_number),
        }
    }

    /// One trade more behind the others, none of which has its match number. The first takes no memory. `AllocError`
    /// leaves them as they were.
    pub fn push(&mut self, alloc: Global, told: ToldTrade) -> Result<(), AllocError>
        requires apart { AreApart (held_trades self.old) }
        requires new { list_any (has_match told.trade.match_number) (held_trades self.old) ≡ false }
        ensures pushed { OnOk result (held_trades self.new ≡ held_trades self.old ++ told ∷ []) }
        ensures err { OnErr result (held_trades self.new ≡ held_trades self.old) }
    {
        match self {
            Held::None => {
                *self = Held::One(told);
            }
            Held::One(first) => {
                let two = two_of(alloc, *first, told)?;
                *self = Held::Few(two);
            }
            Held::Few(trades) => {
                if trades.len() < MOST_WALKED {
                    trades.push(told)?;
                } else {
                    let indexed = indexed_with(alloc, trades.as_slice(), told)?;
                    *self = Held::Many(indexed);
                }
            }
            Held::Many(indexed) => {
                indexed.as_mut().push(told)?;
            }
        }
        Ok(())
    }

    /// A trade with the same match number at a place. Takes no memory.
    pub fn set(&mut self, place: usize, told: ToldTrade)
        requires inside { place < length (held_trades self.old) }
        requires same { (was : ToldTrade) → slice_get (held_trades self.old) place ≡ Some was
            → was.trade.match_number ≡ told.trade.match_number }
        ensures { held_trades self.new ≡ slice_set (held_trades self.old) place told }
    {
        match self {
            Held::None => {}
            Held::One(only) => *only = told,
            Held::Few(trades) => trades[place] = told,
            Held::Many(indexed) => indexed.as_mut().set(place, told),
        }
    }

    /// The first so many trades. Takes no memory.
    pub fn truncate(&mut self, count: usize)
        ensures { held_trades self.new ≡ take count (held_trades self.old) }
    {
        match self {
            Held::None => {}
            Held::One(_) => {
                if count == 0 {
                    *self = Held::None;
                }
            }
            Held::Few(trades) => trades.truncate(count),
            Held::Many(indexed) => indexed.as_mut().truncate(count),
        }
    }
}

/// Two trades in a list.
fn two_of(alloc: Global, first: ToldTrade, second: ToldTrade) -> Result<Vec<ToldTrade>, AllocError>
    ensures { IfOk result (λ two. two.items ≡ first ∷ second ∷ []) }
{
    let mut two = Vec::with_capacity(alloc, ROOM)?;
    two.push_reserved(first);
    two.push_reserved(second);
    Ok(two)
}

/// These trades and one behind them, with an index.
fn indexed_with(
    alloc: Global,
    trades: &[ToldTrade],
    told: ToldTrade,
) -> Result<Box<Indexed>, AllocError>
    requires apart { AreApart trades.now }
    requires new { list_any (has_match told.trade.match_number) trades.now ≡ false }
    ensures { IfOk result (λ indexed. indexed.value ≡ trades.now ++ told ∷ []) }
{
    let mut indexed = Indexed::of(alloc, trades)?;
    indexed.push(told)?;
    Ok(Box::new(alloc, indexed)?)
}

/// The place of the first of these trades that has a match number.
fn place_in(trades: &[ToldTrade], match_number: u64) -> Option<usize>
    ensures { MatchOption result
        (list_any (has_match match_number) trades.now ≡ false)
        (IsAt match_number trades.now) }
{
    walked_to(trades, match_number)
}

/// The same, as it is found.
fn walked_to(trades: &[ToldTrade], match_number: u64) -> Option<usize>
    ensures { result ≡ position (has_match match_number) trades.now }
{
    trades.iter().position(|told| told.has_match(match_number))
}
