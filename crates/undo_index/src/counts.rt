//! The counts.

ghost use Rattle.std.specs.Prelude.{◌≡◌, ◌≤◌, ◌<◌, ◌+◌, ◌^◌, ℕ, [], None, length, nat_eq, reverse, slice_get};
ghost use Rattle.std.specs.Prelude.{MatchOption, OnOk};
ghost use Rattle.std.specs.List.{find};
ghost use Rattle.undo_index.specs.Newest.{IsNewest};
ghost use Rattle.undo_index.specs.Counts.{counted, is_of, one_if};

use crate::index::HintIndex;
use crate::list::UndoList;
use crate::number_count::{NumberCount, NumberKey};
use std::alloc::{AllocError, Global};
use std::hash::{BuildHasher, BuildHasherDefault, FoldHasher};
use std::marker::Model;

/// How often each number was counted. Contracts see a list of numbers with their counts, now and as it was settled:
/// a number that isn't there was never counted.
#[derive(Drop)]
pub struct NumberCounts<S: BuildHasher + Drop = BuildHasherDefault<FoldHasher>> {
    counts: UndoList<NumberCount>,
    numbers: HintIndex<NumberKey, S>,
}

impl<S: BuildHasher + Drop> Model for NumberCounts<S> {
    ghost use Rattle.undo_index.specs.Hints.{Covered};
    ghost use Rattle.undo_index.specs.Counts.{has_number, room_of_count, same_number};
    ghost use Rattle.undo_index.specs.declared.number_count.NumberCount.{NumberCount};
    ghost use Rattle.undo_index.specs.Undoing.{Undoable};

    ghost Value = { Undoable NumberCount };

    ghost view = { λ c. record {
      now = c.counts.now;
      settled = c.counts.settled;
      pushes = room_of_count c.counts.pushes c.counts.changes c.numbers.room;
      changes = c.counts.changes;
    } };

    ghost invariant = { λ c. Covered same_number has_number c.numbers c.counts };
}

impl NumberCounts {
    /// No number was counted; with the fixed seed. Takes no memory.
    pub fn new(alloc: Global) -> NumberCounts
        ensures now { result.now ≡ [] }
        ensures settled { result.settled ≡ [] }
    {
        NumberCounts {
            counts: UndoList::new(alloc),
            numbers: HintIndex::new(alloc),
        }
    }
}

impl<S: BuildHasher + Drop> NumberCounts<S> {
    /// No number was counted; with a hasher. Takes no memory.
    pub fn with_hasher(alloc: Global, hasher: S) -> NumberCounts<S>
        ensures now { result.now ≡ [] }
        ensures settled { result.settled ≡ [] }
    {
        NumberCounts {
            counts: UndoList::new(alloc),
            numbers: HintIndex::with_hasher(alloc, hasher),
        }
    }

    /// How often a number was counted.
    pub fn of(&self, number: u64) -> usize
        ensures { result ≡ counted number self.now.now }
    {
        match self.place_of(number) {
            None => 0,
            Some(place) => self.counts.item_at(place).count,
        }
    }

    /// The place of a number.
    fn place_of(&self, number: u64) -> Option<usize>
        ensures { MatchOption result
            (find (is_of number) (reverse self.now.now) ≡ None)
            (λ place. IsNewest (is_of number) self.now.now place) }
    {
        let key = NumberKey { number };
        self.numbers.place_of(self.counts.as_slice(), &key, &key)
    }

    /// Makes room to count a number, whichever it is. No count changes, be there memory or not.
    pub fn reserve(&mut self) -> Result<(), AllocError>
        ensures room { OnOk result (1 ≤ self.new.pushes) }
        ensures now { self.new.now ≡ self.old.now }
        ensures settled { self.new.settled ≡ self.old.settled }
    {
        self.counts.reserve_push()?;
        self.counts.reserve_change()?;
        self.numbers.reserve(1)?;
        Ok(())
    }

    /// Counts a number once more, for which there is room. Takes no memory.
    pub fn count(&mut self, number: u64)
        requires room { 1 ≤ self.old.pushes }
        requires fits { counted number self.old.now + 1 < 2 ^ 64 }
        ensures now { (other : ℕ) → counted other self.new.now
            ≡ counted other self.old.now + one_if (nat_eq other number) }
        ensures settled { self.new.settled ≡ self.old.settled }
    {
        match self.place_of(number) {
            None => self.begin(number),
            Some(place) => self.raise(number, place),
        }
    }

    /// Counts a number that isn't there.
    fn begin(&mut self, number: u64)
        requires room { 1 ≤ self.old.pushes }
        requires new { find (is_of number) (reverse self.old.now) ≡ None }
        ensures now { (other : ℕ) → counted other self.new.now
            ≡ counted other self.old.now + one_if (nat_eq other number) }
        ensures settled { self.new.settled ≡ self.old.settled }
    {
        let place = self.counts.as_slice().len();
        self.numbers.note(&self.counts, NumberKey { number }, place);
        self.counts.push(NumberCount { number, count: 1 });
    }

    /// Counts a number that stands at a place.
    fn raise(&mut self, number: u64, place: usize)
        requires room { 1 ≤ self.old.pushes }
        requires at { IsNewest (is_of number) self.old.now place }
        requires fits { counted number self.old.now + 1 < 2 ^ 64 }
        ensures now { (other : ℕ) → counted other self.new.now
            ≡ counted other self.old.now + one_if (nat_eq other number) }
        ensures settled { self.new.settled ≡ self.old.settled }
    {
        let count = self.counts.item_at(place).count;
        self.counts.change(
            place,
            NumberCount {
                number,
                count: count + 1,
            },
        );
    }

    /// From now on the counts are put back to how they are now. Takes no memory.
    pub fn settle(&mut self)
        ensures now { self.new.now ≡ self.old.now }
        ensures settled { self.new.settled ≡ self.old.now }
    {
        self.counts.settle();
    }

    /// Puts the counts back to how they were settled. Takes no memory.
    pub fn undo(&mut self)
        ensures now { self.new.now ≡ self.old.settled }
        ensures settled { self.new.settled ≡ self.old.settled }
    {
        self.counts.undo();
    }
}
