//! The list.

ghost use Rattle.std.specs.Prelude.{◌≡◌, ◌≤◌, ◌<◌, ◌^◌, ◌++◌, ◌∷◌, [], length, slice_get, slice_set};
ghost use Rattle.std.specs.Prelude.{Some, OnOk, true, vec_len, vec_capacity};
ghost use Rattle.undo_index.specs.Undoing.{IsWithin};

use std::alloc::{AllocError, Global};
use std::marker::Model;

/// The room that a list is given with its first item: a day's lists come to so many soon, and each growth is a copy.
const AT_FIRST: usize = 1_024;

/// What stood at a place before it was changed.
#[derive(Drop)]
pub(crate) struct Was<T: Drop> {
    pub place: usize,
    pub item: T,
}

/// A list that grows at its end, and whose items are changed. Contracts see it as it is now, and as it was settled.
///
/// Before the first `settle` it counts as settled with no items.
#[derive(Drop)]
pub struct UndoList<T: Drop> {
    items: Vec<T>,
    /// How many items there were when it was settled.
    count: usize,
    /// What was changed since, the newest last.
    changed: Vec<Was<T>>,
}

impl<T: Drop> Model for UndoList<T> {
    ghost use Rattle.std.specs.Prelude.{◌-◌, ◌≤◌, length, vec_len, vec_capacity};
    ghost use Rattle.undo_index.specs.Undoing.{Undoable, settled_of};

    ghost Value = { Undoable T };

    ghost view = { λ l. record {
      now = l.items.items;
      settled = settled_of l.count l.changed.items l.items.items;
      pushes = vec_capacity l.items - vec_len l.items;
      changes = vec_capacity l.changed - vec_len l.changed;
    } };

    ghost invariant = { λ l. l.count ≤ length l.items.items };
}

impl<T: Drop> UndoList<T> {
    /// No items. Takes no memory.
    pub fn new(alloc: Global) -> UndoList<T>
        ensures now { result.now ≡ [] }
        ensures settled { result.settled ≡ [] }
    {
        UndoList {
            items: Vec::new(alloc),
            count: 0,
            changed: Vec::new(alloc),
        }
    }

    /// The items, the oldest first.
    pub fn as_slice(&self) -> &[T]
        ensures { result.now ≡ self.now.now }
    {
        self.items.as_slice()
    }

    /// The item at a place.
    pub fn item_at(&self, place: usize) -> &T
        requires { place < length self.now.now }
        ensures { slice_get self.now.now place ≡ Some result.now }
    {
        &self.items[place]
    }

    /// Whether nothing was changed but at the end since it was settled: what stood there then stands there now.
    pub fn is_still(&self) -> bool
        ensures { result ≡ true → IsWithin self.now.settled self.now.now }
    {
        self.changed.is_empty()
    }

    /// Makes room for one item more, at first for many. Nothing else changes, be there memory or not.
    pub fn reserve_push(&mut self) -> Result<(), AllocError>
        ensures room { OnOk result (1 ≤ self.new.pushes) }
        ensures now { self.new.now ≡ self.old.now }
        ensures settled { self.new.settled ≡ self.old.settled }
        ensures changes { self.new.changes ≡ self.old.changes }
    {
        if self.items.capacity() == 0 {
            return self.items.reserve(AT_FIRST);
        }
        self.items.reserve(1)
    }

    /// Makes room for one change more. Nothing else changes, be there memory or not.
    pub fn reserve_change(&mut self) -> Result<(), AllocError>
        ensures room { OnOk result (1 ≤ self.new.changes) }
        ensures now { self.new.now ≡ self.old.now }
        ensures settled { self.new.settled ≡ self.old.settled }
        ensures pushes { self.new.pushes ≡ self.old.pushes }
    {
        self.changed.reserve(1)
    }

    /// One item more behind the others, for which there is room. Takes no memory.
    pub fn push(&mut self, item: T)
        requires { 1 ≤ self.old.pushes }
        ensures now { self.new.now ≡ self.old.now ++ item ∷ [] }
        ensures few { length self.new.now < 2 ^ 64 }
        ensures settled { self.new.settled ≡ self.old.settled }
    {
        self.items.push_reserved(item);
    }

    /// Another item at a place, where there is room for a change. Takes no memory.
    pub fn change(&mut self, place: usize, item: T)
        requires inside { place < length self.old.now }
        requires room { 1 ≤ self.old.changes }
        ensures now { self.new.now ≡ slice_set self.old.now place item }
        ensures settled { self.new.settled ≡ self.old.settled }
    {
        let was = std::mem::replace(&mut self.items[place], item);
        self.changed.push_reserved(Was { place, item: was });
    }

    /// From now on it is put back to how it is now. Takes no memory.
    pub fn settle(&mut self)
        ensures now { self.new.now ≡ self.old.now }
        ensures settled { self.new.settled ≡ self.old.now }
    {
        self.count = self.items.len();
        self.changed.clear();
    }

    /// Puts it back to how it was settled. Takes no memory.
    pub fn undo(&mut self)
        ensures now { self.new.now ≡ self.old.settled }
        ensures settled { self.new.settled ≡ self.old.settled }
    {
        self.items.truncate(self.count);
        while let Some(was) = self.changed.pop() {
            if was.place < self.items.len() {
                self.items[was.place] = was.item;
            }
        }
    }
}
