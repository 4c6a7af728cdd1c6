//! The index.

ghost use Rattle.std.specs.Prelude.{◌≡◌, ◌≤◌, ◌+◌, ℕ, List, true, false, None, Some, [], IfOk, OnOk, reverse};
ghost use Rattle.std.specs.Prelude.{slice_get, cond};
ghost use Rattle.undo_index.specs.declared.hint.Hint.{Hint};
ghost use Rattle.std.specs.Prelude.{MatchOption};
ghost use Rattle.std.specs.List.{find, list_any};
ghost use Rattle.undo_index.specs.Undoing.{IsWithin};
ghost use Rattle.undo_index.specs.Hints.{Covered, Covers, LeadsTo, LedBy, hint_of};
ghost use Rattle.undo_index.specs.Newest.{IsNewest, OnlyAt};

use crate::found::{newest, only};
use crate::hint::Hint;
use crate::keyed::{Keyed, Sought};
use crate::settled_list::SettledList;
use indexmap::IndexMap;
use std::alloc::{AllocError, Global};
use std::hash::{BuildHasher, BuildHasherDefault, FoldHasher, Hash};
use std::marker::Model;

/// The room that the first key is given with: a day's keys come to so many soon, and each growth is a copy.
const AT_FIRST: usize = 1_024;

/// Of each key that was noted, a hint where the items with it may stand. Contracts see the keys with their hints, and
/// for how many keys more there is room; of the hasher they see nothing.
#[derive(Drop)]
pub struct HintIndex<K: Eq + Hash + Drop, S: BuildHasher + Drop = BuildHasherDefault<FoldHasher>> {
    hints: IndexMap<K, Hint, S>,
}

impl<K: Eq + Hash + Drop, S: BuildHasher + Drop> Model for HintIndex<K, S> {
    ghost use Rattle.indexmap.specs.IndexMap.{spare};
    ghost use Rattle.undo_index.specs.Hints.{Hints};

    ghost Value = { Hints K };

    ghost view = { λ i. record { entries = i.hints.entries; room = spare i.hints } };
}

impl<K: Eq + Hash + Drop> HintIndex<K> {
    /// No keys, with the fixed seed. Takes no memory.
    pub fn new(alloc: Global) -> HintIndex<K>
        ensures { result.entries ≡ [] }
    {
        HintIndex {
            hints: IndexMap::new(alloc),
        }
    }
}

impl<K: Eq + Hash + Drop, S: BuildHasher + Drop> HintIndex<K, S> {
    /// No keys, with a hasher. Takes no memory.
    pub fn with_hasher(alloc: Global, hasher: S) -> HintIndex<K, S>
        ensures { result.entries ≡ [] }
    {
        HintIndex {
            hints: IndexMap::with_hasher(alloc, hasher),
        }
    }

    /// Makes room for so many keys more, at first for many. No hint changes, be there memory or not.
    pub fn reserve(&mut self, count: usize) -> Result<(), AllocError>
        ensures room { OnOk result (count ≤ self.new.room) }
        ensures entries { self.new.entries ≡ self.old.entries }
    {
        if self.hints.is_empty() {
            return self.hints.reserve(count.max(AT_FIRST));
        }
        self.hints.reserve(count)
    }

    /// Notes that an item with a key stands at a place of a list, or is to stand there before the next look-up. There
    /// is room for a key. Takes no memory.
    ///
    /// Items that are there, and those that the list is put back to, are led to as before.
    pub fn note<T: Keyed<K>, L: SettledList<T>>(&mut self, list: &L, key: K, place: usize)
    where
        K: Copy,
        requires room { 1 ≤ self.old.room }
        ensures leads { LeadsTo (hint_of K.eq self.new key) place }
        ensures keeps { (k : K) → LeadsTo (hint_of K.eq self.old k) place → LeadsTo (hint_of K.eq self.new k) place }
        ensures covered { Covered K.eq T.has self.old (L.lists list.now)
            → Covered K.eq T.has self.new (L.lists list.now) }
        ensures room_left { self.old.room ≤ self.new.room + 1 }
    {
        let was = self.put(key, place);
        let is_only = is_only(was, list.items(), list.is_unchanged(), &key, place);
        if !is_only {
            self.share(&key);
        }
    }

    /// Puts a hint that an item with a key stands at a place alone, and gives the one that was there.
    fn put(&mut self, key: K, place: usize) -> Option<Hint>
        requires { 1 ≤ self.old.room }
        ensures was { result ≡ hint_of K.eq self.old key }
        ensures there { hint_of K.eq self.new key ≡ Some (record { place = place; is_only = true }) }
        ensures put { (q : K) → hint_of K.eq self.new q
            ≡ cond (K.eq key q) (Some (record { place = place; is_only = true })) (hint_of K.eq self.old q) }
        ensures room_left { self.old.room ≤ self.new.room + 1 }
    {
        match self.hints.insert(
            key,
            Hint {
                place,
                is_only: true,
            },
        ) {
            Ok(was) => was,
            Err(_) => None,
        }
    }

    /// Says of a key's hint that items with it may stand elsewhere, too.
    fn share(&mut self, key: &K)
        ensures shared { (h : Hint) → hint_of K.eq self.old key.now ≡ Some h → (q : K) → hint_of K.eq self.new q
            ≡ cond (K.eq key.now q) (Some (record { place = h.place; is_only = false })) (hint_of K.eq self.old q) }
        ensures own { (h : Hint) → hint_of K.eq self.old key.now ≡ Some h
            → hint_of K.eq self.new key.now ≡ Some (record { place = h.place; is_only = false }) }
        ensures room { self.old.room ≤ self.new.room }
    {
        if let Some(hint) = self.hints.get_mut(key) {
            hint.is_only = false;
        }
    }

    /// The place of the newest item that is looked for, by a key that each such item has. Takes no memory.
    pub fn place_of<T, Q: Sought<T>>(&self, items: &[T], key: &K, query: &Q) -> Option<usize>
        requires { LedBy (hint_of K.eq self.now key.now) (Q.sought query.now) items.now }
        ensures { MatchOption result
            (find (Q.sought query.now) (reverse items.now) ≡ None)
            (λ place. IsNewest (Q.sought query.now) items.now place) }
    {
        place_by(self.hints.get(key).copied(), items, query)
    }

    /// Whether an item that is looked for is there, by a key that each such item has. Takes no memory.
    pub fn contains<T, Q: Sought<T>>(&self, items: &[T], key: &K, query: &Q) -> bool
        requires { LedBy (hint_of K.eq self.now key.now) (Q.sought query.now) items.now }
        ensures { result ≡ list_any (Q.sought query.now) items.now }
    {
        match self.place_of(items, key, query) {
            None => false,
            Some(_) => true,
        }
    }
}

/// The place of the newest item that is looked for, to which a hint leads.
fn place_by<T, Q: Sought<T>>(hint: Option<Hint>, items: &[T], query: &Q) -> Option<usize>
    requires { LedBy hint (Q.sought query.now) items.now }
    ensures { MatchOption result
        (find (Q.sought query.now) (reverse items.now) ≡ None)
        (λ place. IsNewest (Q.sought query.now) items.now place) }
{
    match hint {
        None => None,
        Some(hint) => {
            if hint.is_only {
                only(items, hint.place, query)
            } else {
                newest(items, query)
            }
        }
    }
}

/// Whether no item has a key but one at a place: none of these, and none that these are put back to.
fn is_only<K: Eq + Hash, T: Keyed<K>>(
    hint: Option<Hint>,
    items: &[T],
    is_still: bool,
    key: &K,
    place: usize,
) -> bool
    ensures any { result ≡ true → (xs : List T) → (is_still ≡ true → IsWithin xs items.now)
        → LedBy hint (T.has key.now) xs → OnlyAt place (T.has key.now) xs }
    ensures now { result ≡ true → LedBy hint (T.has key.now) items.now → OnlyAt place (T.has key.now) items.now }
{
    match hint {
        None => true,
        Some(hint) => {
            if hint.place == place {
                hint.is_only
            } else {
                is_still && (hint.is_only && !has_at(items, hint.place, key))
            }
        }
    }
}

/// Whether the item at a place has a key.
fn has_at<K: Eq + Hash, T: Keyed<K>>(items: &[T], place: usize, key: &K) -> bool
    ensures no { result ≡ false → (item : T) → slice_get items.now place ≡ Some item
        → T.has key.now item ≡ false }
{
    if place < items.len() {
        items[place].has_key(key)
    } else {
        false
    }
}
