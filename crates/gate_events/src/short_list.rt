//! The list.

ghost use Rattle.std.specs.Prelude.{◌≡◌, ◌++◌, ◌∷◌, [], ◌==◌, ◌<◌, ◌+◌, length, slice_set, take, vec_len, vec_capacity};
ghost use Rattle.std.specs.Prelude.{IfOk, OnOk, OnErr};
ghost use Rattle.gate_events.specs.Held.{held_items, IsOne};

use std::alloc::{AllocError, Global};
use std::marker::Model;
use std::mem;
use std::ops::DerefSlice;

/// A list that comes to a second item is given room for so many.
const ROOM: usize = 4;

/// Where the items stand.
#[derive(Debug, Drop)]
pub(crate) enum Held<T> {
    None,
    One([T; 1]),
    Many(Vec<T>),
}

/// A list that takes no memory as long as it has one item at most. Contracts see the items.
#[derive(Debug, Drop)]
pub struct ShortList<T> {
    held: Held<T>,
}

impl<T> Model for ShortList<T> {
    ghost use Rattle.gate_events.specs.ShortList.{ShortList as Items, short_list_code};

    ghost Value = { Items T };

    ghost coded = { short_list_code T.code };

    ghost use Rattle.gate_events.specs.Held.{held_items, IsOneAtOne};

    ghost view = { λ list. record { items = held_items list.held } };

    ghost invariant = { λ list. IsOneAtOne list.held };
}

impl<T> ShortList<T> {
    /// No items. Takes no memory.
    pub fn new() -> ShortList<T>
        ensures items { result.items ≡ [] }
    {
        ShortList { held: Held::None }
    }

    /// One item. Takes no memory.
    pub fn of(item: T) -> ShortList<T>
        ensures { result.items ≡ item ∷ [] }
    {
        ShortList {
            held: Held::One([item]),
        }
    }

    /// These items, in their own memory. Takes none.
    pub fn of_items(items: Vec<T>) -> ShortList<T>
        ensures { result.items ≡ items.items }
    {
        ShortList {
            held: Held::Many(items),
        }
    }

    /// The items, in order. Takes no memory.
    pub fn as_slice(&self) -> &[T]
        ensures value { result.now ≡ self.now.items }
    {
        match &self.held {
            Held::None => &[],
            Held::One(item) => item,
            Held::Many(items) => items.as_slice(),
        }
    }

    /// Whether there is no item. Takes no memory.
    pub fn is_empty(&self) -> bool
        ensures { result ≡ (length self.now.items == 0) }
    {
        match &self.held {
            Held::None => true,
            Held::One(_) => false,
            Held::Many(items) => items.is_empty(),
        }
    }

    /// How many items there are. Takes no memory.
    pub fn len(&self) -> usize
        ensures { result ≡ length self.now.items }
    {
        match &self.held {
            Held::None => 0,
            Held::One(_) => 1,
            Held::Many(items) => items.len(),
        }
    }
}

impl<T> DerefSlice for ShortList<T> {
    type Elem = T;

    ghost deref_gives = { λ list items. items ≡ list.items };

    fn deref(&self) -> &[T]
        ensures value { result.now ≡ self.now.items }
    {
        self.as_slice()
    }
}

impl<T: Drop> ShortList<T> {
    /// One item more behind the others. The first takes no memory, another one a growth at most. `AllocError` leaves
    /// the list as it was.
    pub fn push(&mut self, alloc: Global, item: T) -> Result<(), AllocError>
        ensures items { OnOk result (self.new.items ≡ self.old.items ++ item ∷ []) }
        ensures err { OnErr result (self.new ≡ self.old) }
    {
        match &mut self.held {
            Held::None => {
                self.held = Held::One([item]);
                Ok(())
            }
            Held::One(_) => {
                let mut items = Vec::with_capacity(alloc, ROOM)?;
                put_one(mem::replace(&mut self.held, Held::None), &mut items);
                items.push_reserved(item);
                self.held = Held::Many(items);
                Ok(())
            }
            Held::Many(items) => {
                items.push(item)?;
                Ok(())
            }
        }
    }

    /// Another item at a place. Takes no memory.
    pub fn set(&mut self, place: usize, item: T)
        requires { place < length self.old.items }
        ensures { self.new.items ≡ slice_set self.old.items place item }
    {
        match &mut self.held {
            Held::None => {}
            Held::One(only) => *only = [item],
            Held::Many(items) => items[place] = item,
        }
    }

    /// The first so many items; all of them, where there are no more. Takes no memory.
    pub fn truncate(&mut self, count: usize)
        ensures { self.new.items ≡ take count self.old.items }
    {
        match &mut self.held {
            Held::None => {}
            Held::One(_) => {
                if count == 0 {
                    self.held = Held::None;
                }
            }
            Held::Many(items) => items.truncate(count),
        }
    }

    /// This list, and that one behind it. Takes no memory where they have one item at most together.
    pub fn followed_by(self, alloc: Global, rest: ShortList<T>) -> Result<ShortList<T>, AllocError>
        ensures { IfOk result (λ all. all.items ≡ self.items ++ rest.items) }
    {
        let mut all = self;
        all.push_held(alloc, rest.held)?;
        Ok(all)
    }

    /// These items behind the others.
    fn push_held(&mut self, alloc: Global, more: Held<T>) -> Result<(), AllocError>
        ensures { OnOk result (self.new.items ≡ self.old.items ++ held_items more) }
    {
        match more {
            Held::None => Ok(()),
            Held::One(array) => {
                let [item] = array;
                self.push(alloc, item)
            }
            Held::Many(items) => self.push_all(alloc, items),
        }
    }

    /// Items behind the others.
    fn push_all(&mut self, alloc: Global, items: Vec<T>) -> Result<(), AllocError>
        ensures { OnOk result (self.new.items ≡ self.old.items ++ items.items) }
    {
        for item in items {
            self.push(alloc, item)?;
        }
        Ok(())
    }
}

/// The one item behind others, for which there is room.
fn put_one<T: Drop>(held: Held<T>, to: &mut Vec<T>)
    requires one { IsOne held }
    requires room { vec_len to.old < vec_capacity to.old }
    ensures items { to.new.items ≡ to.old.items ++ held_items held }
    ensures len { vec_len to.new ≡ vec_len to.old + 1 }
    ensures room { vec_capacity to.new ≡ vec_capacity to.old }
{
    match held {
        Held::One(array) => {
            let [item] = array;
            to.push_reserved(item);
        }
        Held::None => {}
        Held::Many(_items) => {}
    }
}
