//! The ids that clients have used.

ghost use Rattle.std.specs.Prelude.{◌≡◌, ◌≤◌, ◌<◌, ◌^◌, ◌++◌, ◌∷◌, [], length, OnOk};
ghost use Rattle.undo_index.specs.TextKeys.{same_key};
ghost use Rattle.order_machine.specs.Table as table;
ghost use Rattle.order_core.specs.UsedKeys.{has_used_key};
ghost use Rattle.order_core.specs.UsedKeyLaws.{used-alike};

use fix_values::ClOrdId;
use std::alloc::{AllocError, Global};
use std::hash::{BuildHasher, BuildHasherDefault, FoldHasher};
use std::marker::Model;
use undo_index::{HintIndex, Keyed, Sought, TextKey, UndoList};

/// A ClOrdID (11) that a client has used.
#[derive(Drop)]
pub struct UsedId {
    /// The number of the client, from 1.
    client: u16,
    cl_ord_id: ClOrdId,
}

impl Model for UsedId {
    ghost use Rattle.order_machine.specs.Table as table;

    ghost Value = { table.UsedId };

    ghost view = { λ u. record { client = u.client; id = u.cl_ord_id } };
}

impl UsedId {
    /// A ClOrdID that a client has used.
    pub fn new(client: u16, cl_ord_id: ClOrdId) -> UsedId
        ensures { result ≡ record { client = client; id = cl_ord_id } }
    {
        UsedId { client, cl_ord_id }
    }
}

impl Keyed<TextKey> for UsedId {
    ghost has = { has_used_key };

    ghost respects_eq = { used-alike };

    fn has_key(&self, key: &TextKey) -> bool {
        is_key_of(key, self)
    }
}

/// Whether a key is that of a used id.
fn is_key_of(key: &TextKey, used: &UsedId) -> bool
    ensures { result ≡ has_used_key key.now used.now }
{
    *key == TextKey::of(used.client, used.cl_ord_id.as_slice())
}

/// An id of a client, looked for among the used ones.
#[derive(Clone, Copy)]
struct ById<'a> {
    client: u16,
    id: &'a [u8],
}

impl<'a> Sought<UsedId> for ById<'a> {
    ghost sought = { λ q u. table.is_same_id q.client q.id.now u };

    fn is(&self, used: &UsedId) -> bool {
        is_same_id(self.client, self.id, used)
    }
}

/// Whether a used id is the client's and this one.
fn is_same_id(client: u16, id: &[u8], used: &UsedId) -> bool
    ensures { result ≡ table.is_same_id client id.now used.now }
{
    used.client == client && used.cl_ord_id.as_slice() == id
}

/// The ids that clients have used, the oldest first, each found by its client and its bytes. Contracts see the list,
/// now and as it was settled, and for how many ids more there is room.
pub struct UsedIds<S: BuildHasher + Drop = BuildHasherDefault<FoldHasher>> {
    ids: UndoList<UsedId>,
    keys: HintIndex<TextKey, S>,
}

// Not derived: then each way out drops it in one call (docs/DECISIONS.md, "Drops").
impl<S: BuildHasher + Drop> Drop for UsedIds<S> {
    fn drop(self) {
        let UsedIds { ids: _, keys: _ } = self;
    }
}

impl<S: BuildHasher + Drop> Model for UsedIds<S> {
    ghost use Rattle.undo_index.specs.Hints.{Covered};
    ghost use Rattle.undo_index.specs.TextKeys.{same_key};
    ghost use Rattle.order_machine.specs.Table as table;
    ghost use Rattle.order_core.specs.UsedKeys.{has_used_key, room_of};
    ghost use Rattle.undo_index.specs.Undoing.{Undoable};

    ghost Value = { Undoable table.UsedId };

    ghost view = { λ u. record {
      now = u.ids.now;
      settled = u.ids.settled;
      pushes = room_of u.ids.pushes u.keys.room;
      changes = u.ids.changes;
    } };

    ghost invariant = { λ u. Covered same_key has_used_key u.keys u.ids };
}

impl UsedIds {
    /// No ids, with the fixed seed. Takes no memory.
    pub fn new(alloc: Global) -> UsedIds
        ensures now { result.now ≡ [] }
        ensures settled { result.settled ≡ [] }
    {
        UsedIds {
            ids: UndoList::new(alloc),
            keys: HintIndex::new(alloc),
        }
    }
}

impl<S: BuildHasher + Drop> UsedIds<S> {
    /// No ids, with a hasher. Takes no memory.
    pub fn with_hasher(alloc: Global, hasher: S) -> UsedIds<S>
        ensures now { result.now ≡ [] }
        ensures settled { result.settled ≡ [] }
    {
        UsedIds {
            ids: UndoList::new(alloc),
            keys: HintIndex::with_hasher(alloc, hasher),
        }
    }

    /// Whether a client has used an id.
    pub fn is_used(&self, client: u16, cl_ord_id: &ClOrdId) -> bool
        ensures { result ≡ table.has_used self.now.now client cl_ord_id.now }
    {
        let id = cl_ord_id.as_slice();
        let key = TextKey::of(client, id);
        self.keys
            .contains(self.ids.as_slice(), &key, &ById { client, id })
    }

    /// Makes room for one id more. Nothing else changes, be there memory or not.
    pub fn reserve_push(&mut self) -> Result<(), AllocError>
        ensures room { OnOk result (1 ≤ self.new.pushes) }
        ensures now { self.new.now ≡ self.old.now }
        ensures settled { self.new.settled ≡ self.old.settled }
    {
        self.ids.reserve_push()?;
        self.keys.reserve(1)?;
        Ok(())
    }

    /// One id more behind the others, for which there is room. Takes no memory.
    pub fn push(&mut self, id: UsedId)
        requires { 1 ≤ self.old.pushes }
        ensures now { self.new.now ≡ self.old.now ++ id ∷ [] }
        ensures few { length self.new.now < 2 ^ 64 }
        ensures settled { self.new.settled ≡ self.old.settled }
    {
        let place = self.ids.as_slice().len();
        let key = TextKey::of(id.client, id.cl_ord_id.as_slice());
        self.keys.note(&self.ids, key, place);
        self.ids.push(id);
    }

    /// From now on the list is put back to how it is now. Takes no memory.
    pub fn settle(&mut self)
        ensures now { self.new.now ≡ self.old.now }
        ensures settled { self.new.settled ≡ self.old.now }
    {
        self.ids.settle();
    }

    /// Puts the list back to how it was settled. Takes no memory.
    pub fn undo(&mut self)
        ensures now { self.new.now ≡ self.old.settled }
        ensures settled { self.new.settled ≡ self.old.settled }
    {
        self.ids.undo();
    }
}
