//! The list of orders with its indexes.

ghost use Rattle.std.specs.Prelude.{◌≡◌, ◌+◌, ◌≤◌, ◌<◌, ◌^◌, ◌++◌, ◌∷◌, [], None, Some, true, decimal, length};
ghost use Rattle.std.specs.Prelude.{reverse};
ghost use Rattle.std.specs.Prelude.{slice_get, slice_set, MatchOption, IfOk, OnErr, OnOk};
ghost use Rattle.std.specs.List.{find};
ghost use Rattle.undo_index.specs.Hints.{Covered, LeadsTo, hint_of};
ghost use Rattle.undo_index.specs.Newest.{IsNewest};
ghost use Rattle.order_table.specs.declared.keys.NameKey.{NameKey as Key};
ghost use Rattle.order_machine.specs.OrderRecord.{OrderRecord, at};
ghost use Rattle.order_machine.specs.Table as table;
ghost use Rattle.order_table.specs.Keys.{has_name_key, same_name};
ghost use Rattle.undo_orders.specs.Changes.{Fits, changed_by};
ghost use Rattle.undo_orders.specs.Seen.{cancel_of, replace_of};

use crate::keys::{ByName, ByNumber, NameKey, NumberKey, key_of_cancel};
use orders::{Cancelling, Change, Order, Replacing};
use std::alloc::{AllocError, Global};
use std::hash::{BuildHasher, BuildHasherDefault, FoldHasher};
use std::marker::Model;
use undo_index::HintIndex;
use undo_orders::UndoOrders;

/// The accepted orders, the oldest first, each found by its number and by the ids that it goes by. Contracts see the
/// list, now and as it was settled, and for how many orders more there is room.
pub(crate) struct OrderList<S: BuildHasher + Drop = BuildHasherDefault<FoldHasher>> {
    orders: UndoOrders,
    numbers: HintIndex<NumberKey>,
    names: HintIndex<NameKey, S>,
}

// Not derived: then each way out drops it in one call (docs/DECISIONS.md, "Drops").
impl<S: BuildHasher + Drop> Drop for OrderList<S> {
    fn drop(self) {
        let OrderList {
            orders: _,
            numbers: _,
            names: _,
        } = self;
    }
}

impl<S: BuildHasher + Drop> Model for OrderList<S> {
    ghost use Rattle.undo_index.specs.Hints.{Covered};
    ghost use Rattle.order_machine.specs.OrderRecord.{OrderRecord};
    ghost use Rattle.order_table.specs.Keys.{has_name_key, has_number_key, same_name, same_number};
    ghost use Rattle.order_table.specs.Rooms.{room_of_order};
    ghost use Rattle.undo_index.specs.Undoing.{Undoable};

    ghost Value = { Undoable OrderRecord };

    ghost view = { λ l. record {
      now = l.orders.now;
      settled = l.orders.settled;
      pushes = room_of_order l.orders.pushes l.numbers.room l.names.room;
      changes = l.orders.changes;
    } };

    ghost invariant = { λ l. Covered same_number has_number_key l.numbers l.orders
        × Covered same_name has_name_key l.names l.orders };
}

impl OrderList {
    /// No orders, with the fixed seed. Takes no memory.
    pub fn new(alloc: Global) -> OrderList
        ensures now { result.now ≡ [] }
        ensures settled { result.settled ≡ [] }
    {
        OrderList {
            orders: UndoOrders::new(alloc),
            numbers: HintIndex::new(alloc),
            names: HintIndex::new(alloc),
        }
    }
}

impl<S: BuildHasher + Drop> OrderList<S> {
    /// No orders, with a hasher of the ids that clients choose. Takes no memory.
    pub fn with_hasher(alloc: Global, names: S) -> OrderList<S>
        ensures now { result.now ≡ [] }
        ensures settled { result.settled ≡ [] }
    {
        OrderList {
            orders: UndoOrders::new(alloc),
            numbers: HintIndex::new(alloc),
            names: HintIndex::with_hasher(alloc, names),
        }
    }

    /// The order at a place.
    pub fn item_at(&self, place: usize) -> &Order
        requires { place < length self.now.now }
        ensures { slice_get self.now.now place ≡ Some result.now }
    {
        self.orders.item_at(place)
    }

    /// How many orders there are.
    pub fn len(&self) -> usize
        ensures { result ≡ length self.now.now }
    {
        self.orders.as_slice().len()
    }

    /// The place of the newest order with an OrderID.
    pub fn place_of(&self, order_id: u64) -> Option<usize>
        ensures { MatchOption result
            (find (table.has_number (decimal order_id)) (reverse self.now.now) ≡ None)
            (λ place. IsNewest (table.has_number (decimal order_id)) self.now.now place) }
    {
        let key = NumberKey { number: order_id };
        self.numbers
            .place_of(self.orders.as_slice(), &key, &ByNumber { order_id })
    }

    /// The place of the newest order of a client that goes by a ClOrdID.
    pub fn named_place(&self, client: u16, id: &[u8]) -> Option<usize>
        ensures { MatchOption result
            (find (table.is_named client id.now) (reverse self.now.now) ≡ None)
            (λ place. IsNewest (table.is_named client id.now) self.now.now place) }
    {
        let key = NameKey::of(client, id);
        self.names
            .place_of(self.orders.as_slice(), &key, &ByName { client, id })
    }

    /// Makes room for one order more. Nothing else changes, be there memory or not.
    pub fn reserve_push(&mut self) -> Result<(), AllocError>
        ensures room { OnOk result (1 ≤ self.new.pushes) }
        ensures now { self.new.now ≡ self.old.now }
        ensures settled { self.new.settled ≡ self.old.settled }
    {
        self.orders.reserve_push()?;
        self.numbers.reserve(1)?;
        self.names.reserve(2)?;
        Ok(())
    }

    /// One order more behind the others, for which there is room, and which has no pending replace. Takes no memory.
    pub fn push(&mut self, order: Order)
        requires room { 1 ≤ self.old.pushes }
        requires none { order.replaces ≡ [] }
        ensures now { self.new.now ≡ self.old.now ++ order ∷ [] }
        ensures few { length self.new.now < 2 ^ 64 }
        ensures settled { self.new.settled ≡ self.old.settled }
    {
        let place = self.orders.as_slice().len();
        let number = order.order_id;
        self.numbers.note(&self.orders, NumberKey { number }, place);
        note_names(&mut self.names, &self.orders, &order, place);
        self.orders.push(order);
    }

    /// The order at a place, as a message of the market changes it, which fits it. `AllocError` leaves the list as it
    /// was.
    pub fn apply(&mut self, alloc: Global, place: usize, change: Change) -> Result<(), AllocError>
        requires inside { place < length self.old.now }
        requires fits { (was : OrderRecord) → slice_get self.old.now place ≡ Some was → Fits change was }
        ensures now { IfOk result (λ nothing. (was : OrderRecord) → slice_get self.old.now place ≡ Some was
            → self.new.now ≡ slice_set self.old.now place (changed_by change was)) }
        ensures settled { self.new.settled ≡ self.old.settled }
        ensures err { OnErr result (self.new.now ≡ self.old.now) }
    {
        self.orders.apply(alloc, place, change)?;
        Ok(())
    }

    /// A replace more of the order at a place is pending: fewer than four were, and with those it has had fewer than
    /// 65,536 tokens. `AllocError` leaves the list as it was.
    pub fn accept_replace(
        &mut self,
        alloc: Global,
        place: usize,
        replacing: Replacing,
    ) -> Result<(), AllocError>
        requires inside { place < length self.old.now }
        requires room { (was : OrderRecord) → slice_get self.old.now place ≡ Some was
            → length was.tokens + length was.replaces < 65_536 }
        requires few { (was : OrderRecord) → slice_get self.old.now place ≡ Some was → length was.replaces < 4 }
        ensures now { IfOk result (λ nothing. (was : OrderRecord) → slice_get self.old.now place ≡ Some was
            → self.new.now ≡ slice_set self.old.now place
            (at was (was.replaces ++ replace_of was replacing ∷ []) was.cancel)) }
        ensures settled { self.new.settled ≡ self.old.settled }
        ensures err { OnErr result (self.new.now ≡ self.old.now) }
    {
        self.names.reserve(1)?;
        let client = client_of(self.orders.item_at(place));
        let name = NameKey::of(client, replacing.message.cl_ord_id.as_slice());
        self.names.note(&self.orders, name, place);
        self.orders.accept_replace(alloc, place, replacing)?;
        Ok(())
    }

    /// A cancel of the order at a place is pending. `AllocError` leaves the list as it was.
    pub fn accept_cancel(
        &mut self,
        alloc: Global,
        place: usize,
        cancelling: Cancelling,
    ) -> Result<(), AllocError>
        requires inside { place < length self.old.now }
        ensures now { IfOk result (λ nothing. (was : OrderRecord) → slice_get self.old.now place ≡ Some was
            → self.new.now ≡ slice_set self.old.now place (at was was.replaces (Some (cancel_of was cancelling)))) }
        ensures settled { self.new.settled ≡ self.old.settled }
        ensures err { OnErr result (self.new.now ≡ self.old.now) }
    {
        self.names.reserve(1)?;
        let client = client_of(self.orders.item_at(place));
        let name = NameKey::of(client, cancelling.message.cl_ord_id.as_slice());
        self.names.note(&self.orders, name, place);
        self.orders.accept_cancel(alloc, place, cancelling)?;
        Ok(())
    }

    /// From now on the list is put back to how it is now. Takes no memory.
    pub fn settle(&mut self)
        ensures now { self.new.now ≡ self.old.now }
        ensures settled { self.new.settled ≡ self.old.now }
    {
        self.orders.settle();
    }

    /// Puts the list back to how it was settled. Takes no memory.
    pub fn undo(&mut self)
        ensures now { self.new.now ≡ self.old.settled }
        ensures settled { self.new.settled ≡ self.old.settled }
    {
        self.orders.undo();
    }
}

/// The number of an order's client.
pub(crate) fn client_of(order: &Order) -> u16
    ensures { result ≡ order.now.new.client }
{
    order.client
}

/// Notes that an order which has no pending replace is to stand at a place, by each id that it goes by.
fn note_names<S: BuildHasher + Drop>(
    names: &mut HintIndex<NameKey, S>,
    orders: &UndoOrders,
    order: &Order,
    place: usize,
)
    requires room { 2 ≤ names.old.room }
    requires none { order.now.replaces ≡ [] }
    ensures covered { Covered same_name has_name_key names.old orders.now
        → Covered same_name has_name_key names.new orders.now }
    ensures leads { (k : Key) → has_name_key k order.now ≡ true → LeadsTo (hint_of same_name names.new k) place }
{
    let own = NameKey::of(order.client, order.cl_ord_id.as_slice());
    let cancel = key_of_cancel(order.client, &order.cancel);
    names.note(orders, own, place);
    note_some(names, orders, cancel, place);
}

/// Notes that an order is to stand at a place, by a key, if there is one.
fn note_some<S: BuildHasher + Drop>(
    names: &mut HintIndex<NameKey, S>,
    orders: &UndoOrders,
    key: Option<NameKey>,
    place: usize,
)
    requires { 1 ≤ names.old.room }
    ensures covered { Covered same_name has_name_key names.old orders.now
        → Covered same_name has_name_key names.new orders.now }
    ensures keeps { (k : Key) → LeadsTo (hint_of same_name names.old k) place
        → LeadsTo (hint_of same_name names.new k) place }
    ensures leads { (k : Key) → key ≡ Some k → LeadsTo (hint_of same_name names.new k) place }
    ensures room_left { names.old.room ≤ names.new.room + 1 }
{
    if let Some(key) = key {
        names.note(orders, key, place);
    }
}
