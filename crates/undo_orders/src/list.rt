//! The list.

ghost use Rattle.std.specs.Prelude.{◌≡◌, ◌≤◌, ◌<◌, ◌+◌, ◌^◌, ◌++◌, ◌∷◌, [], length, slice_get, slice_set};
ghost use Rattle.std.specs.Prelude.{Some, IfOk, OnErr, OnOk, false, vec_len, vec_capacity};
ghost use Rattle.orders.specs.order_machine.OrderRecord.{OrderRecord, at};
ghost use Rattle.orders.specs.Changes.{Fits, changed_by};
ghost use Rattle.orders.specs.Seen.{cancel_of, replace_of};
ghost use Rattle.orders.specs.PutBack.{needs_memory, put_back};
ghost use Rattle.orders.specs.order_trades.Marking.{changed_at};

use orders::{Boxed, Cancelling, Change, EarlierOrder, Order, Replacing};
use std::alloc::{AllocError, Global};
use std::marker::Model;
use undo_index::SettledList;

/// The room that the first order is given with: a list of so many is mapped memory, which grows without a copy.
const AT_FIRST: usize = 1_024;

/// What an order at a place had before it was changed.
#[derive(Drop)]
pub(crate) struct Was {
    pub place: usize,
    pub earlier: EarlierOrder,
}

/// The accepted orders, the oldest first. Contracts see the list as it is now, and as it was settled.
///
/// Before the first `settle` it counts as settled with no orders.
pub struct UndoOrders {
    orders: Vec<Order>,
    /// How many orders there were when it was settled.
    count: usize,
    /// What was changed since, the newest last.
    changed: Vec<Was>,
}

// Not derived: then each way out drops it in one call (docs/DECISIONS.md, "Drops").
impl Drop for UndoOrders {
    fn drop(self) {
        let UndoOrders {
            orders: _,
            count: _,
            changed: _,
        } = self;
    }
}

impl Model for UndoOrders {
    ghost use Rattle.std.specs.Prelude.{◌-◌, ◌≤◌, length, vec_len, vec_capacity};
    ghost use Rattle.orders.specs.order_machine.OrderRecord.{OrderRecord};
    ghost use Rattle.undo_index.specs.Undoing.{Undoable};
    ghost use Rattle.undo_orders.specs.PuttingBack.{settled_of};

    ghost Value = { Undoable OrderRecord };

    ghost view = { λ l. record {
      now = l.orders.items;
      settled = settled_of l.count l.changed.items l.orders.items;
      pushes = vec_capacity l.orders - vec_len l.orders;
      changes = vec_capacity l.changed - vec_len l.changed;
    } };

    ghost invariant = { λ l. l.count ≤ length l.orders.items };
}

impl UndoOrders {
    /// No orders. Takes no memory.
    pub fn new(alloc: Global) -> UndoOrders
        ensures now { result.now ≡ [] }
        ensures settled { result.settled ≡ [] }
    {
        UndoOrders {
            orders: Vec::new(alloc),
            count: 0,
            changed: Vec::new(alloc),
        }
    }

    /// The orders, the oldest first.
    pub fn as_slice(&self) -> &[Order]
        ensures { result.now ≡ self.now.now }
    {
        self.orders.as_slice()
    }

    /// The order at a place.
    pub fn item_at(&self, place: usize) -> &Order
        requires { place < length self.now.now }
        ensures { slice_get self.now.now place ≡ Some result.now }
    {
        &self.orders[place]
    }

    /// Makes room for one order more, at first for many. Nothing else changes, be there memory or not.
    pub fn reserve_push(&mut self) -> Result<(), AllocError>
        ensures room { OnOk result (1 ≤ self.new.pushes) }
        ensures now { self.new.now ≡ self.old.now }
        ensures settled { self.new.settled ≡ self.old.settled }
    {
        if self.orders.capacity() == 0 {
            return self.orders.reserve(AT_FIRST);
        }
        self.orders.reserve(1)
    }

    /// One order more behind the others, for which there is room. Takes no memory.
    pub fn push(&mut self, order: Order)
        requires { 1 ≤ self.old.pushes }
        ensures now { self.new.now ≡ self.old.now ++ order ∷ [] }
        ensures few { length self.new.now < 2 ^ 64 }
        ensures settled { self.new.settled ≡ self.old.settled }
    {
        self.orders.push_reserved(order);
    }

    /// The order at a place, as a message of the market changes it, which fits it. `AllocError` leaves the list as it
    /// was.
    pub fn apply(&mut self, alloc: Global, place: usize, change: Change) -> Result<(), AllocError>
        requires inside { place < length self.old.now }
        requires fits { (was : OrderRecord) → slice_get self.old.now place ≡ Some was → Fits change was }
        ensures now { IfOk result (λ nothing. (was : OrderRecord) → slice_get self.old.now place ≡ Some was
            → self.new.now ≡ slice_set self.old.now place (changed_by change was)) }
        ensures settled { self.new.settled ≡ self.old.settled }
        ensures err { OnErr result (self.new.now ≡ self.old.now) }
    {
        if self.item_at(place).needs_memory(change) {
            self.apply_with_memory(alloc, place, change)
        } else {
            self.apply_lightly(alloc, place, change)
        }
    }

    /// One more replace of the order at a place is pending. With those that are pending it has had fewer than 65,536
    /// tokens, and fewer than four are pending. `AllocError` leaves the list as it was.
    pub fn accept_replace(
        &mut self,
        alloc: Global,
        place: usize,
        replacing: Replacing,
    ) -> Result<(), AllocError>
        requires inside { place < length self.old.now }
        requires room { (was : OrderRecord) → slice_get self.old.now place ≡ Some was
            → length was.tokens + length was.replaces < 65_536 }
        requires few { (was : OrderRecord) → slice_get self.old.now place ≡ Some was → length was.replaces < 4 }
        ensures now { IfOk result (λ nothing. (was : OrderRecord) → slice_get self.old.now place ≡ Some was
            → self.new.now ≡ slice_set self.old.now place (at was (was.replaces ++ replace_of was replacing ∷ []) was.cancel)) }
        ensures settled { self.new.settled ≡ self.old.settled }
        ensures err { OnErr result (self.new.now ≡ self.old.now) }
    {
        let earlier = self.orders[place].before_request(alloc)?;
        self.changed.reserve(1)?;
        self.orders[place].accept_replace(alloc, replacing)?;
        self.changed.push_reserved(Was { place, earlier });
        Ok(())
    }

    /// A cancel of the order at a place is pending. `AllocError` leaves the list as it was.
    pub fn accept_cancel(
        &mut self,
        alloc: Global,
        place: usize,
        cancelling: Cancelling,
    ) -> Result<(), AllocError>
        requires inside { place < length self.old.now }
        ensures now { IfOk result (λ nothing. (was : OrderRecord) → slice_get self.old.now place ≡ Some was
            → self.new.now ≡ slice_set self.old.now place (at was was.replaces (Some (cancel_of was cancelling)))) }
        ensures settled { self.new.settled ≡ self.old.settled }
        ensures err { OnErr result (self.new.now ≡ self.old.now) }
    {
        let earlier = self.orders[place].before_request(alloc)?;
        self.changed.reserve(1)?;
        let boxed = Boxed::new(alloc, cancelling)?;
        self.orders[place].accept_cancel(boxed);
        self.changed.push_reserved(Was { place, earlier });
        Ok(())
    }

    /// As `apply`, where what the order has before takes no memory: it goes into the list of what was changed alone.
    fn apply_lightly(
        &mut self,
        alloc: Global,
        place: usize,
        change: Change,
    ) -> Result<(), AllocError>
        requires inside { place < length self.old.now }
        requires fits { (was : OrderRecord) → slice_get self.old.now place ≡ Some was → Fits change was }
        requires light { (was : OrderRecord) → slice_get self.old.now place ≡ Some was
            → needs_memory change was ≡ false }
        ensures now { IfOk result (λ nothing. (was : OrderRecord) → slice_get self.old.now place ≡ Some was
            → self.new.now ≡ slice_set self.old.now place (changed_by change was)) }
        ensures settled { self.new.settled ≡ self.old.settled }
        ensures err { OnErr result (self.new.now ≡ self.old.now) }
    {
        self.changed.reserve(1)?;
        let earlier = self.orders[place].before_lightly(change);
        self.orders[place].apply(alloc, change)?;
        self.changed.push_reserved(Was { place, earlier });
        Ok(())
    }

    /// As `apply`, where what the order has before takes memory.
    fn apply_with_memory(
        &mut self,
        alloc: Global,
        place: usize,
        change: Change,
    ) -> Result<(), AllocError>
        requires inside { place < length self.old.now }
        requires fits { (was : OrderRecord) → slice_get self.old.now place ≡ Some was → Fits change was }
        ensures now { IfOk result (λ nothing. (was : OrderRecord) → slice_get self.old.now place ≡ Some was
            → self.new.now ≡ slice_set self.old.now place (changed_by change was)) }
        ensures settled { self.new.settled ≡ self.old.settled }
        ensures err { OnErr result (self.new.now ≡ self.old.now) }
    {
        let earlier = self.orders[place].before(alloc, change)?;
        self.changed.reserve(1)?;
        self.orders[place].apply(alloc, change)?;
        self.changed.push_reserved(Was { place, earlier });
        Ok(())
    }

    /// From now on the list is put back to how it is now. Takes no memory.
    pub fn settle(&mut self)
        ensures now { self.new.now ≡ self.old.now }
        ensures settled { self.new.settled ≡ self.old.now }
    {
        self.count = self.orders.len();
        self.changed.clear();
    }

    /// Puts the list back to how it was settled. Takes no memory.
    pub fn undo(&mut self)
        ensures now { self.new.now ≡ self.old.settled }
        ensures settled { self.new.settled ≡ self.old.settled }
    {
        self.orders.truncate(self.count);
        while let Some(was) = self.changed.pop() {
            put_order_back(&mut self.orders, was);
        }
    }
}

/// Puts the order at a place back to what it had, if there is one.
fn put_order_back(orders: &mut Vec<Order>, was: Was)
    ensures back { orders.new.items ≡ changed_at (put_back was.earlier) was.place orders.old.items }
    ensures len { length orders.new.items ≡ length orders.old.items }
{
    if was.place < orders.len() {
        orders[was.place].put_back(was.earlier);
    }
}

impl SettledList<Order> for UndoOrders {
    ghost lists = { λ l. l };

    fn items(&self) -> &[Order] {
        self.as_slice()
    }

    fn is_unchanged(&self) -> bool {
        self.changed.is_empty()
    }
}
