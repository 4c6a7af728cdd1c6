//! What the orders of each client come to.

ghost use Rattle.std.specs.Prelude.{◌≡◌, ◌≤◌, ◌<◌, ◌==◌, ℕ, [], length, IfOk, OnOk};
ghost use Rattle.order_table.specs.Sums.{HasRoom, IsExchanged, IsPart, sums_at};

use crate::sums::Sums;
use std::alloc::{AllocError, Global};
use std::marker::Model;
use undo_index::UndoList;

/// The sums of each client, at the place of the client's number. Contracts see the list, now and as it was settled:
/// past its end every client has those of no order.
#[derive(Drop)]
pub struct ClientSums {
    sums: UndoList<Sums>,
}

impl Model for ClientSums {
    ghost use Rattle.undo_index.specs.Undoing.{Undoable};
    ghost use Rattle.order_table.specs.declared.sums.Sums.{Sums};

    ghost Value = { Undoable Sums };

    ghost view = { λ c. c.sums };
}

impl ClientSums {
    /// No client has an order. Takes no memory.
    pub fn new(alloc: Global) -> ClientSums
        ensures now { result.now ≡ [] }
        ensures settled { result.settled ≡ [] }
    {
        ClientSums {
            sums: UndoList::new(alloc),
        }
    }

    /// The sums of a client.
    pub fn of(&self, client: u16) -> Sums
        ensures { result ≡ sums_at self.now.now client }
    {
        at_place(self.sums.as_slice(), client as usize)
    }

    /// A place for a client, and room to exchange what one of its orders comes to. No sums change, be there memory or
    /// not.
    pub fn make_room(&mut self, client: u16) -> Result<(), AllocError>
        ensures inside { IfOk result (λ nothing. client < length self.new.now) }
        ensures longer { length self.old.now ≤ length self.new.now }
        ensures room { OnOk result (1 ≤ self.new.changes) }
        ensures same { (other : ℕ) → sums_at self.new.now other ≡ sums_at self.old.now other }
        ensures settled { self.new.settled ≡ self.old.settled }
    {
        lengthen(&mut self.sums, client as usize + 1)?;
        self.sums.reserve_change()
    }

    /// Room to exchange what one order comes to. No sums change, be there memory or not.
    pub fn reserve(&mut self) -> Result<(), AllocError>
        ensures room { OnOk result (1 ≤ self.new.changes) }
        ensures now { self.new.now ≡ self.old.now }
        ensures settled { self.new.settled ≡ self.old.settled }
    {
        self.sums.reserve_change()
    }

    /// Takes off a client's sums what one of its orders came to, and adds what it comes to now. There is a place for
    /// the client. Takes no memory.
    pub fn exchange(&mut self, client: u16, was: Sums, becomes: Sums)
        requires inside { client < length self.old.now }
        requires within { IsPart was (sums_at self.old.now client) }
        requires fits { HasRoom was becomes (sums_at self.old.now client) }
        requires room { 1 ≤ self.old.changes }
        ensures now { (other : ℕ) → IsExchanged (client == other) was becomes (sums_at self.old.now other)
            (sums_at self.new.now other) }
        ensures places { length self.new.now ≡ length self.old.now }
        ensures settled { self.new.settled ≡ self.old.settled }
    {
        let sums = self.of(client);
        self.sums.change(
            client as usize,
            Sums {
                value: sums.value - was.value + becomes.value,
                executed: sums.executed - was.executed + becomes.executed,
                still_open: sums.still_open - was.still_open + becomes.still_open,
            },
        );
    }

    /// From now on the sums are put back to how they are now. Takes no memory.
    pub fn settle(&mut self)
        ensures now { self.new.now ≡ self.old.now }
        ensures settled { self.new.settled ≡ self.old.now }
    {
        self.sums.settle();
    }

    /// Puts them back to how they were settled. Takes no memory.
    pub fn undo(&mut self)
        ensures now { self.new.now ≡ self.old.settled }
        ensures settled { self.new.settled ≡ self.old.settled }
    {
        self.sums.undo();
    }
}

/// The sums at a place, those of no order past the end.
fn at_place(sums: &[Sums], place: usize) -> Sums
    ensures { result ≡ sums_at sums.now place }
{
    if place < sums.len() {
        sums[place]
    } else {
        Sums::none()
    }
}

/// As many sums as given, or more: those of no order at each new place.
fn lengthen(sums: &mut UndoList<Sums>, len: usize) -> Result<(), AllocError>
    ensures room { IfOk result (λ nothing. len ≤ length sums.new.now) }
    ensures longer { length sums.old.now ≤ length sums.new.now }
    ensures same { (other : ℕ) → sums_at sums.new.now other ≡ sums_at sums.old.now other }
    ensures settled { sums.new.settled ≡ sums.old.settled }
{
    for _place in sums.as_slice().len()..len {
        sums.reserve_push()?;
        sums.push(Sums::none());
    }
    Ok(())
}
