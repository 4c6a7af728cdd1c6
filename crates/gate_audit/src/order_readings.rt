//! What clients read of their orders, one batch after another.

ghost use Rattle.std.specs.Prelude.{◌≡◌, ◌<◌, ◌++◌, ◌∷◌, ℕ, List, IfOk, OnOk, IsErrOf, get_or, length, map, reverse};
ghost use Rattle.std.specs.Prelude.{take};
ghost use Rattle.order_law.specs.Headline.{Each};
ghost use Rattle.order_accounts.specs.Shelved.{AreBelow, HasOrders};
ghost use Rattle.gate_events.specs.Seen.{batch_seen};
ghost use Rattle.gate_audit.specs.Pairs.{SaidToClient, said_to};
ghost use Rattle.gate_audit.specs.Read.{ReadOrder};
ghost use Rattle.gate_audit.specs.Passes.{AreRead, HasHeld, StayRead, changed_at, hears, order_id, told_more};

use crate::order_reading::OrderReading;
use crate::reports::text;
use fix_fields::Fields;
use gate_core::{Batch, IssuedReport};
use order_accounts::{OrderPlaces, ReadingFault};
use std::alloc::{AllocError, Global};
use std::marker::Model;

/// What was read so far of orders, each found by its OrderID. Contracts see the orders.
#[derive(Drop)]
pub struct OrderReadings {
    orders: Vec<OrderReading>,
    places: OrderPlaces,
}

impl Model for OrderReadings {
    ghost use Rattle.std.specs.Prelude.{List, map};
    ghost use Rattle.order_accounts.specs.Shelved.{HasOrders};
    ghost use Rattle.gate_audit.specs.Read.{ReadOrder};
    ghost use Rattle.gate_audit.specs.Passes.{order_id};

    ghost Value = { List ReadOrder };

    ghost view = { λ r. r.orders.items };

    ghost invariant = { λ r. HasOrders (map order_id r.orders.items) r.places };
}

impl OrderReadings {
    /// These orders, as they were read so far.
    pub fn of(alloc: Global, orders: Vec<OrderReading>) -> Result<OrderReadings, AllocError>
        ensures { IfOk result (λ readings. readings ≡ orders.items) }
    {
        let places = places_of(alloc, orders.as_slice())?;
        Ok(OrderReadings { orders, places })
    }

    /// What a batch told. `TooLarge` just where, after one of its reports, what was read of an order of its client has
    /// a number that is larger than its integer holds; or else `NoMemory`.
    pub fn take(&mut self, alloc: Global, batch: &Batch) -> Result<(), ReadingFault>
        ensures read { OnOk result ((os : List ReadOrder) (all : List SaidToClient) → AreRead os all self.old
            → AreRead os (told_more (batch_seen batch.now) all) self.new) }
        ensures large { (os : List ReadOrder) (all : List SaidToClient) → AreRead os all self.old
            → IsErrOf result ReadingFault.TooLarge → StayRead (told_more (batch_seen batch.now) all) os → ⊥ }
    {
        match batch.client {
            Some(client) => self.hear_all(alloc, client.number(), &batch.reports),
            None => Ok(()),
        }
    }

    /// The orders, as they were read.
    pub fn into_orders(self) -> Vec<OrderReading>
        ensures { result.items ≡ self }
    {
        self.orders
    }

    /// What a client was told.
    fn hear_all(
        &mut self,
        alloc: Global,
        client: u16,
        reports: &[IssuedReport],
    ) -> Result<(), ReadingFault>
        ensures read { OnOk result ((os : List ReadOrder) (all : List SaidToClient) → AreRead os all self.old
            → AreRead os (reverse (map (said_to client) reports.now) ++ all) self.new) }
        ensures large { (os : List ReadOrder) (all : List SaidToClient) → AreRead os all self.old
            → IsErrOf result ReadingFault.TooLarge
            → StayRead (reverse (map (said_to client) reports.now) ++ all) os → ⊥ }
    {
        for report in reports {
            let fields = report.to_fields(alloc)?;
            self.hear(alloc, client, &fields)?;
        }
        Ok(())
    }

    /// One report or reject more.
    fn hear(&mut self, alloc: Global, client: u16, report: &Fields) -> Result<(), ReadingFault>
        ensures read { OnOk result ((os : List ReadOrder) (all : List SaidToClient) → AreRead os all self.old
            → AreRead os (said_to client report.now ∷ all) self.new) }
        ensures large { (os : List ReadOrder) (all : List SaidToClient) → AreRead os all self.old
            → IsErrOf result ReadingFault.TooLarge → StayRead (said_to client report.now ∷ all) os → ⊥ }
    {
        let near = self.places.near(text(report, 37));
        hear_at(alloc, near, client, report, &mut self.orders)
    }
}

/// Where these orders stand, by their OrderIDs.
fn places_of(alloc: Global, orders: &[OrderReading]) -> Result<OrderPlaces, AllocError>
    ensures { IfOk result (HasOrders (map order_id orders.now)) }
{
    let mut places = OrderPlaces::new(alloc, orders.len())?;
    for place in 0..orders.len() {
        let order = &orders[place];
        places.put(order.order.as_slice(), place)?;
    }
    Ok(places)
}

/// One report more to a client, heard by the orders at these places.
fn hear_at(
    alloc: Global,
    places: &[usize],
    client: u16,
    report: &Fields,
    orders: &mut Vec<OrderReading>,
) -> Result<(), ReadingFault>
    requires { AreBelow (length orders.old.items) places.now }
    ensures heard { OnOk result (orders.new.items
        ≡ changed_at (hears client report.now) places.now orders.old.items) }
    ensures same { map order_id orders.new.items ≡ map order_id orders.old.items }
    ensures held { OnOk result (Each HasHeld orders.old.items → Each HasHeld orders.new.items) }
    ensures large { IsErrOf result ReadingFault.TooLarge
        → ((i k : ℕ) (o : ReadOrder) → i < length places.now → k ≡ get_or places.now i k
        → o ≡ get_or (changed_at (hears client report.now) (take i places.now) orders.old.items) k o
        → HasHeld (hears client report.now o)) → ⊥ }
{
    for place in places {
        orders[*place].hear(alloc, client, report)?;
    }
    Ok(())
}
