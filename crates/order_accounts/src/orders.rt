//! Places of orders, by their OrderIDs.

ghost use Rattle.std.specs.Prelude.{◌≡◌, ◌≤◌, ◌++◌, ◌∷◌, [], ℕ, List, IfOk, OnOk, length};
ghost use Rattle.order_accounts.specs.Shelved.{HasOrders, IsNear};

use crate::places::place_of;
use crate::shelves::Shelves;
use std::alloc::{AllocError, Global};
use std::marker::Model;

/// Where orders stand in a list, on shelves by OrderID (37). Contracts see the shelves.
#[derive(Drop)]
pub struct OrderPlaces {
    shelves: Shelves<usize>,
}

impl Model for OrderPlaces {
    ghost use Rattle.std.specs.Prelude.{◌≤◌, ℕ, List, length};

    ghost Value = { List (List ℕ) };

    ghost view = { λ o. o.shelves };

    ghost invariant = { λ o. 1 ≤ length o.shelves };
}

impl OrderPlaces {
    /// No orders, on so many shelves, and one at least.
    pub fn new(alloc: Global, count: usize) -> Result<OrderPlaces, AllocError>
        ensures { IfOk result (HasOrders []) }
    {
        Ok(OrderPlaces {
            shelves: Shelves::new(alloc, count.max(1))?,
        })
    }

    /// One order more, at this place, which is to be behind those before.
    pub fn put(&mut self, order: &[u8], place: usize) -> Result<(), AllocError>
        ensures { OnOk result ((orders : List (List ℕ)) → HasOrders orders self.old → length orders ≡ place
            → HasOrders (orders ++ order.now ∷ []) self.new) }
    {
        let shelf = place_of(order, self.shelves.count());
        self.shelves.put(shelf, place)
    }

    /// The places on the shelf of this OrderID, in order: those of all orders that have it, and maybe of others.
    ///
    /// Source: FIX 4.4 Volume 4, "Execution Report" (OrderID, 37).
    pub fn near(&self, order: &[u8]) -> &[usize]
        ensures { (orders : List (List ℕ)) → HasOrders orders self.now → IsNear order.now orders result.now }
    {
        self.shelves.shelf(place_of(order, self.shelves.count()))
    }
}
