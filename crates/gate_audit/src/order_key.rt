//! An order by its client and OrderID.

ghost use Rattle.std.specs.Prelude.{◌≡◌, IfOk};

use std::alloc::{AllocError, Global};

/// An order, by its client and its OrderID.
#[derive(PartialEq, Eq, Hash, Drop)]
pub struct OrderKey {
    /// The number of the client, from 1.
    pub client: u16,
    /// OrderID (37).
    pub order: Vec<u8>,
}

impl OrderKey {
    /// The order of a client with this OrderID.
    pub fn of(alloc: Global, client: u16, order: &[u8]) -> Result<OrderKey, AllocError>
        ensures client { IfOk result (λ key. key.client ≡ client) }
        ensures order { IfOk result (λ key. key.order.items ≡ order.now) }
    {
        Ok(OrderKey {
            client,
            order: Vec::from_slice(alloc, order)?,
        })
    }
}
