//! What a client has read of one of its orders.

ghost use Rattle.std.specs.Prelude.{◌≡◌, OnOk, IsErrOf};
ghost use Rattle.gate_audit.specs.Passes.{HasHeld, hears, order_id};

use fix_fields::{Fields, Text};
use order_accounts::{Reading, ReadingFault};
use std::alloc::Global;
use std::marker::Model;

/// What a client has read of an order that was accepted.
#[derive(Drop)]
pub struct OrderReading {
    /// The number of the client, from 1.
    pub client: u16,
    /// OrderID (37).
    pub order: Text,
    /// Its first ClOrdID (11): that of the new order.
    pub id: Text,
    pub reading: Reading,
}

impl Model for OrderReading {
    ghost use Rattle.gate_audit.specs.Read.{ReadOrder};

    ghost Value = { ReadOrder };

    ghost view = { λ r. record { client = r.client; order = r.order; id = r.id; reading = r.reading } };
}

impl OrderReading {
    /// One report more to a client: one to another client, or on another order, changes nothing. `TooLarge` just where
    /// what is read has a number that is larger than its integer holds; or else `NoMemory`.
    pub(crate) fn hear(
        &mut self,
        alloc: Global,
        client: u16,
        report: &Fields,
    ) -> Result<(), ReadingFault>
        ensures heard { OnOk result (self.new ≡ hears client report.now self.old) }
        ensures same { order_id self.new ≡ order_id self.old }
        ensures held { OnOk result (HasHeld self.old → HasHeld self.new) }
        ensures large { IsErrOf result ReadingFault.TooLarge → HasHeld (hears client report.now self.old) → ⊥ }
    {
        if client == self.client {
            self.reading.hear_on(alloc, self.order.as_slice(), report)?;
        }
        Ok(())
    }
}
