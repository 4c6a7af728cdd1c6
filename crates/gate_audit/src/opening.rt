//! An order, as the report that opened it has it.

use fix_fields::Text;
use std::marker::Model;
use tokens::Token;

/// An order that was accepted, as the report that told so has it.
#[derive(Drop)]
pub struct Opening {
    /// The number of its client, from 1.
    pub client: u16,
    /// OrderID (37).
    pub order: Text,
    /// Its first ClOrdID (11).
    pub id: Text,
    /// Side (54), the byte that FIX writes.
    pub side: u8,
    /// The token that it was entered with.
    pub root: Token,
}

impl Model for Opening {
    ghost use Rattle.gate_audit.specs.Pairs.{OpenedOrder};

    ghost Value = { OpenedOrder };

    ghost view = { λ o. record { client = o.client; order = o.order; id = o.id; side = o.side; root = o.root } };
}
