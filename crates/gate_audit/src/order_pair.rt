//! An order by both of its accounts.

use order_law::Account;
use std::marker::Model;

/// An order that was accepted, by both of its accounts.
#[derive(Drop)]
pub struct OrderPair {
    /// The number of its client, from 1.
    pub client: u16,
    /// Its first ClOrdID (11): that of the new order.
    pub id: Vec<u8>,
    /// What its client read of it.
    pub fix: Account,
    /// What the market said of it.
    pub ouch: Account,
    /// All six values of both are equal.
    pub agree: bool,
}

impl Model for OrderPair {
    ghost use Rattle.gate_audit.specs.Pairs.{Pair};

    ghost Value = { Pair };

    ghost view = { λ p. record { client = p.client; id = p.id.items; fix = p.fix; ouch = p.ouch; agree = p.agree } };
}
