//! Orders by both of their accounts.

ghost use Rattle.std.specs.Prelude.{◌≡◌, ◌≤◌, ◌∷◌, ◌++◌, [], IfOk, List};
ghost use Rattle.gate_audit.specs.Pairs as read;
ghost use Rattle.gate_audit.specs.Pairs.{OpenedOrder};
ghost use Rattle.gate_audit.specs.Passes.{pairs_with};
ghost use Rattle.gate_audit.specs.Read.{for_clients};

use crate::opening::Opening;
use crate::order_pair::OrderPair;
use order_law::Account;
use std::alloc::{AllocError, Global};

/// These orders of so many clients, by client and then in the order of acceptance, each with what its client read of it
/// and what the market said of it: both stand in the same order. Where one of these has no more, no pair is made.
pub fn paired(
    alloc: Global,
    clients: usize,
    openings: &[Opening],
    fix: &[Account],
    said: &[Account],
) -> Result<Vec<OrderPair>, AllocError>
    requires { clients ≤ 64 }
    ensures { IfOk result (λ pairs. pairs.items
        ≡ pairs_with (for_clients (λ c. read.orders_of c openings.now) clients) fix.now said.now) }
{
    let mut pairs = Vec::with_capacity(alloc, fix.len().min(said.len()))?;
    for place in 0..clients {
        let client = (place + 1) as u16;
        push_own(alloc, client, openings, fix, said, &mut pairs)?;
    }
    Ok(pairs)
}

/// A client's orders with both of their accounts, behind the pairs of the orders before.
fn push_own(
    alloc: Global,
    client: u16,
    openings: &[Opening],
    fix: &[Account],
    said: &[Account],
    pairs: &mut Vec<OrderPair>,
) -> Result<(), AllocError>
    ensures { IfOk result (λ u. (before : List OpenedOrder) → pairs.old.items ≡ pairs_with before fix.now said.now
        → pairs.new.items ≡ pairs_with (before ++ read.orders_of client openings.now) fix.now said.now) }
{
    for opening in openings {
        if opening.client == client {
            push_next(alloc, opening, fix, said, pairs)?;
        }
    }
    Ok(())
}

/// An order with the next of both accounts, behind the pairs of the orders before.
fn push_next(
    alloc: Global,
    opening: &Opening,
    fix: &[Account],
    said: &[Account],
    pairs: &mut Vec<OrderPair>,
) -> Result<(), AllocError>
    ensures { IfOk result (λ u. (before : List OpenedOrder) → pairs.old.items ≡ pairs_with before fix.now said.now
        → pairs.new.items ≡ pairs_with (before ++ opening.now ∷ []) fix.now said.now) }
{
    let at = pairs.len();
    let count = fix.len().min(said.len());
    if at >= count {
        return Ok(());
    }
    pairs.push(pair_of(alloc, opening, fix[at], said[at])?)?;
    Ok(())
}

/// An order with what its client read of it and what the market said of it.
fn pair_of(
    alloc: Global,
    order: &Opening,
    fix: Account,
    ouch: Account,
) -> Result<OrderPair, AllocError>
    ensures { IfOk result (λ pair. pair ≡ read.paired order.now.client order.now.id fix ouch) }
{
    Ok(OrderPair {
        client: order.client,
        id: Vec::from_slice(alloc, order.id.as_slice())?,
        fix,
        ouch,
        agree: is_same(fix, ouch),
    })
}

/// Whether all six values of both accounts are equal.
fn is_same(fix: Account, ouch: Account) -> bool
    ensures { result ≡ read.same_account fix ouch }
{
    fix == ouch
}
