//! What clients have read of their orders.

ghost use Rattle.std.specs.Prelude.{◌≡◌, ◌≤◌, ◌++◌, [], List, IfOk, OnOk, IsErrOf, length, map};
ghost use Rattle.order_law.specs.Headline.{Each};
ghost use Rattle.gate_law.specs.Holds.{Holds};
ghost use Rattle.gate_journal.specs.Kept.{turns};
ghost use Rattle.gate_audit.specs.Accepted.{as_unread, own_of};
ghost use Rattle.gate_audit.specs.Passes.{AreRead, StayRead, told_whole};
ghost use Rattle.gate_audit.specs.Read as read;
ghost use Rattle.gate_audit.specs.Read.{ReadOrder, for_clients};

use crate::accepted::accepted_of;
use crate::order_reading::OrderReading;
use crate::order_readings::OrderReadings;
use fix_fields::Text;
use gate_core::Settings;
use gate_journal::History;
use order_accounts::{Reading, ReadingFault};
use std::alloc::{AllocError, Global};

/// What each client has read of each of its orders that were accepted, by client and then in the order in which they
/// were accepted, from the reports of the batches alone.
///
/// Of the history of a run these are the accepted new orders, and what is read of each is what the market said of it.
/// `TooLarge` just where, after one of its client's reports, what was read of an order has a number that is larger
/// than its integer holds; or else `NoMemory`.
///
/// Source: FIX 4.4 Volume 4, "Execution Report".
pub fn readings(
    alloc: Global,
    history: &History,
    settings: &Settings,
) -> Result<Vec<OrderReading>, ReadingFault>
    ensures read { IfOk result (λ list. list.items ≡ read.readings (length settings.now.clients) (turns history.now)) }
    ensures accepted { IfOk result (λ list. Holds settings.now (turns history.now)
        → list.items ≡ read.accepted_readings settings.now (turns history.now)) }
    ensures agree { IfOk result (λ list. Holds settings.now (turns history.now)
        → Each (read.AgreesIn settings.now (turns history.now))
        (read.accepted_new_orders settings.now (turns history.now))) }
    ensures held { OnOk result (read.AllReadHeld (length settings.now.clients) (turns history.now)) }
    ensures large { IsErrOf result ReadingFault.TooLarge
        → read.AllReadHeld (length settings.now.clients) (turns history.now) → ⊥ }
{
    let accepted = accepted_of(alloc, history)?;
    let clients = settings.clients().len();
    let orders = own_orders(alloc, clients, accepted.orders.as_slice())?;
    read_all(alloc, history, orders)
}

/// Orders of so many clients, by client and then in the order of acceptance, of which nothing was read.
fn own_orders(
    alloc: Global,
    clients: usize,
    accepted: &[OrderReading],
) -> Result<Vec<OrderReading>, AllocError>
    requires { clients ≤ 64 }
    ensures { IfOk result (λ orders. orders.items
        ≡ for_clients (λ c. map as_unread (own_of c accepted.now)) clients) }
{
    let mut orders = Vec::with_capacity(alloc, accepted.len())?;
    for place in 0..clients {
        push_own(alloc, (place + 1) as u16, accepted, &mut orders)?;
    }
    Ok(orders)
}

/// A client's orders, behind those before, of which nothing was read.
fn push_own(
    alloc: Global,
    client: u16,
    accepted: &[OrderReading],
    orders: &mut Vec<OrderReading>,
) -> Result<(), AllocError>
    ensures { IfOk result (λ u. orders.new.items
        ≡ orders.old.items ++ map as_unread (own_of client accepted.now)) }
{
    for order in accepted {
        if order.client == client {
            orders.push(unread_again(alloc, order)?)?;
        }
    }
    Ok(())
}

/// The same order, of which nothing was read.
fn unread_again(alloc: Global, order: &OrderReading) -> Result<OrderReading, AllocError>
    ensures { IfOk result (λ again. again ≡ as_unread order.now) }
{
    Ok(OrderReading {
        client: order.client,
        order: Text::copied(alloc, order.order.as_slice())?,
        id: Text::copied(alloc, order.id.as_slice())?,
        reading: Reading::unread(alloc),
    })
}

/// What was read of these orders once each batch of a history was heard.
///
/// `TooLarge` just where, after one of its client's reports, what was read of an order has a number that is larger than
/// its integer holds; or else `NoMemory`.
pub(crate) fn read_all(
    alloc: Global,
    history: &History,
    orders: Vec<OrderReading>,
) -> Result<Vec<OrderReading>, ReadingFault>
    ensures read { IfOk result (λ now. (os : List ReadOrder) → AreRead os [] orders.items
        → AreRead os (told_whole (turns history.now)) now.items) }
    ensures large { IsErrOf result ReadingFault.TooLarge → (os : List ReadOrder) → AreRead os [] orders.items
        → StayRead (told_whole (turns history.now)) os → ⊥ }
{
    let mut readings = OrderReadings::of(alloc, orders)?;
    let mut ahead = history.turns();
    while let Some((_, batch, behind)) = ahead.split_first(alloc)? {
        readings.take(alloc, &batch)?;
        ahead = behind;
    }
    Ok(readings.into_orders())
}
