//! An accepted new order.

ghost use Rattle.std.specs.Prelude.{◌≡◌, ◌+◌, ◌<◌, ◌≤◌, ◌^◌, ◌∷◌, [], ℕ, List, Option, codes, length};
ghost use Rattle.std.specs.Prelude.{map, IfOk};
ghost use Rattle.fix_types.specs.Application.{body_fields};
ghost use Rattle.order_law.specs.ouch_codec.Inbound.{inbound_bytes};
ghost use Rattle.order_law.specs.Asks.{Standing};
ghost use Rattle.order_law.specs.Headline.{EachWith, Says};
ghost use Rattle.order_law.specs.History.{Asked};
ghost use Rattle.order_law.specs.Told as law;
ghost use Rattle.order_machine.specs.OrderRecord.{entered, shown_as};
ghost use Rattle.to_market.specs.NewAsks.{enter_bytes};
ghost use Rattle.to_market.specs.NewTurns.{StepsAccepted, entry_after};
ghost use Rattle.to_market.specs.Verdict.{AsksNext};

use crate::named::shown_now;
use crate::sender::Sender;
use crate::turn::AcceptedOrder;
use fix_types::{AppBody, NewOrder};
use order_table::{GivenToken, Table};
use orders::{Order, Progress};
use ouch_codec::{EnterOrder, Inbound};
use std::alloc::{AllocError, Global};
use std::hash::BuildHasher;
use to_client::{Occasion, push_report, report_of};

/// Accepts a new order whose verdict is this message, after `order_ids` OrderIDs and `exec_ids` ExecIDs of all clients:
/// it takes the next OrderID and the next token, waits for the market, and one Enter Order asks for it.
///
/// It changes nothing. The one error is that memory ran out.
pub fn accept<S: BuildHasher + Drop>(
    alloc: Global,
    order_ids: u64,
    exec_ids: u64,
    table: &Table<S>,
    sender: &Sender,
    order: &NewOrder,
    enter: EnterOrder,
) -> Result<AcceptedOrder, AllocError>
    requires order_ids { order_ids < 2 ^ 60 }
    requires exec_ids { exec_ids < 2 ^ 60 }
    requires tokens { length table.now.tokens < 2 ^ 60 }
    requires enter { AsksNext sender.now table.now order.now enter }
    ensures { IfOk result (StepsAccepted order_ids exec_ids sender.now table.now order.now) }
{
    let order_id = order_ids + 1;
    let waiting = entered(alloc, order_id, table, sender, order, &enter)?;
    let bodies = report_pending(alloc, exec_ids + 1, &waiting)?;
    let given = GivenToken {
        port: sender.terms.port,
        token: enter.token,
        order_id,
        is_replacement: false,
    };
    let asks = asks_of(alloc, enter)?;
    Ok(AcceptedOrder {
        order_id,
        order: waiting,
        given,
        bodies,
        asks,
    })
}

/// The order that then waits for the market, under this OrderID.
fn entered<S: BuildHasher + Drop>(
    alloc: Global,
    order_id: u64,
    table: &Table<S>,
    sender: &Sender,
    order: &NewOrder,
    enter: &EnterOrder,
) -> Result<Order, AllocError>
    requires tokens { length table.now.tokens < 2 ^ 60 }
    requires enter { AsksNext sender.now table.now order.now enter.now }
    ensures { IfOk result (λ o. o ≡ entered (entry_after order_id sender.now table.now order.now)) }
{
    Order::entered(
        alloc,
        sender.client,
        order_id,
        enter.token,
        table.token_count() as u64 + 1,
        order,
        Progress::entered(enter.shares, enter.price),
    )
}

/// The one report of an order that waits for the market. It is put into its list at once, since it is large.
fn report_pending(alloc: Global, number: u64, order: &Order) -> Result<Vec<AppBody>, AllocError>
    ensures { IfOk result (λ bodies. map body_fields bodies.items
        ≡ law.report number (law.plain (codes "A")) (shown_as order.now) ∷ []) }
{
    let mut bodies = Vec::with_capacity(alloc, 1)?;
    let report = report_of(alloc, number, Occasion::PendingNew, &shown_now(order))?;
    push_report(&mut bodies, report)?;
    Ok(bodies)
}

/// What an accepted new order asks: one Enter Order.
fn asks_of(alloc: Global, enter: EnterOrder) -> Result<Vec<Inbound>, AllocError>
    ensures says { IfOk result (λ asks. (standing : Standing) (order_of : List ℕ → Option ℕ) (asked : Asked)
        → Says standing order_of asked (enter_bytes enter)
        → EachWith (Says standing order_of) (asked ∷ []) (map inbound_bytes asks.items)) }
    ensures few { IfOk result (λ asks. length asks.items ≤ 5) }
{
    Ok(vec![in alloc; Inbound::Enter(enter)]?)
}
