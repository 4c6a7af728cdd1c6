//! Executed: shares of an order were traded.

ghost use Rattle.std.specs.Prelude.{◌≡◌, ◌≤◌, ◌<◌, ◌^◌, ◌==◌, true, length, map, IfOk};
ghost use Rattle.std.specs.List.{list_any};
ghost use Rattle.orders.specs.fix_types.Application.{body_fields};
ghost use Rattle.ouch_codec.specs.declared.outbound.Outbound.TheVariants as market;
ghost use Rattle.order_machine.specs.OrderRecord.{record_life, trade_in};
ghost use Rattle.market_messages.specs.Meets.{MeetsRow, is_lawful, told_of};

use crate::heard::{Heard, RowFault};
use fix_types::AppBody;
use order_law::{Stage, Trade};
use order_trades::ToldTrade;
use orders::{Change, Order};
use ouch_codec::Executed;
use std::alloc::{AllocError, Global};
use to_client::{Occasion, pending_of, push_report, push_too_late, report_of, shown_of};
use wire_bytes::is_same_token;

/// Lawful for an order in the book under this token, of shares that are open, under a match number that none of its
/// trades has: these shares are executed at this price. Where nothing is left, the order is over, and each pending
/// request is too late.
///
/// Source: OUCH 4.2, "Executed Order Message".
pub fn on_executed(
    alloc: Global,
    issued: u64,
    order: &Order,
    message: &Executed,
) -> Result<Heard, RowFault>
    requires { issued < 2 ^ 60 }
    ensures { MeetsRow issued (market.Executed message.now) order.now result }
{
    if !may_trade(order, message) {
        return Err(RowFault::NotLawful);
    }
    Ok(Heard {
        change: Change::Traded(told_trade(message, issued + 1)),
        bodies: tell_executed(alloc, issued, order, message)?,
    })
}

/// The bodies for its client, if it is lawful.
fn tell_executed(
    alloc: Global,
    issued: u64,
    order: &Order,
    message: &Executed,
) -> Result<Vec<AppBody>, AllocError>
    requires issued { issued < 2 ^ 60 }
    requires may { is_lawful (market.Executed message.now) order.now ≡ true }
    ensures told { IfOk result (λ bodies. map body_fields bodies.items
        ≡ told_of issued (market.Executed message.now) order.now) }
    ensures few { IfOk result (λ bodies. length bodies.items ≤ 6) }
{
    let (shares, price) = (message.shares, message.price);
    let told = told_trade(message, issued + 1);
    let progress = order.progress_after(Change::Traded(told));
    let mut bodies = Vec::with_capacity(alloc, 1)?;
    let shown = shown_of(order, &progress);
    let occasion = Occasion::Trade { shares, price };
    let report = report_of(alloc, issued + 1, occasion, &shown)?;
    push_report(&mut bodies, report)?;
    if shares == order.progress.unfilled {
        push_too_late(alloc, &mut bodies, &shown, &pending_of(order))?;
        return Ok(bodies);
    }
    Ok(bodies)
}

/// The trade, told under an ExecID (17).
fn told_trade(message: &Executed, number: u64) -> ToldTrade
    ensures { result ≡ record { trade = trade_in message.now; number = number } }
{
    ToldTrade {
        trade: Trade {
            match_number: message.match_number,
            shares: message.shares,
            price: message.price,
            is_broken: false,
        },
        number,
    }
}

/// Whether this many shares of an order may be traded under this match number.
fn may_trade(order: &Order, message: &Executed) -> bool
    ensures { result ≡ is_lawful (market.Executed message.now) order.now }
{
    (is_same_token(&message.token, &order.token) && order.progress.stage == Stage::Working)
        && ((1 <= message.shares && message.shares <= order.progress.unfilled)
            && !has_match(order, message.match_number))
}

/// Whether a trade of an order has the match number.
fn has_match(order: &Order, match_number: u64) -> bool
    ensures { result ≡ list_any (λ t. t.match_number == match_number) (record_life order.now).trades }
{
    order.trades.holds(match_number)
}
