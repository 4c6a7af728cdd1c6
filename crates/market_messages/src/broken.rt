//! Broken Trade: a trade of an order is taken back.

ghost use Rattle.std.specs.Prelude.{◌≡◌, ◌≤◌, ◌<◌, ◌^◌, true, length, map, IfOk, Some, option_map};
ghost use Rattle.std.specs.List.{find};
ghost use Rattle.orders.specs.fix_types.Application.{body_fields};
ghost use Rattle.orders.specs.order_law.Life.{is_of};
ghost use Rattle.order_machine.specs.OrderRecord.{record_life, stands_told};
ghost use Rattle.orders.specs.Seen.{told_seen};
ghost use Rattle.ouch_codec.specs.declared.outbound.Outbound.TheVariants as market;
ghost use Rattle.market_messages.specs.Meets.{IsSteady, MeetsRow, told_of};

use crate::heard::{Heard, RowFault};
use fix_types::AppBody;
use order_trades::ToldTrade;
use orders::{Change, Order};
use ouch_codec::Broken;
use std::alloc::{AllocError, Global};
use to_client::{Occasion, push_report, report_of, shown_of};

/// Lawful for an order that has been in the book, closed or not, and goes or went by this token, of a trade that
/// stands under the match number: it is taken back, which a report says with the ExecID of the trade's own. What is
/// open stays open. (An order that waits has no trades.)
///
/// Source: OUCH 4.2, "Broken Trade Message"; FIX 4.4 Volume 4, "Execution Report", Trade Cancel.
pub fn on_broken(
    alloc: Global,
    issued: u64,
    order: &Order,
    message: &Broken,
) -> Result<Heard, RowFault>
    requires { issued < 2 ^ 60 }
    ensures { MeetsRow issued (market.Broken message.now) order.now result }
{
    if !order.has_had(&message.token) {
        return Err(RowFault::NotLawful);
    }
    let Some(told) = standing_in(order, message.match_number) else {
        return Err(RowFault::NotLawful);
    };
    Ok(Heard {
        change: Change::Broken(told),
        bodies: tell_broken(alloc, issued, order, message, told)?,
    })
}

/// The bodies for its client, if this trade is the one that it takes back.
fn tell_broken(
    alloc: Global,
    issued: u64,
    order: &Order,
    message: &Broken,
    told: ToldTrade,
) -> Result<Vec<AppBody>, AllocError>
    requires issued { issued < 2 ^ 60 }
    requires own { is_of (record_life order.now) message.now.token ≡ true }
    requires here { find (stands_told message.now.match_number) order.now.trades ≡ Some (told_seen told) }
    requires steady { IsSteady order.now }
    ensures told { IfOk result (λ bodies. map body_fields bodies.items
        ≡ told_of issued (market.Broken message.now) order.now) }
    ensures few { IfOk result (λ bodies. length bodies.items ≤ 6) }
{
    let progress = order.progress_after(Change::Broken(told));
    let occasion = Occasion::TradeCancel {
        exec_id: told.number,
        reason: message.reason,
    };
    let mut bodies = Vec::with_capacity(alloc, 1)?;
    let shown = shown_of(order, &progress);
    let report = report_of(alloc, issued + 1, occasion, &shown)?;
    push_report(&mut bodies, report)?;
    Ok(bodies)
}

/// The newest trade of an order that stands under the match number.
fn standing_in(order: &Order, match_number: u64) -> Option<ToldTrade>
    ensures newest { option_map told_seen result ≡ find (stands_told match_number) order.now.trades }
    ensures steady { IsSteady order.now }
{
    order.trades.standing(match_number)
}
