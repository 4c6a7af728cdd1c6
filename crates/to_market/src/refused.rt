//! A refused new order.

ghost use Rattle.std.specs.Prelude.{◌≡◌, ◌<◌, ◌^◌, IfOk};
ghost use Rattle.fix_types.specs.Application.{body_fields};
ghost use Rattle.fix_types.specs.NewOrder.{new_order_fields};
ghost use Rattle.order_law.specs.Told as law;
ghost use Rattle.to_market.specs.Refusals.{code_of, refusal_text};
ghost use Rattle.to_market.specs.NewTurns.{StepsRefused};

use crate::refusal::Refusal;
use fix_types::{AppBody, NewOrder};
use std::alloc::{AllocError, Global};
use to_client::refusal;

/// Refuses a new order by this row, after `order_ids` OrderIDs and `exec_ids` ExecIDs of all clients: one report, with
/// the next of both.
///
/// It changes nothing. The one error is that memory ran out.
pub fn refuse(
    alloc: Global,
    order_ids: u64,
    exec_ids: u64,
    order: &NewOrder,
    row: Refusal,
) -> Result<AppBody, AllocError>
    requires order_ids { order_ids < 2 ^ 60 }
    requires exec_ids { exec_ids < 2 ^ 60 }
    ensures { IfOk result (StepsRefused order_ids exec_ids order.now row) }
{
    let body = report_refused(alloc, order_ids + 1, exec_ids + 1, order, row)?;
    Ok(body)
}

/// The report that a row refuses a new order.
fn report_refused(
    alloc: Global,
    order_id: u64,
    exec_id: u64,
    order: &NewOrder,
    row: Refusal,
) -> Result<AppBody, AllocError>
    ensures { IfOk result (λ body. body_fields body
        ≡ law.refusing_report exec_id order_id (new_order_fields order.now) (code_of row) (refusal_text row)) }
{
    let why = row.text(alloc)?;
    let report = refusal(alloc, order_id, exec_id, order, row.code(), why)?;
    Ok(AppBody::Report(report))
}
