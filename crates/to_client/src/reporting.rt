//! An execution report on an order.

ghost use Rattle.std.specs.Prelude.{◌≡◌, true, IfOk, IfSome, option_map};
ghost use Rattle.fixed_point.specs.Price.{price_text};
ghost use Rattle.orders.specs.fix_types.Report.{report_fields};
ghost use Rattle.order_law.specs.wire_law.Printable.{is_printable};
ghost use Rattle.order_law.specs.Told as law;
ghost use Rattle.to_client.specs.Occasions.{details_of, leaves_in, occasion_seen};
ghost use Rattle.to_client.specs.Shows.{IsOccasion, ShowsAs, id_told, orig_told, report_with};

use crate::occasion::{Details, Occasion, fields_given_by};
use crate::shown::{Request, Shown};
use crate::status::status_shown;
use fix_fields::Text;
use fix_types::Report;
use fix_values::{ClOrdId, FieldValue};
use fixed_point::average;
use order_law::Stage;
use orders::Progress;
use std::alloc::{AllocError, Global};

/// The report, with an ExecID of this number, of what happened to an order that is then shown so. The market's letters
/// are printable. The one error is that memory ran out.
///
/// Source: FIX 4.4 Volume 4, "Execution Report".
pub fn report_of(
    alloc: Global,
    number: u64,
    occasion: Occasion,
    shown: &Shown,
) -> Result<Report, AllocError>
    requires reason { IfSome (details_of occasion).reason (λ byte. is_printable byte ≡ true) }
    ensures told { IfOk result (λ r. (s : law.Shown) → ShowsAs shown.now s
        → report_fields r ≡ law.report number (occasion_seen occasion) s) }
{
    report_on(alloc, number, &fields_given_by(occasion), &None, shown)
}

/// The report with these details, on a request where there is one.
pub fn report_on(
    alloc: Global,
    number: u64,
    details: &Details,
    request: &Option<Request>,
    shown: &Shown,
) -> Result<Report, AllocError>
    requires { IfSome details.now.reason (λ byte. is_printable byte ≡ true) }
    ensures told { IfOk result (λ r. (o : law.Occasion) (s : law.Shown) → IsOccasion details.now request.now o
        → ShowsAs shown.now s
        → report_fields r ≡ law.report number o s) }
{
    filled_in(alloc, number, details, request, shown)
}

/// The same, field by field.
fn filled_in(
    alloc: Global,
    number: u64,
    details: &Details,
    request: &Option<Request>,
    shown: &Shown,
) -> Result<Report, AllocError>
    requires { IfSome details.now.reason (λ byte. is_printable byte ≡ true) }
    ensures { IfOk result (λ r. r ≡ report_with number details.now request.now shown.now) }
{
    let progress = shown.progress;
    let cl_ord_id = own_id(alloc, request, shown)?;
    let orig_cl_ord_id = orig_id(alloc, request)?;
    let symbol = Text::copied(alloc, shown.symbol.as_slice())?;
    Ok(Report {
        order_id: shown.order_id,
        cl_ord_id,
        orig_cl_ord_id,
        exec_id: number,
        exec_ref_id: details.exec_ref_id,
        exec_type: details.exec_type,
        ord_status: status_shown(shown),
        ord_rej_reason: details.ord_rej_reason,
        exec_restatement_reason: details.exec_restatement_reason,
        symbol,
        side: shown.side,
        order_qty: FieldValue::number(progress.total),
        price: Some(FieldValue::price(u128::from(progress.price))),
        last_qty: details.last_qty,
        last_px: last_price(details),
        leaves_qty: leaves(progress),
        cum_qty: progress.executed,
        avg_px: FieldValue::price(average(progress.value, progress.executed)),
        text: details.reason.map(FieldValue::letter),
    })
}

/// ClOrdID (11): the request's own, or that of the order.
fn own_id(alloc: Global, request: &Option<Request>, shown: &Shown) -> Result<ClOrdId, AllocError>
    ensures { IfOk result (λ id. id ≡ id_told request.now shown.now) }
{
    match request {
        None => ClOrdId::copied(alloc, shown.cl_ord_id.as_slice()),
        Some(request) => ClOrdId::copied(alloc, request.cl_ord_id.as_slice()),
    }
}

/// OrigClOrdID (41): as the request gave it.
fn orig_id(alloc: Global, request: &Option<Request>) -> Result<Option<ClOrdId>, AllocError>
    ensures { IfOk result (λ id. id ≡ orig_told request.now) }
{
    match request {
        None => Ok(None),
        Some(request) => Ok(Some(ClOrdId::copied(alloc, request.orig_cl_ord_id.as_slice())?)),
    }
}

/// LeavesQty (151): all of it before the market's answer, what is open in the book, nothing once it is closed.
fn leaves(progress: &Progress) -> u64
    ensures { result ≡ leaves_in progress.now }
{
    match progress.stage {
        Stage::Waiting => progress.total,
        Stage::Working => u64::from(progress.unfilled),
        Stage::Closed => 0,
    }
}

/// LastPx (31): the price of a trade.
fn last_price(details: &Details) -> Option<FieldValue>
    ensures { result ≡ option_map (λ n. price_text n) details.now.last_px }
{
    match details.last_px {
        None => None,
        Some(units) => Some(FieldValue::price(u128::from(units))),
    }
}
