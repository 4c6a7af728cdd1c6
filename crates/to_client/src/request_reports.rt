//! Execution reports on a cancel or replace: that it is pending, and that it is done.

ghost use Rattle.std.specs.Prelude.{◌≡◌, ◌∷◌, [], codes, IfOk, Some};
ghost use Rattle.orders.specs.fix_types.Report.{report_fields};
ghost use Rattle.order_law.specs.History.{Entry};
ghost use Rattle.order_law.specs.Told as law;
ghost use Rattle.to_client.specs.Shows.{IsRequest, ShowsAs, pending_type};

use crate::occasion::plain;
use crate::reporting::report_on;
use crate::shown::{Request, Shown};
use fix_types::Report;
use fix_values::{CxlRejResponseTo, ExecType};
use std::alloc::{AllocError, Global};

/// The report that an accepted request is pending: 150=E of a replace, 150=6 of a cancel. `shown` is the order as it
/// was; the report shows it with the request. The one error of these reports is that memory ran out.
///
/// Source: FIX 4.4 Volume 4, "Execution Report", ExecType Pending Replace and Pending Cancel.
pub fn report_pending(
    alloc: Global,
    number: u64,
    request: &Request,
    shown: &Shown,
) -> Result<Report, AllocError>
    ensures { IfOk result (λ r. (q : Entry) (s : law.Shown) → IsRequest request.now q.message → ShowsAs shown.now s
        → report_fields r ∷ [] ≡ law.accepted_request number q (Some s)) }
{
    let details = plain(exec_type_of(request.kind));
    let shown = shown.with_request(request.kind);
    report_on(alloc, number, &details, &Some(*request), &shown)
}

/// The report that an order is replaced, 150=5. The order is shown as it is then, with its new total and price; its
/// 11 is the replace's.
///
/// Source: FIX 4.4 Volume 4, "Execution Report", ExecType Replaced.
pub fn report_replaced(
    alloc: Global,
    number: u64,
    request: &Request,
    shown: &Shown,
) -> Result<Report, AllocError>
    ensures { IfOk result (λ r. (q : Entry) (s : law.Shown) → IsRequest request.now q.message → ShowsAs shown.now s
        → report_fields r ≡ law.report number (law.on_request (codes "5") q) s) }
{
    report_on(
        alloc,
        number,
        &plain(ExecType::Replaced),
        &Some(*request),
        shown,
    )
}

/// ExecType (150) of a request that is pending.
fn exec_type_of(kind: CxlRejResponseTo) -> ExecType
    ensures { result ≡ pending_type kind }
{
    match kind {
        CxlRejResponseTo::Cancel => ExecType::PendingCancel,
        CxlRejResponseTo::Replace => ExecType::PendingReplace,
    }
}
