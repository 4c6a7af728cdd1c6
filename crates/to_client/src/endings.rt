//! Bodies that answer the requests on an order, and that end it.
//!
//! The one error of each is that memory ran out; then the bodies are of no use any more.

ghost use Rattle.std.specs.Prelude.{◌≡◌, ◌≤◌, ◌+◌, ◌++◌, ◌∷◌, [], List, true, length, map, IfOk, IfSome, Option};
ghost use Rattle.std.specs.List.{list_all};
ghost use Rattle.order_law.specs.fix_fields.Field.{is_inside};
ghost use Rattle.orders.specs.fix_types.Report.{report_fields};
ghost use Rattle.fix_values.specs.Reasons.{cxl_rej_number};
ghost use Rattle.fix_values.specs.Slots.{char_text};
ghost use Rattle.order_law.specs.wire_law.Printable.{is_printable};
ghost use Rattle.orders.specs.fix_types.Application.{body_fields};
ghost use Rattle.order_law.specs.History.{Entry};
ghost use Rattle.order_law.specs.Told as law;
ghost use Rattle.order_law.specs.Headline.{Each};
ghost use Rattle.order_law.specs.Verdicts.{is_replace};
ghost use Rattle.to_client.specs.Pending.{IsPending, each_rejected, messages_in, messages_of, rejects_of};
ghost use Rattle.to_client.specs.Pending.{without_replaces};
ghost use Rattle.to_client.specs.Shows.{IsAnyRequest, ShowsAs};

use crate::occasion::{Occasion, fields_given_by};
use crate::pending::Pending;
use crate::rejecting::cancel_reject;
use crate::reporting::report_on;
use crate::shown::{Request, Shown};
use fix_fields::Text;
use fix_types::{AppBody, Report};
use fix_values::CxlRejReason;
use orders::Replacing;
use std::alloc::{AllocError, Global};

/// A report as one body more. There is room before it is put there, so that it is moved once.
#[inline(always)]
pub fn push_report(bodies: &mut Vec<AppBody>, report: Report) -> Result<(), AllocError>
    ensures told { IfOk result (λ nothing. map body_fields bodies.new.items
        ≡ map body_fields bodies.old.items ++ report_fields report ∷ []) }
    ensures few { length bodies.new.items ≤ length bodies.old.items + 1 }
{
    bodies.reserve(1)?;
    bodies.push_reserved(AppBody::Report(report));
    Ok(())
}

/// The reject of a pending request, where there is one, with a code (102) and a text (58). The order is shown without
/// it.
///
/// Source: FIX 4.4 Volume 4, "Order Cancel Reject".
fn push_reject(
    alloc: Global,
    bodies: &mut Vec<AppBody>,
    request: &Option<Request>,
    shown: &Shown,
    code: CxlRejReason,
    text: &[u8],
) -> Result<(), AllocError>
    requires { list_all is_inside text.now ≡ true }
    ensures told { IfOk result (λ nothing. (q : Option Entry) (s : law.Shown) → IsAnyRequest request.now q
        → ShowsAs shown.now s
        → map body_fields bodies.new.items
        ≡ map body_fields bodies.old.items ++ rejects_of s q (cxl_rej_number code) text.now) }
    ensures few { length bodies.new.items ≤ length bodies.old.items + 1 }
{
    if let Some(request) = request {
        let text = Text::copied(alloc, text)?;
        let order = Shown {
            order_id: shown.order_id,
            ..*shown
        };
        let reject = cancel_reject(alloc, request, &Some(order), code, text)?;
        bodies.push(AppBody::CancelReject(reject))?;
    }
    Ok(())
}

/// Rejects of replaces that are pending one behind another, with a code (102): the first one's text (58) is `why`, that
/// of those behind it `further`. Each shows the order with those pending that stand behind its own replace; `shown` has
/// it without any replace.
///
/// Source: FIX 4.4 Volume 4, "Order Cancel Reject".
fn push_rejects(
    alloc: Global,
    bodies: &mut Vec<AppBody>,
    replaces: &[Replacing],
    shown: &Shown,
    code: CxlRejReason,
    why: &[u8],
    further: &[u8],
) -> Result<(), AllocError>
    requires why { list_all is_inside why.now ≡ true }
    requires further { list_all is_inside further.now ≡ true }
    ensures told { IfOk result (λ nothing. (qs later : List Entry) (s : law.Shown)
        → messages_in replaces.now ≡ messages_of qs → Each (λ (q : Entry). is_replace q.message ≡ true) qs
        → ShowsAs (without_replaces shown.now) (record s { pending = later })
        → map body_fields bodies.new.items ≡ map body_fields bodies.old.items
        ++ each_rejected s qs later (cxl_rej_number code) why.now further.now) }
    ensures few { length bodies.new.items ≤ length bodies.old.items + length replaces.now }
{
    let [first, rest @ ..] = replaces else {
        return Ok(());
    };
    let request = Some(Request::of_replace(&first.message));
    let behind = Shown {
        has_pending_replace: !rest.is_empty(),
        ..*shown
    };
    push_reject(alloc, bodies, &request, &behind, code, why)?;
    push_rejects(alloc, bodies, rest, shown, code, further, further)
}

/// An order is closed, and each request that is pending is too late: a reject for each, in order of acceptance.
///
/// Source: FIX 4.4 Volume 6, CxlRejReason, 0: too late to cancel.
pub fn push_too_late(
    alloc: Global,
    bodies: &mut Vec<AppBody>,
    shown: &Shown,
    pending: &Pending,
) -> Result<(), AllocError>
    ensures told { IfOk result (λ nothing. (replaces : List Entry) (cancel : Option Entry) (s : law.Shown)
        → ShowsAs shown.now s → IsPending pending.now replaces cancel s
        → map body_fields bodies.new.items ≡ map body_fields bodies.old.items ++ law.too_late s) }
    ensures few { length bodies.new.items ≤ length bodies.old.items + length pending.now.replaces.now + 1 }
{
    let code = CxlRejReason::TooLateToCancel;
    push_rejects(
        alloc,
        bodies,
        pending.replaces,
        shown,
        code,
        b"too late",
        b"too late",
    )?;
    let last = Shown {
        has_pending_cancel: false,
        has_pending_replace: false,
        ..*shown
    };
    push_reject(alloc, bodies, &pending.cancel, &last, code, b"too late")
}

/// All that was open of an order is cancelled, and it is closed: 150=4, with the market's letter where it gave one,
/// which answers a pending cancel; then each pending replace is too late.
///
/// Source: FIX 4.4 Volume 4, "Execution Report", ExecType Canceled.
pub fn push_canceled(
    alloc: Global,
    bodies: &mut Vec<AppBody>,
    number: u64,
    reason: Option<u8>,
    shown: &Shown,
    pending: &Pending,
) -> Result<(), AllocError>
    requires { IfSome reason (λ byte. is_printable byte ≡ true) }
    ensures told { IfOk result (λ nothing. (replaces : List Entry) (cancel : Option Entry) (s : law.Shown)
        → ShowsAs shown.now s → IsPending pending.now replaces cancel s
        → map body_fields bodies.new.items ≡ map body_fields bodies.old.items
        ++ law.cancelled number (char_text reason) s) }
    ensures few { length bodies.new.items ≤ length bodies.old.items + length pending.now.replaces.now + 1 }
{
    let rest = Shown {
        has_pending_cancel: false,
        ..*shown
    };
    let details = fields_given_by(Occasion::Canceled(reason));
    let report = report_on(alloc, number, &details, &pending.cancel, &rest)?;
    push_report(bodies, report)?;
    let code = CxlRejReason::TooLateToCancel;
    push_rejects(
        alloc,
        bodies,
        pending.replaces,
        &rest,
        code,
        b"too late",
        b"too late",
    )
}

/// The market rejects the oldest pending replace, with its letter, and those behind it fall with it: a reject for each.
///
/// Source: OUCH 4.2, "Rejected Message"; FIX 4.4 Volume 4, "Order Cancel Reject".
pub fn push_not_replaced(
    alloc: Global,
    bodies: &mut Vec<AppBody>,
    reason: u8,
    shown: &Shown,
    pending: &Pending,
) -> Result<(), AllocError>
    requires { is_printable reason ≡ true }
    ensures told { IfOk result (λ nothing. (replaces : List Entry) (cancel : Option Entry) (s : law.Shown)
        → ShowsAs shown.now s → IsPending pending.now replaces cancel s
        → map body_fields bodies.new.items ≡ map body_fields bodies.old.items
        ++ law.each_not_replaced (reason ∷ []) s s.pending) }
    ensures few { length bodies.new.items ≤ length bodies.old.items + length pending.now.replaces.now }
{
    let code = CxlRejReason::BrokerOption;
    let letter = [reason];
    let further = b"earlier replace rejected";
    push_rejects(
        alloc,
        bodies,
        pending.replaces,
        shown,
        code,
        &letter,
        further,
    )
}

/// The last Cancel Order of a pending cancel is answered, and the order isn't closed: its reject.
///
/// Source: OUCH 4.2, "Cancel Reject Message"; FIX 4.4 Volume 4, "Order Cancel Reject".
pub fn push_cancel_rejected(
    alloc: Global,
    bodies: &mut Vec<AppBody>,
    is_last: bool,
    shown: &Shown,
    pending: &Pending,
) -> Result<(), AllocError>
    ensures told { IfOk result (λ nothing. (replaces : List Entry) (cancel : Option Entry) (s : law.Shown)
        → ShowsAs shown.now s → IsPending pending.now replaces cancel s
        → map body_fields bodies.new.items ≡ map body_fields bodies.old.items ++ law.cancel_rejected is_last s) }
    ensures few { length bodies.new.items ≤ length bodies.old.items + 1 }
{
    if is_last {
        let rest = Shown {
            has_pending_cancel: false,
            ..*shown
        };
        push_reject(
            alloc,
            bodies,
            &pending.cancel,
            &rest,
            CxlRejReason::BrokerOption,
            b"cancel rejected by market",
        )?;
    }
    Ok(())
}
