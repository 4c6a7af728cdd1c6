//! An order and a request, as reports and rejects show them.

use fix_types::{CancelRequest, ReplaceRequest};
use fix_values::{Character, ClOrdId, CxlRejResponseTo};
use orders::{Progress, Symbol};

/// An order as a report or reject shows it: as it is after what the body reports.
#[derive(Clone, Copy)]
pub struct Shown<'a> {
    /// OrderID (37).
    pub order_id: u64,
    /// ClOrdID (11) that it goes by.
    pub cl_ord_id: &'a ClOrdId,
    /// Symbol (55).
    pub symbol: &'a Symbol,
    /// Side (54).
    pub side: Character,
    /// Its stage and quantities.
    pub progress: &'a Progress,
    /// A cancel of it was accepted and isn't answered.
    pub has_pending_cancel: bool,
    /// A replace of it was accepted and isn't answered.
    pub has_pending_replace: bool,
}

/// A cancel or replace, as what answers it tells.
#[derive(Clone, Copy)]
pub struct Request<'a> {
    /// ClOrdID (11): its own.
    pub cl_ord_id: &'a ClOrdId,
    /// OrigClOrdID (41), as it gave it.
    pub orig_cl_ord_id: &'a ClOrdId,
    /// Which of the two it is.
    pub kind: CxlRejResponseTo,
}

impl<'a> Shown<'a> {
    ghost use Rattle.std.specs.Prelude.{◌≡◌};
    ghost use Rattle.order_law.specs.History.{Entry};
    ghost use Rattle.order_law.specs.Verdicts.{is_replace};
    ghost use Rattle.order_law.specs.Told as law;
    ghost use Rattle.to_client.specs.Shows.{ShowsAs, is_of_replace};

    /// The order with one request more that is pending.
    pub fn with_request(&self, kind: CxlRejResponseTo) -> Shown<'a>
        ensures { (q : Entry) (s : law.Shown) → is_replace q.message ≡ is_of_replace kind → ShowsAs self.now s
            → ShowsAs result (law.with_request q s) }
    {
        match kind {
            CxlRejResponseTo::Cancel => Shown {
                has_pending_cancel: true,
                ..*self
            },
            CxlRejResponseTo::Replace => Shown {
                has_pending_replace: true,
                ..*self
            },
        }
    }
}

impl<'a> Request<'a> {
    ghost use Rattle.orders.specs.fix_types.CancelRequest.{cancel_request_fields};
    ghost use Rattle.orders.specs.fix_types.ReplaceRequest.{replace_request_fields};
    ghost use Rattle.to_client.specs.Shows.{IsRequest};

    /// An OrderCancelRequest (35=F).
    pub fn of_cancel(request: &'a CancelRequest) -> Request<'a>
        ensures { IsRequest result (cancel_request_fields request.now) }
    {
        Request {
            cl_ord_id: &request.cl_ord_id,
            orig_cl_ord_id: &request.orig_cl_ord_id,
            kind: CxlRejResponseTo::Cancel,
        }
    }

    /// An OrderCancelReplaceRequest (35=G).
    pub fn of_replace(request: &'a ReplaceRequest) -> Request<'a>
        ensures { IsRequest result (replace_request_fields request.now) }
    {
        Request {
            cl_ord_id: &request.cl_ord_id,
            orig_cl_ord_id: &request.orig_cl_ord_id,
            kind: CxlRejResponseTo::Replace,
        }
    }
}
