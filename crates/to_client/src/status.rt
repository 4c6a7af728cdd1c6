//! How an order stands: OrdStatus (39).

ghost use Rattle.std.specs.Prelude.{◌≡◌};
ghost use Rattle.to_client.specs.Occasions.{status_as};
ghost use Rattle.to_client.specs.Shows.{status_any, status_with};

use crate::shown::Shown;
use fix_values::OrdStatus;
use order_law::Stage;
use orders::Progress;

/// OrdStatus (39) of an order without requests, the first that holds: rejected; closed, with all of it executed or not;
/// waiting; open, with something executed or not.
///
/// Source: FIX 4.4 Volume 6, OrdStatus, with its order of precedence.
pub fn status_of(progress: &Progress) -> OrdStatus
    ensures { result ≡ status_as progress.now }
{
    if progress.is_refused {
        return OrdStatus::Rejected;
    }
    match progress.stage {
        Stage::Closed if progress.executed == progress.total => OrdStatus::Filled,
        Stage::Closed => OrdStatus::Canceled,
        Stage::Waiting => OrdStatus::PendingNew,
        Stage::Working if progress.executed == 0 => OrdStatus::New,
        Stage::Working => OrdStatus::PartiallyFilled,
    }
}

/// OrdStatus (39), the first that holds: rejected; a cancel is pending; a replace is pending; then as of an order
/// without requests.
///
/// Source: FIX 4.4 Volume 6, OrdStatus, with its order of precedence.
pub fn status_shown(shown: &Shown) -> OrdStatus
    ensures { result ≡ status_with shown.now }
{
    if shown.progress.is_refused {
        return OrdStatus::Rejected;
    }
    if shown.has_pending_cancel {
        return OrdStatus::PendingCancel;
    }
    if shown.has_pending_replace {
        return OrdStatus::PendingReplace;
    }
    status_of(shown.progress)
}

/// The status of an order that may not be known: rejected, where it isn't.
///
/// Source: FIX 4.4 Volume 4, "Order Cancel Reject", OrdStatus.
pub fn status_or_rejected(order: &Option<Shown>) -> OrdStatus
    ensures { result ≡ status_any order.now }
{
    match order {
        None => OrdStatus::Rejected,
        Some(order) => status_shown(order),
    }
}
