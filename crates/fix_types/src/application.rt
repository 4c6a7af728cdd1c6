//! The application messages of either way.

use crate::cancel_reject::CancelReject;
use crate::cancel_request::CancelRequest;
use crate::new_order::NewOrder;
use crate::replace_request::ReplaceRequest;
use crate::report::Report;

/// An application message of a client, as its session gives it up.
#[derive(Debug, Drop)]
pub enum AppMsg {
    /// NewOrderSingle (35=D).
    New(NewOrder),
    /// OrderCancelRequest (35=F).
    Cancel(CancelRequest),
    /// OrderCancelReplaceRequest (35=G).
    Replace(ReplaceRequest),
}

/// The body of an application message to a client, as its session numbers and writes it.
#[derive(Debug, Drop)]
pub enum AppBody {
    /// ExecutionReport (35=8).
    Report(Report),
    /// OrderCancelReject (35=9).
    CancelReject(CancelReject),
}
