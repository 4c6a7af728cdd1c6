//! The bodies of what a client is sent about an order and its requests: execution reports and rejects.
#![tactic(auto)]

mod endings;
mod from_orders;
mod occasion;
mod pending;
mod refusing;
mod rejecting;
mod reporting;
mod request_reports;
mod shown;
mod status;

pub use endings::{
    push_cancel_rejected, push_canceled, push_not_replaced, push_report, push_too_late,
};
pub use from_orders::{pending_of, shown_of};
pub use occasion::Occasion;
pub use pending::Pending;
pub use refusing::refusal;
pub use rejecting::cancel_reject;
pub use reporting::report_of;
pub use request_reports::{report_pending, report_replaced};
pub use shown::{Request, Shown};
pub use status::{status_of, status_shown};
