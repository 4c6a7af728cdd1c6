//! FIX application messages as types: what a client asks, and what it is told.
//!
//! A typed message is written as its fields in the standard's order, and read from any fields that have what it needs.
//! A reader names the first field that is missing or has another format; which values are acceptable beyond that is
//! judged elsewhere, so a message keeps the texts of its values as they came.
//!
//! Source: FIX 4.4 Volume 4, "New Order - Single", "Order Cancel Request", "Order Cancel/Replace Request", "Execution
//! Report", "Order Cancel Reject"; Volume 2, "Business Message Reject".
#![tactic(auto)]

mod application;
mod business_reject;
mod cancel_reject;
mod cancel_request;
mod new_order;
mod new_order_reading;
mod replace_request;
mod replace_request_reading;
mod report;
mod report_fields;
mod report_reading;
mod requests;
mod terms;

pub use application::{AppBody, AppMsg};
pub use business_reject::BusinessReject;
pub use cancel_reject::CancelReject;
pub use cancel_request::{CancelRequest, read_cancel_request};
pub use fix_fields::{Fields, SOH, SessionRefusal, SessionRejectReason, Text, split};
pub use fix_values::{Character, ClOrdId, TextFault};
pub use new_order::NewOrder;
pub use new_order_reading::read_new_order;
pub use replace_request::ReplaceRequest;
pub use replace_request_reading::read_replace_request;
pub use report::Report;
pub use requests::{cancel_refusal, new_order_refusal, replace_refusal};
pub use wire_law::TextWire;
