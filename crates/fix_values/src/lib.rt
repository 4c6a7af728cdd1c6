//! The values of FIX fields as types, and a field at a time of a message's way to and from its fields.
//!
//! A value is read from the first field with its tag, and written behind the fields that are there. A message's table
//! says which tags have to be there and what format each value has; `first_refusal` names the first row that fields
//! don't meet. What has met its table can be read without a further refusal, so readers ask for that.
//!
//! Source: FIX 4.4 Volume 1, data types; Volume 6 for the codes.
#![tactic(auto)]

mod character;
mod cl_ord_id;
mod copying;
mod cxl_rej_reason;
mod cxl_rej_response_to;
mod exec_type;
mod field_value;
mod float_text;
mod format;
mod ord_rej_reason;
mod ord_status;
pub mod reading;
mod refusal;
pub mod writing;

pub use character::Character;
pub use cl_ord_id::ClOrdId;
pub use copying::{copied_float, copied_text};
pub use cxl_rej_reason::CxlRejReason;
pub use cxl_rej_response_to::CxlRejResponseTo;
pub use exec_type::ExecType;
pub use field_value::FieldValue;
pub use float_text::FloatText;
pub use format::{Format, Row, first_refusal};
pub use ord_rej_reason::OrdRejReason;
pub use ord_status::OrdStatus;
pub use refusal::TextFault;
