//! What a session writes: the bodies of its own messages, and numbers that are sent again.
//!
//! Source: FIX 4.4 Volume 2, "Session Protocol": Reject, Logon, Logout, ResendRequest, SequenceReset.
#![tactic(auto)]

mod bodies;
mod body_report;
mod head;
mod issued_report;
mod kept;
mod names;
mod output;
mod place;
mod resend;
mod resent_text;
mod stamped;
mod undo_bodies;

pub use bodies::{
    ask_body, echo_body, logon_body, push_number, reject_body, text_body, too_low_body,
    unsupported_body,
};
pub use body_report::{BodyReport, report_of_body};
pub use issued_report::issued_frame;
pub use kept::KeptBodies;
pub use names::Names;
pub use output::{SessionOut, append_written};
pub use stamped::Stamped;
pub use undo_bodies::UndoBodies;
