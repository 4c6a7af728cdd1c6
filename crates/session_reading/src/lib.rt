//! Which row of the session's table a message or a moment meets, as far as that message or moment alone decides it.
//!
//! Judging changes nothing and takes no memory. The row's answer is made by `fix_session`.
//!
//! Source: FIX 4.4 Volume 2, "Session Protocol".
#![tactic(auto)]

mod due;
mod logon_words;
mod message;
mod requests;
mod row;
mod taken;
mod words;

pub use due::{Due, due_at};
pub use logon_words::{interval_of, is_interval, is_reset_flag, resets};
pub use message::{is_plain_reset, is_type, numbered};
pub use requests::application_of;
pub use row::{Row, judge_low, judge_plain_reset};
pub use taken::{Taken, judge_resend, judge_taken};
pub use words::{has, is, is_letter, number, text};
