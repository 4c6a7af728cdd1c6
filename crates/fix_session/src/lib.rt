//! The gateway's end of a FIX session: numbers, gaps, resends, silence, the end.
//!
//! A session is a value that is stepped by calls; it reads no clock and no socket. A message or a moment is judged
//! first; then its answer is made beside the session (a `Draft`), and taken over whole, so that running out of memory
//! leaves the session as it was.
//!
//! Source: FIX 4.4 Volume 2, "Session Protocol"; `session_law` has the table.
#![tactic(auto)]

mod answer;
mod draft;
mod issues;
mod judge;
mod logon;
mod logon_fault;
mod session;
mod ticks;

pub use logon_fault::LogonFault;
pub use session::{IssuedTurn, Session, SessionTurn};
pub use session_reading::application_of;
pub use session_writing::{SessionOut, push_number};
