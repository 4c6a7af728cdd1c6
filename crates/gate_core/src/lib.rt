//! The gateway's core on one thread: sessions of clients, the order level and sessions of ports as one value that is
//! stepped by events, each of which gives a batch.
//!
//! Source: FIX 4.4 Volumes 2 and 4; OUCH 4.2; SoupBinTCP 3.00.
#![tactic(auto)]

mod board;
mod parts;
mod rows;
mod runs;
mod targets;
mod whole;

pub use board::{Board, ClientRow, PortRow};
pub use fix_fields::Text;
pub use gate_events::{Batch, ClientFrame, ClientNumber, Event, LinkOut, PortNumber, ShortList};
pub use gate_settings::{ClientSettings, PortSettings, Settings};
pub use ouch_codec::EnterOrder;
pub use runs::run_all;
pub use session_law::IssuedReport;
pub use soup_session::{PortFault, PortSession, PortState};
pub use targets::Targets;
pub use to_market::ClientTerms;
pub use whole::Core;
