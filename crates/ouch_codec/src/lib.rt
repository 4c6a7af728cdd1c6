//! The messages of OUCH 4.2 that the gateway and the market exchange: three towards the market, nine from it.
//!
//! A message has a fixed number of bytes: numbers are big-endian, texts are padded right with spaces. What a layout
//! is stands in `specs/Layout.antt`, and the layouts themselves, field by field as the manual has them, in
//! `specs/Layouts.antt`. Each message is a `FixedWire`: it is written in one way, and read back as itself.
//!
//! Source: OUCH 4.2, "Data Types", "Inbound Messages" and "Outbound Messages".
#![tactic(auto)]

mod field;
mod inbound;
mod layout;
mod order_state;
mod outbound;
mod refusal;
mod side;

pub use inbound::{Cancel, EnterOrder, Inbound, Replace};
pub use order_state::OrderState;
pub use outbound::{
    Accepted, Broken, CancelPending, CancelReject, Canceled, Executed, Outbound, Rejected,
    Replaced, SystemEvent, decode, one_answer,
};
pub use refusal::DecodeRefusal;
pub use side::Side;
