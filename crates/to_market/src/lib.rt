//! What a new order, a cancel and a replace ask of the market, in the market's words, or the first row of their tables
//! that refuses them.
//!
//! `say_replace`, `say_cancel` and `ask_of` have no table of orders. Of a new order they judge the fields alone; of a
//! request they judge all rows, and take what those read of the order that it names. `verdict`, `on_cancel` and
//! `on_replace` judge on the table of orders; `refuse` gives the report of a refusal, `accept` the waiting order with
//! its token, its report and its message. All of them change nothing: their caller puts what is kept into the table.
//!
//! Source: FIX 4.4 Volume 4, "New Order - Single", "Order Cancel Request", "Order Cancel/Replace Request"; OUCH 4.2,
//! "Enter Order Message", "Cancel Order Message", "Replace Order Message".
#![tactic(auto)]

mod accepting;
mod asking;
mod cancels;
mod client_terms;
mod limits;
mod named;
mod named_order;
mod new_ask;
mod port_state;
mod refusal;
mod refused;
mod refusing;
mod replace_ask;
mod replaces;
mod requests;
mod sender;
mod turn;
mod turns;
mod verdicts;

pub use accepting::accept;
pub use asking::{ask_of, enter_order, refuse_if};
pub use cancels::on_cancel;
pub use client_terms::ClientTerms;
pub use named::shown_now;
pub use named_order::NamedOrder;
pub use new_ask::NewAsk;
pub use port_state::PortState;
pub use refusal::Refusal;
pub use refused::refuse;
pub use replace_ask::ReplaceAsk;
pub use replaces::on_replace;
pub use requests::{ask_of_replace, refuse_cancel, refuse_port, say_cancel, say_replace};
pub use sender::Sender;
pub use turn::AcceptedOrder;
pub use turns::{CancelTurn, ReplaceTurn};
pub use verdicts::verdict;
