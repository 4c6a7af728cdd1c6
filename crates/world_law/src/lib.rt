//! What holds of the gateway and the markets that it asks, together: as definitions, and as laws of every run.
//!
//! - The order level against market machines that it alone asks: `src/laws.rt`
//! - The core, by what it writes to its markets and handles of them: `src/core_laws.rt`
//! - The closed world: one gateway, a market for each port, and connections between them that may be lost; what each
//!   end of a link makes of what the other one writes, and what holds of every world that steps lead to:
//!   `src/link_laws.rt`
//!
//! Contracts of the crates above cite `specs/`. There is nothing to call but the laws, each the contract of a function
//! that does nothing.
//!
//! Source: OUCH 4.2, "Inbound Messages" and "Outbound Messages"; SoupBinTCP 3.00, "Login Request Packet", "Login
//! Accepted Packet", "Sequenced Data Packet", "Unsequenced Data Packet".
#![tactic(auto)]

mod core_laws;
mod laws;
mod link_laws;

pub use core_laws::{
    accepted_logins_ask_again, clients_send_what_they_ask, events_of_others_leave_a_port,
    heartbeats_leave_a_port, histories_hold_at_each_step, ports_log_in_for_what_they_want,
    ticks_beat_or_close, wanted_messages_are_handled, what_is_delivered_is_handled,
    what_is_written_was_asked,
};
pub use laws::{
    asked_tokens_lead_to_their_orders, books_stay_within_what_was_accepted,
    each_token_is_named_once, fill_or_kill_orders_trade_all_or_nothing, readings_are_books_at_rest,
    what_is_said_is_no_fault, what_is_sent_was_asked,
};
pub use link_laws::{
    accepted_logins_have_their_number, at_rest_both_agree, cancels_of_a_request_find_one_token,
    fill_or_kill_executes_all_or_nothing, logins_bring_what_is_not_handled,
    logins_have_their_number, markets_are_runs_of_the_machine, no_batch_has_a_fault,
    orders_stay_within_what_was_accepted, what_is_asked_is_done_once, written_messages_are_decoded,
};
