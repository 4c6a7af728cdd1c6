//! What the whole core promises: sessions of clients, the order level and sessions of ports as one value that is
//! stepped by events, each of which gives a batch.
//!
//! `specs/` defines it over lists of events and batches alone. There is nothing to call here but laws of these
//! definitions.
#![tactic(auto)]

mod laws;

pub use laws::{
    links_are_current_while_sessions_are_open, other_events_change_nothing,
    packets_have_the_messages_sent, payloads_are_told_to_clients_that_came, runs_tell_what_is_told,
    second_links_are_closed, sends_leave_the_state, steps_keep_the_promises,
    turns_are_no_more_than_events,
};
