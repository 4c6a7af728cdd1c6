//! Whose message it is.

use crate::client_terms::ClientTerms;
use crate::port_state::PortState;

/// Whose message it is: its client's number, from 1, and terms, and how its port stands.
#[derive(Clone, Copy)]
pub struct Sender {
    pub client: u16,
    pub terms: ClientTerms,
    pub port: PortState,
}
