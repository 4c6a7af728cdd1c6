//! Whom the batch of an event may name.

/// Whom the batch of an event may name: at most one client and one port, by their numbers.
#[derive(Clone, Copy, Debug, PartialEq, Eq, Drop)]
pub struct Targets {
    pub client: Option<u16>,
    pub port: Option<u16>,
}
