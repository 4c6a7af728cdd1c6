//! Whether a port takes messages.

/// How a market port stands.
#[derive(Clone, Copy, Debug, PartialEq, Eq)]
pub enum PortState {
    /// Down or logging in: what it is asked is kept until it is up.
    Waiting,
    /// Logged in.
    Up,
    /// Its session has ended for the day.
    Ended,
    /// It broke the rules of this number, and stays closed.
    Faulted(u8),
}
