//! The link of the market's session.

/// How the link of the session stands.
#[derive(Clone, Copy, Debug, PartialEq, Eq)]
pub enum SimLink {
    /// There is none.
    NoLink,
    /// There is one, and no login was accepted on it.
    Connected,
    /// A login was accepted: sequenced packets go out.
    LoggedIn,
}
