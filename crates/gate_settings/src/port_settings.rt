//! With what a port is logged in.

use std::marker::Model;

/// Who logs in on a market port. Contracts see the law's terms of a port.
///
/// Source: SoupBinTCP 3.00, "Login Request Packet".
#[derive(Drop)]
pub struct PortSettings {
    /// The user name; served with 1 to 6 bytes. A login pads it right with spaces to 6.
    pub user: Vec<u8>,
    /// The password; served with at most 10 bytes. A login pads it right with spaces to 10.
    pub password: Vec<u8>,
}

impl Model for PortSettings {
    ghost use Rattle.soup_session.specs.Table as port;

    ghost Value = { port.LoginTerms };

    ghost view = { λ p. record { user = p.user.items; password = p.password.items } };
}
