//! The clients of a script.

ghost use Rattle.std.specs.Prelude.{◌≡◌, ◌≤◌, ◌<◌};
ghost use Rattle.script_lines.specs.Names.{client_index, client_number, port_of_client};

use crate::port::Port;

/// A client of the script. Clients 1 and 2 are at port 1, client 3 at port 2.
#[derive(Clone, Copy)]
pub enum Client {
    /// `C1`.
    First,
    /// `C2`.
    Second,
    /// `C3`.
    Third,
}

impl Client {
    /// The number by which the core knows the client, from 1.
    pub fn number(self) -> u16
        ensures number { result ≡ client_number self }
        ensures least { 1 ≤ result }
        ensures most { result ≤ 3 }
    {
        match self {
            Client::First => 1,
            Client::Second => 2,
            Client::Third => 3,
        }
    }

    /// The client's place in a list of all three, from 0.
    pub fn index(self) -> usize
        ensures index { result ≡ client_index self }
        ensures inside { result < 3 }
    {
        match self {
            Client::First => 0,
            Client::Second => 1,
            Client::Third => 2,
        }
    }

    /// The port by which the client's orders go to the market.
    pub fn port(self) -> Port
        ensures { result ≡ port_of_client self }
    {
        match self {
            Client::First | Client::Second => Port::First,
            Client::Third => Port::Second,
        }
    }
}
