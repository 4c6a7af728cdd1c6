//! The ports of a script.

ghost use Rattle.std.specs.Prelude.{◌≡◌, ◌≤◌, ◌<◌};
ghost use Rattle.script_lines.specs.Names.{port_index, port_number};

/// A port of the script, a connection to the market.
#[derive(Clone, Copy)]
pub enum Port {
    /// `P1`.
    First,
    /// `P2`.
    Second,
}

impl Port {
    /// The number by which the core knows the port, from 1.
    pub fn number(self) -> u16
        ensures number { result ≡ port_number self }
        ensures least { 1 ≤ result }
        ensures most { result ≤ 2 }
    {
        match self {
            Port::First => 1,
            Port::Second => 2,
        }
    }

    /// The port's place in a list of both, from 0.
    pub fn index(self) -> usize
        ensures index { result ≡ port_index self }
        ensures inside { result < 2 }
    {
        match self {
            Port::First => 0,
            Port::Second => 1,
        }
    }
}
