//! The numbers of clients and of ports.

ghost use Rattle.std.specs.Prelude.{◌≡◌, ◌≤◌, ◌<◌, ◌+◌, ◌↔◌, IsSome, IfSome};

use std::marker::{Model, PhantomData};

/// The number of a client: from 1, in the order of the settings.
pub type ClientNumber = Number<Client>;

/// The number of a port: from 1, in the order of the settings.
pub type PortNumber = Number<Port>;

/// Says that a number is a client's.
#[derive(Clone, Copy, Debug, PartialEq, Eq)]
pub struct Client;

/// Says that a number is a port's.
#[derive(Clone, Copy, Debug, PartialEq, Eq)]
pub struct Port;

/// The number of a client or of a port, as `Of` says: from 1, in the order of the settings. Contracts see the number.
#[derive(Clone, Copy, Debug, PartialEq, Eq)]
pub struct Number<Of> {
    number: u16,
    of: PhantomData<Of>,
}

impl<Of> Model for Number<Of> {
    ghost use Rattle.std.specs.Prelude.{ℕ, ◌≤◌};

    ghost Value = { ℕ };

    ghost view = { λ n. n.number };

    ghost invariant = { λ n. 1 ≤ n.number };

    ghost inverse = { λ n. record { number = n; of = record {} } };
}

impl<Of> Number<Of> {
    /// This number, which the caller knows to be 1 or more. Takes no memory.
    pub fn new(number: u16) -> Number<Of>
        requires from_one { 1 ≤ number }
        ensures { result ≡ number }
    {
        Number {
            number,
            of: PhantomData,
        }
    }

    /// This number; `None` for 0, which is nobody's. Takes no memory.
    pub fn of(number: u16) -> Option<Number<Of>>
        ensures from_one { IsSome result ↔ (1 ≤ number) }
        ensures value { IfSome result (λ n. n ≡ number) }
    {
        if number == 0 {
            return None;
        }
        Some(Number::new(number))
    }

    /// The number of the client or port at a place, from 0: one more. Takes no memory.
    pub fn at_place(place: usize) -> Number<Of>
        requires few { place < 65_535 }
        ensures { result ≡ place + 1 }
    {
        Number::new(place as u16 + 1)
    }

    /// The number. Takes no memory.
    pub fn number(self) -> u16
        ensures value { result ≡ self }
        ensures from_one { 1 ≤ result }
    {
        self.number
    }
}
