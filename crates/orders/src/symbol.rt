//! The symbol of an order.

use fix_fields::Text;
use std::marker::Model;
use wire_law::padded;

/// Symbol (55) of an order, in place: at most 8 bytes. Contracts see the list of its bytes.
///
/// Source: FIX 4.4 Volume 6, Symbol (55); OUCH 4.2, Stock, whose 8 bytes it has to fit.
#[derive(Drop)]
pub struct Symbol {
    /// With spaces behind it.
    padded: [u8; 8],
    length: u8,
}

impl Model for Symbol {
    ghost use Rattle.std.specs.Prelude.{◌≤◌, ℕ, List, take};
    ghost use Rattle.order_machine.specs.fix_fields.Field.{IsValue};

    ghost Value = { List ℕ };

    ghost view = { λ s. take s.length s.padded };

    ghost invariant = { λ s. (s.length ≤ 8) × IsValue (take s.length s.padded) };
}

impl Symbol {
    ghost use Rattle.std.specs.Prelude.{◌≡◌, ◌≤◌, length};
    ghost use Rattle.order_machine.specs.fix_fields.Field.{IsValue};

    /// This text, of at most 8 bytes. Takes no memory.
    pub fn of(text: &Text) -> Symbol
        requires { length text.now ≤ 8 }
        ensures { result ≡ text.now }
    {
        let text = text.as_slice();
        Symbol {
            padded: padded(text),
            length: text.len() as u8,
        }
    }

    /// Its bytes.
    pub fn as_slice(&self) -> &[u8]
        ensures bytes { result.now ≡ self.now }
        ensures value { IsValue result.now }
    {
        &self.padded[..usize::from(self.length)]
    }
}
