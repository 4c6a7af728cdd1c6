//! A moment that keeps its text.

ghost use Rattle.std.specs.Prelude.{◌≡◌};
ghost use Rattle.fix_framing.specs.fix_fields.Field.{IsValue};
ghost use Rattle.fix_stamp.specs.Stamp.{stamp_text};

use fix_stamp::stamp;
use std::marker::Model;

/// A moment, in milliseconds since 1970, that keeps its text, which is made anew where it moves. Contracts see the
/// moment.
#[derive(Drop)]
pub struct Stamped {
    at: u64,
    text: [u8; 21],
}

impl Model for Stamped {
    ghost use Rattle.std.specs.Prelude.{◌≡◌, ℕ};
    ghost use Rattle.fix_framing.specs.fix_fields.Field.{IsValue};
    ghost use Rattle.fix_stamp.specs.Stamp.{stamp_text};

    ghost Value = { ℕ };

    ghost view = { λ stamped. stamped.at };

    ghost invariant = { λ stamped. (stamped.text ≡ stamp_text stamped.at) × IsValue stamped.text };
}

impl Stamped {
    /// A moment, with its text made. Takes no memory.
    pub fn of(at: u64) -> Stamped
        ensures { result ≡ at }
    {
        Stamped {
            at,
            text: stamp(at),
        }
    }

    /// It is this moment now. Its text is made where it was another. Takes no memory.
    pub fn move_to(&mut self, at: u64)
        ensures { self.new ≡ at }
    {
        if self.at != at {
            *self = Stamped::of(at);
        }
    }

    /// The moment.
    pub fn at(&self) -> u64
        ensures { result ≡ self.now }
    {
        self.at
    }

    /// Its text.
    pub fn text(&self) -> &[u8; 21]
        ensures text { result.now ≡ stamp_text self.now }
        ensures value { IsValue result.now }
    {
        &self.text
    }
}
