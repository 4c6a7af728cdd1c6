//! A number as a client wrote it.

ghost use Rattle.std.specs.Prelude.{◌≡◌, true, IfOk};
ghost use Rattle.fix_fields.specs.Field.{IsValue};
ghost use Rattle.fix_values.specs.Texts.{is_float};

use fix_fields::Text;
use std::alloc::{AllocError, Global};
use std::marker::Model;

/// The value of a field of type float as it was written: `0023.4500` stays that. Contracts see the list of its bytes.
///
/// Source: FIX 4.4 Volume 1, data type float.
#[derive(Debug, Drop)]
pub struct FloatText {
    text: Text,
}

impl Model for FloatText {
    ghost use Rattle.std.specs.Prelude.{◌≡◌, ℕ, List, true};
    ghost use Rattle.fix_values.specs.Texts.{is_float};

    ghost Value = { List ℕ };

    ghost view = { λ f. f.text };

    ghost invariant = { λ f. is_float f.text ≡ true };
}

impl FloatText {
    /// A copy of these bytes. One growth at most.
    pub fn copied(alloc: Global, bytes: &[u8]) -> Result<FloatText, AllocError>
        requires float { is_float bytes.now ≡ true }
        requires value { IsValue bytes.now }
        ensures { IfOk result (λ f. f ≡ bytes.now) }
    {
        Ok(FloatText {
            text: Text::copied(alloc, bytes)?,
        })
    }

    /// Its bytes.
    pub fn as_slice(&self) -> &[u8]
        ensures bytes { result.now ≡ self.now }
        ensures float { is_float result.now ≡ true }
        ensures value { IsValue result.now }
    {
        self.text.as_slice()
    }
}
