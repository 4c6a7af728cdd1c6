//! Messages written as a text of another type.

ghost use Rattle.std.specs.Prelude.{◌≡◌, IfOk, OnOk, MatchResult};

use std::alloc::{AllocError, Global};

/// A message written as a text: `B` is the text (a list of fields, say), and `E` what a reader refuses with.
///
/// What is written is read back as itself. The other way is not promised: many texts may say the same message, as a
/// reader may pass over what it doesn't name.
pub trait TextWire<B, E>: Sized {
    /// The text that a value is written as.
    ghost text: { Self → B };

    /// What each value keeps, in the words of its contracts: the sets of its fields.
    ghost is_value: { Self → Type 0 };

    /// Which refusal says that memory ran out.
    ghost is_no_memory: { E → Type 0 };

    /// Writes the value as its text.
    fn put(&self, alloc: Global) -> Result<B, AllocError>
        ensures written { IfOk result (λ b. b ≡ text self.now) }
        ensures kept { OnOk result (is_value self.now) };

    /// Reads a text. That of a value is read as this value, unless memory runs out.
    fn get(alloc: Global, b: &B) -> Result<Self, E>
        ensures read { (value : Self) → is_value value → b.now ≡ text value
            → MatchResult result (λ read. read ≡ value) is_no_memory }
        ensures kept { IfOk result is_value };
}
