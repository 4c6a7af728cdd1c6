//! Messages whose bytes come whole: as many as the value takes.
//!
//! The laws are those of `FixedWire`, for values of different lengths that hold memory of their own.

ghost use Rattle.std.specs.Prelude.{◌≡◌, ◌↔◌, ◌++◌, ℕ, List, IsSome, IfSome, IfOk, OnOk, OnErr};

use std::alloc::{AllocError, Global};

/// A message of as many bytes as its value takes. What holds it says where it ends.
pub trait WholeWire: Sized {
    /// The bytes that a value is written as.
    ghost bytes: { Self → List ℕ };

    /// Whether some value is written as these bytes.
    ghost is_spelled: { List ℕ → Type 0 };

    /// Appends the value's bytes to `out`. `AllocError` leaves `out` as it was.
    fn put(&self, out: &mut Vec<u8>) -> Result<(), AllocError>
        ensures ok { OnOk result (out.new.items ≡ out.old.items ++ bytes self.now) }
        ensures err { OnErr result (out.new.items ≡ out.old.items) };

    /// The value that is written as these bytes, all of them, or `None` where no value is.
    fn get(alloc: Global, b: &[u8]) -> Result<Option<Self>, AllocError>
        ensures spelled { IfOk result (λ read. IsSome read ↔ is_spelled b.now) }
        ensures same { IfOk result (λ read. IfSome read (λ value. bytes value ≡ b.now)) };

    /// What a value is written as is spelled.
    ghost again: { (value : Self) → is_spelled (bytes value) };

    /// No two values are written as the same bytes.
    ghost one_value: { (value other : Self) → bytes value ≡ bytes other → value ≡ other };
}
