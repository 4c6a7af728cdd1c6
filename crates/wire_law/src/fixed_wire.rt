//! Messages of a fixed number of bytes.
//!
//! Both directions are pinned: reading what was written gives the value back (`again`, `one_value`), writing what
//! was read gives the bytes back (`same`), and a reader gives up exactly where no value is written so (`spelled`).

ghost use Rattle.std.specs.Prelude.{◌≡◌, ◌↔◌, ℕ, List, length, IsSome, IfSome};

/// A message that takes `LEN` bytes on the wire, whatever it holds.
pub trait FixedWire: Sized {
    /// How many bytes each value takes.
    const LEN: usize;

    ghost LEN: { ℕ };

    /// The bytes that a value is written as.
    ghost bytes: { Self → List ℕ };

    /// Whether some value is written as these bytes.
    ghost is_spelled: { List ℕ → Type 0 };

    /// Writes the value over `out`, which has just `LEN` bytes. Takes no memory.
    fn put(&self, out: &mut [u8])
        requires { length out.old ≡ LEN }
        ensures { out.new ≡ bytes self.now };

    /// The value that is written as these bytes, all of them, or `None` where no value is. Takes no memory.
    fn get(b: &[u8]) -> Option<Self>
        ensures spelled { IsSome result ↔ is_spelled b.now }
        ensures same { IfSome result (λ value. bytes value ≡ b.now) };

    /// Each value takes `LEN` bytes.
    ghost fixed: { (value : Self) → length (bytes value) ≡ LEN };

    /// What a value is written as is spelled.
    ghost again: { (value : Self) → is_spelled (bytes value) };

    /// No two values are written as the same bytes.
    ghost one_value: { (value other : Self) → bytes value ≡ bytes other → value ≡ other };
}
