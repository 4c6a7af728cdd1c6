//! What has keys, and what is looked for.

use std::hash::Hash;

/// What has keys of a kind.
pub trait Keyed<K: Eq + Hash> {
    ghost use Rattle.std.specs.Prelude.{◌≡◌, Bool, IsTrue};

    ghost has: { K → Self → Bool };

    /// Whether it has a key.
    fn has_key(&self, key: &K) -> bool
        ensures { result ≡ has key.now self.now };

    // Equal keys are had alike.
    ghost respects_eq: { (x y : K) (item : Self) → IsTrue (K.eq x y) → has x item ≡ has y item };
}

/// What is looked for among items.
pub trait Sought<T> {
    ghost use Rattle.std.specs.Prelude.{◌≡◌, Bool};

    ghost sought: { Self → T → Bool };

    /// Whether an item is what is looked for.
    fn is(&self, item: &T) -> bool
        ensures { result ≡ sought self.now item.now };
}
