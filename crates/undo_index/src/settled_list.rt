//! The lists whose items are led to.

use crate::list::UndoList;

/// A list that can be put back to how it was settled.
pub trait SettledList<T> {
    ghost use Rattle.std.specs.Prelude.{◌≡◌, true};
    ghost use Rattle.undo_index.specs.Undoing.{IsWithin, Undoable};

    ghost lists: { Self → Undoable T };

    /// The items, the oldest first.
    fn items(&self) -> &[T]
        ensures { result.now ≡ (lists self.now).now };

    /// Whether nothing was changed but at the end since it was settled: what stood there then stands there now.
    fn is_unchanged(&self) -> bool
        ensures { result ≡ true → IsWithin (lists self.now).settled (lists self.now).now };
}

impl<T: Drop> SettledList<T> for UndoList<T> {
    ghost lists = { λ l. l };

    fn items(&self) -> &[T] {
        self.as_slice()
    }

    fn is_unchanged(&self) -> bool {
        self.is_still()
    }
}
