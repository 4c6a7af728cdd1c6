//! The newest item that is looked for: at a place alone, or looked for from the end.

ghost use Rattle.std.specs.Prelude.{◌≡◌, None, Some, false, true, reverse, slice_get, MatchOption};
ghost use Rattle.std.specs.List.{find, position};
ghost use Rattle.undo_index.specs.Newest.{IsNewest, OnlyAt};

use crate::keyed::Sought;

/// Its place, where it stands at one place or nowhere.
pub(crate) fn only<T, Q: Sought<T>>(items: &[T], place: usize, query: &Q) -> Option<usize>
    requires { OnlyAt place (Q.sought query.now) items.now }
    ensures { MatchOption result
        (find (Q.sought query.now) (reverse items.now) ≡ None)
        (λ place. IsNewest (Q.sought query.now) items.now place) }
{
    if is_at(items, place, query) {
        Some(place)
    } else {
        None
    }
}

/// Whether it stands at a place.
fn is_at<T, Q: Sought<T>>(items: &[T], place: usize, query: &Q) -> bool
    ensures no { result ≡ false → (item : T) → slice_get items.now place ≡ Some item
        → Q.sought query.now item ≡ false }
    ensures yes { result ≡ true → (item : T) × (slice_get items.now place ≡ Some item)
        × (Q.sought query.now item ≡ true) }
{
    if place < items.len() {
        query.is(&items[place])
    } else {
        false
    }
}

/// Its place, looked for from the end.
pub(crate) fn newest<T, Q: Sought<T>>(items: &[T], query: &Q) -> Option<usize>
    ensures { MatchOption result
        (find (Q.sought query.now) (reverse items.now) ≡ None)
        (λ place. IsNewest (Q.sought query.now) items.now place) }
{
    match behind(items, query) {
        None => None,
        Some(behind) => Some(items.len() - 1 - behind),
    }
}

/// How many items are newer than it.
fn behind<T, Q: Sought<T>>(items: &[T], query: &Q) -> Option<usize>
    ensures { result ≡ position (Q.sought query.now) (reverse items.now) }
{
    items.iter().rev().position(|item| query.is(item))
}
