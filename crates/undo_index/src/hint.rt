//! What an index says of a key.

/// A place where an item with a key may stand.
#[derive(Clone, Copy)]
pub struct Hint {
    pub place: usize,
    /// It stands nowhere else.
    pub is_only: bool,
}
