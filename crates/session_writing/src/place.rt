//! Where a kept body stands in the text of all kept bodies.

use session_law::Kind;

/// What a number was given to.
#[derive(Clone, Copy)]
pub enum KeptPlace {
    /// A frame that is gap filled where it is asked for again.
    Filled,
    /// A body that is kept: its type, from where to where it stands in the text, and the moment at which it was first
    /// sent, or issued, in milliseconds since 1970.
    Body {
        kind: Kind,
        start: usize,
        end: usize,
        at: u64,
    },
}
