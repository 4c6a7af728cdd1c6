//! A line: one client or port with all that serves its links.

use gate_events::Recipient;
use link_io::LinkFault;

/// What a reader works with: its handle to the core and its clock.
#[derive(Drop)]
pub struct Worker<G, C> {
    pub gate: G,
    pub clock: C,
}

/// The links of one client or port, and what serves them.
#[derive(Drop)]
pub struct Line<O, A, B> {
    /// Whose links they are.
    pub peer: Recipient,
    /// How many steps a reader or writer makes of one link at most; 0 counts as 1.
    pub steps: u64,
    /// The line's first fault: of a link that couldn't be opened, or of one that ended by it. `None` at first.
    pub fault: Option<LinkFault>,
    /// Opens the links.
    pub opener: O,
    /// What reads its links.
    pub reader: A,
    /// What writes its links.
    pub writer: B,
}
