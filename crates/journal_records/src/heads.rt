//! The head of a record, by its parts.

ghost use Rattle.std.specs.Prelude.{◌≡◌};

use journal_pages::{RecordHead, RecordKind};

/// The head of these parts.
pub fn head(kind: RecordKind, source: u16, link: u64, at: u64) -> RecordHead
    ensures { result ≡ record { kind = kind; source = source; link = link; at = at } }
{
    RecordHead {
        kind,
        source,
        link,
        at,
    }
}
