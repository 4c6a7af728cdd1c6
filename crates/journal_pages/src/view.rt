//! One record, read where it lies.

ghost use Rattle.std.specs.Prelude.{◌≡◌, true};
ghost use Rattle.journal_pages.specs.Record.{is_sound};

use crate::kind::RecordKind;

/// A record that has what its kind has; its payload is lent by the page. `source` is the number of a client or a port,
/// `at` a moment in milliseconds since 1970.
#[derive(Clone, Copy)]
pub struct RecordView<'a> {
    pub kind: RecordKind,
    pub source: u16,
    pub link: u64,
    pub at: u64,
    pub payload: &'a [u8],
    pub ghost sound: { is_sound (record { kind = kind; source = source; link = link; at = at; payload = payload.now })
        ≡ true },
}
