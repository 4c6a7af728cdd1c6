//! Records written.

ghost use Rattle.std.specs.Prelude.{◌≡◌, ◌+◌, ◌<◌, ◌≤◌, ◌^◌, ◌++◌, List, ℕ, length, vec_len, vec_capacity};
ghost use Rattle.std.specs.Prelude.{OnOk, OnErr};
ghost use Rattle.journal_pages.specs.Record.{payload_limit, record_bytes};

use crate::kind::RecordKind;
use std::alloc::{AllocError, Global};

/// What stands in front of a record's payload, but for the payload's length. `source` is the number of a client or a
/// port, 0 in the end of a batch; `link` is 0 in what isn't of a link; `at` is a moment in milliseconds since 1970.
#[derive(Clone, Copy)]
pub struct RecordHead {
    pub kind: RecordKind,
    pub source: u16,
    pub link: u64,
    pub at: u64,
}

impl RecordHead {
    ghost use Rattle.journal_pages.specs.Seen.{record_of};

    /// Appends the record of this head and a payload in two pieces, one behind the other. `AllocError` leaves `out` as
    /// it was. One growth at most.
    pub fn append(&self, out: &mut Vec<u8>, front: &[u8], back: &[u8]) -> Result<(), AllocError>
        requires { length front.now + length back.now < payload_limit }
        ensures ok { OnOk result (out.new.items
            ≡ out.old.items ++ record_bytes (record_of self.now (front.now ++ back.now))) }
        ensures err { OnErr result (out.new.items ≡ out.old.items) }
    {
        let size = front.len() + back.len();
        let head = self.bytes(size as u32);
        append_pieces(out, &head, front, back)?;
        Ok(())
    }

    /// What stands before a payload of this size.
    fn bytes(&self, size: u32) -> [u8; 23]
        ensures { (payload : List ℕ) → length payload ≡ size
            → result ++ payload ≡ record_bytes (record_of self.now payload) }
    {
        let kind = self.kind.number();
        let source = self.source.to_be_bytes();
        let link = self.link.to_be_bytes();
        let at = self.at.to_be_bytes();
        let length = size.to_be_bytes();
        [
            kind, source[0], source[1], link[0], link[1], link[2], link[3], link[4], link[5],
            link[6], link[7], at[0], at[1], at[2], at[3], at[4], at[5], at[6], at[7], length[0],
            length[1], length[2], length[3],
        ]
    }
}

/// Appends three pieces: all of them, or nothing where memory runs out. One growth at most.
#[inline(always)]
fn append_pieces(
    out: &mut Vec<u8>,
    head: &[u8],
    front: &[u8],
    back: &[u8],
) -> Result<(), AllocError>
    requires { length head.now + length front.now + length back.now < 2 ^ 64 }
    ensures ok { OnOk result (out.new.items ≡ out.old.items ++ (head.now ++ (front.now ++ back.now))) }
    ensures err { OnErr result (out.new.items ≡ out.old.items) }
{
    out.reserve(head.len() + front.len() + back.len())?;
    put_piece(out, head);
    put_piece(out, front);
    put_piece(out, back);
    Ok(())
}

/// Appends a piece for which there is room. Most records have one piece or none behind their head: what is empty isn't
/// copied.
#[inline(always)]
fn put_piece(out: &mut Vec<u8>, piece: &[u8])
    requires room { vec_len out.old + length piece.now ≤ vec_capacity out.old }
    ensures items { out.new.items ≡ out.old.items ++ piece.now }
    ensures len { vec_len out.new ≡ vec_len out.old + length piece.now }
    ensures capacity { vec_capacity out.old ≤ vec_capacity out.new }
{
    if !piece.is_empty() {
        let _ = out.extend_from_slice(piece);
    }
}
