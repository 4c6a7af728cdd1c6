//! The bytes of one read.

ghost use Rattle.std.specs.Prelude.{◌≡◌, [], length};
ghost use Rattle.link_io.specs.Reading.{Fills};
ghost use Rattle.link_io.specs.Answered.{FillsBy};

use crate::link_fault::LinkFault;
use crate::streams::Source;
use std::marker::Model;

/// The most bytes of one read.
const MOST_BYTES: usize = 4_096;

/// The bytes of one read, until the decoder has taken them. Contracts see these.
#[derive(Drop)]
pub struct Piece {
    bytes: [u8; MOST_BYTES],
    length: usize,
}

impl Model for Piece {
    ghost use Rattle.std.specs.Prelude.{List, ℕ, ◌≤◌, take};

    ghost Value = { List ℕ };

    ghost view = { λ p. take p.length p.bytes };

    ghost invariant = { λ p. p.length ≤ 4_096 };
}

impl Piece {
    /// No bytes.
    pub(crate) fn new() -> Piece
        ensures { result ≡ [] }
    {
        Piece {
            bytes: [0; MOST_BYTES],
            length: 0,
        }
    }

    /// Reads once, and gives how many bytes came: 0 at the stream's end.
    pub(crate) fn fill<R: Source>(&mut self, stream: &mut R) -> Result<usize, LinkFault>
        ensures fills { Fills result self.new (R.remaining stream.old) (R.remaining stream.new) }
        ensures answered { FillsBy R.did_read result stream.old stream.new }
    {
        self.length = 0;
        match stream.read_once(&mut self.bytes) {
            Ok(count) => {
                self.length = count;
                Ok(count)
            }
            Err(_) => Err(LinkFault::ReadFailed),
        }
    }

    /// The bytes.
    pub(crate) fn as_slice(&self) -> &[u8]
        ensures { result.now ≡ self.now }
    {
        let (read, _) = self.bytes.split_at(self.length);
        read
    }

    /// Drops the bytes.
    pub(crate) fn clear(&mut self)
        ensures { self.new ≡ [] }
    {
        self.length = 0;
    }
}
