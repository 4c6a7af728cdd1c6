//! A piece of a stream.

ghost use Rattle.std.specs.Prelude.{◌≡◌, ◌<◌, MatchOption, length, slice_index, take};
ghost use Rattle.wire_streams.specs.Pieces.{HasNoNewline};

use crate::stream_fault::StreamFault;
use std::alloc::AllocError;
use std::io::{ErrorKind, Read};
use std::marker::Model;

/// How many bytes are read at once at most.
const SIZE: usize = 4_096;

/// What was read of a stream at once and isn't given yet. Contracts see its bytes.
#[derive(Drop)]
pub struct Piece {
    bytes: [u8; SIZE],
    /// Where in `bytes` what isn't given yet begins.
    begin: usize,
    /// Where it ends.
    end: usize,
}

impl Model for Piece {
    ghost use Rattle.std.specs.Prelude.{ℕ, List, slice_range, ◌≤◌};

    ghost Value = { List ℕ };

    ghost view = { λ p. slice_range p.bytes p.begin p.end };

    ghost invariant = { λ p. (p.begin ≤ p.end) × (p.end ≤ 4_096) };
}

impl Piece {
    ghost use Rattle.std.specs.Prelude.{◌≡◌, [], IfOk};
    ghost use Rattle.wire_streams.specs.Pieces.{TakesLine, ReadsPiece};

    /// A piece of which nothing is left.
    pub fn new() -> Piece
        ensures { result ≡ [] }
    {
        Piece {
            bytes: [0; SIZE],
            begin: 0,
            end: 0,
        }
    }

    /// Adds the bytes before the next newline, and says whether there is one: it is passed over. Otherwise adds all
    /// that is left.
    pub fn take_line(&mut self, line: &mut Vec<u8>) -> Result<bool, AllocError>
        ensures { IfOk result (TakesLine self.old line.old.items self.new line.new.items) }
    {
        let rest = &self.bytes[self.begin..self.end];
        match newline(rest) {
            Some(size) => {
                line.extend_from_slice(&rest[..size])?;
                self.begin += size + 1;
                Ok(true)
            }
            None => {
                line.extend_from_slice(rest)?;
                self.begin = self.end;
                Ok(false)
            }
        }
    }

    /// Reads once, where nothing is left, and says whether more may come. A read that was interrupted gives nothing.
    ///
    /// `Stream` where the read fails.
    pub fn read<R: Read>(&mut self, input: &mut R) -> Result<bool, StreamFault>
        requires { self.old ≡ [] }
        ensures { IfOk result (ReadsPiece (R.remaining input.old) (R.remaining input.new) self.new) }
    {
        self.begin = 0;
        self.end = 0;
        match input.read(&mut self.bytes) {
            Ok(0) => Ok(false),
            Ok(size) => {
                self.end = size;
                Ok(true)
            }
            Err(error) if error.kind() == ErrorKind::Interrupted => Ok(true),
            Err(_) => Err(StreamFault::Stream),
        }
    }
}

/// Where the first newline stands.
fn newline(bytes: &[u8]) -> Option<usize>
    ensures { MatchOption result (HasNoNewline bytes.now)
        (λ size. (size < length bytes.now) × (slice_index bytes.now size ≡ 10) × HasNoNewline (take size bytes.now)) }
{
    bytes.iter().position(|byte| *byte == b'\n')
}
