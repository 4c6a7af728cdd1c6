//! The lines of a stream.

ghost use Rattle.std.specs.Prelude.{◌≡◌, ℕ, List, [], Option, Some, option_map, false, IfOk};
ghost use Rattle.wire_streams.specs.Unread.{GivesLine, lines_left, lines_of};
ghost use Rattle.wire_streams.specs.Pieces.{ReadsPiece};

use crate::piece::Piece;
use crate::stream_fault::StreamFault;
use std::alloc::Global;
use std::io::Read;

/// How often the reader is asked at most.
const MOST_READS: u32 = 1_000_000_000;

/// The lines of a stream, which is read a piece at a time.
#[derive(Drop)]
pub struct Lines {
    /// What was read and isn't given yet.
    piece: Piece,
    /// How often the reader may still be asked.
    reads_left: u32,
    /// Whether the stream is at its end, and its last line was given.
    is_over: bool,
}

impl Lines {
    /// The lines of a stream of which nothing was read.
    pub fn new() -> Lines
        ensures { (known : Option (List ℕ)) → lines_left result known ≡ option_map lines_of known }
    {
        Lines {
            piece: Piece::new(),
            reads_left: MOST_READS,
            is_over: false,
        }
    }

    /// The next line, without its newline; `None` behind the last, which needs no newline.
    ///
    /// `Stream` where a read fails, and where the stream isn't at its end after 1,000,000,000 reads. A read that was
    /// interrupted is made again.
    pub fn next<R: Read>(
        &mut self,
        alloc: Global,
        input: &mut R,
    ) -> Result<Option<Vec<u8>>, StreamFault>
        ensures { IfOk result (λ given. GivesLine (lines_left self.old (R.remaining input.old))
            (lines_left self.new (R.remaining input.new)) (option_map (λ line. line.items) given)) }
    {
        if self.is_over {
            return Ok(None);
        }
        let line = self.line(alloc, input)?;
        Ok(Some(line))
    }

    /// The next line, where the last wasn't given yet.
    fn line<R: Read>(&mut self, alloc: Global, input: &mut R) -> Result<Vec<u8>, StreamFault>
        requires { self.old.is_over ≡ false }
        ensures { IfOk result (λ line. GivesLine (lines_left self.old (R.remaining input.old))
            (lines_left self.new (R.remaining input.new)) (Some line.items)) }
    {
        let mut line = Vec::new(alloc);
        for _ in 0..MOST_READS {
            if self.piece.take_line(&mut line)? {
                return Ok(line);
            }
            if !self.read(input)? {
                self.is_over = true;
                return Ok(line);
            }
        }
        Err(StreamFault::Stream)
    }

    /// Reads the next piece, where all of the last was given, and says whether there is more to come.
    fn read<R: Read>(&mut self, input: &mut R) -> Result<bool, StreamFault>
        requires { self.old.piece ≡ [] }
        ensures piece { IfOk result (ReadsPiece (R.remaining input.old) (R.remaining input.new) self.new.piece) }
        ensures end { self.new.is_over ≡ self.old.is_over }
    {
        if self.reads_left == 0 {
            return Err(StreamFault::Stream);
        }
        self.reads_left -= 1;
        self.piece.read(input)
    }
}
