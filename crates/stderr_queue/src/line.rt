//! A line that waits.

ghost use Rattle.std.specs.Prelude.{◌≡◌, ◌≤◌, []};
ghost use Rattle.stderr_queue.specs.Shown.{appended, cut, shown_byte};

use std::fmt;
use std::fmt::{Display, Write};

/// How many bytes a line has at most.
const LONGEST: usize = 1024;

/// A line that waits to be written: what a value shows, its first 1,024 bytes at most, with a dot for each byte that
/// isn't printable ASCII, so that no text of a peer ends a line or moves a terminal's cursor. It is copied, and takes
/// no memory of its own.
#[derive(Clone, Copy, Drop)]
pub struct Line {
    bytes: [u8; 1024],
    length: usize,
    /// How many lines were dropped before it, since the queue was made.
    dropped: u64,
    ghost within: { length ≤ 1024 },
}

impl Line {
    ghost use Rattle.stderr_queue.specs.Line.{line_text};

    /// An empty one. Takes no memory.
    fn empty() -> Line
        ensures { line_text result ≡ [] }
    {
        Line {
            bytes: [0; 1024],
            length: 0,
            dropped: 0,
        }
    }

    /// The line that shows a value; `None` where the value can't be shown. Takes no memory.
    pub fn of<D: Display + Drop>(value: D) -> Option<Line> {
        let mut line = Line::empty();
        match line.write(value) {
            Ok(()) => Some(line),
            Err(_) => None,
        }
    }

    /// The same line, with how many were dropped before it.
    pub(crate) fn behind(self, dropped: u64) -> Line
        ensures { result ≡ record self { dropped = dropped } }
    {
        let Line { bytes, length, .. } = self;
        Line {
            bytes,
            length,
            dropped,
        }
    }

    /// Its bytes, without an end of line.
    pub fn as_bytes(&self) -> &[u8]
        ensures { result.now ≡ line_text self.now }
    {
        let (text, _) = self.bytes.as_slice().split_at(self.length);
        text
    }

    /// How many lines were dropped before it, since the queue was made.
    pub fn dropped(&self) -> u64
        ensures { result ≡ self.now.dropped }
    {
        self.dropped
    }

    /// Appends what is shown of a byte, where there is room.
    fn push(&mut self, byte: u8)
        ensures { line_text self.new ≡ appended (line_text self.old) (shown_byte byte) }
    {
        if self.length < LONGEST {
            self.bytes[self.length] = shown(byte);
            self.length += 1;
        }
    }
}

impl Write for Line {
    ghost use Rattle.stderr_queue.specs.Line.{line_text};

    ghost write_str_gives = { λ before text after. line_text after ≡ cut (line_text before) text };

    fn write_str(&mut self, text: &str) -> fmt::Result {
        for byte in text.as_bytes() {
            self.push(*byte);
        }
        Ok(())
    }
}

/// What is shown of a byte: itself, where it is printable ASCII, else a dot.
fn shown(byte: u8) -> u8
    ensures { result ≡ shown_byte byte }
{
    match byte {
        32..=126 => byte,
        _ => b'.',
    }
}
