//! The streams that links are read from and written to, and what their calls answered.

use std::io::{self, Read, Write};

/// A stream to read from, and what its reads answered. Every `Read` is one.
///
/// `Read` has no word for a read that failed. Contracts say it by `did_read`, which only a call gives: an engine is
/// proved for any `Source`, so it can't report a read that wasn't made, nor another answer.
pub trait Source: Read {
    ghost use Rattle.std.specs.Prelude.{ℕ, Option, Some, None, IfOk, OnErr};
    ghost use Rattle.std.specs.Io.{ReadsAtMost};
    ghost use Rattle.std.specs.Io.KnownBytes.{ReadConsumes};

    // A read of the first gave this many bytes, or failed if there is no number, and left the second.
    ghost did_read: { Self → Option ℕ → Self → Type 0 };

    /// Reads once: what `read` does.
    fn read_once(&mut self, buf: &mut [u8]) -> io::Result<usize>
        ensures bound { ReadsAtMost result buf.new }
        ensures bytes { ReadConsumes (Self.remaining self.old) (Self.remaining self.new) result buf.new }
        ensures gave { IfOk result (λ count. did_read self.old (Some count) self.new) }
        ensures failed { OnErr result (did_read self.old None self.new) };
}

impl<R: Read> Source for R {
    ghost did_read = { λ _ _ _. Unit {0} };

    fn read_once(&mut self, buf: &mut [u8]) -> io::Result<usize> {
        self.read(buf)
    }
}

/// A stream to write to, and what its writes answered, by `did_write`. Every `Write` is one.
pub trait Sink: Write {
    ghost use Rattle.std.specs.Prelude.{ℕ, List, Option, Some, None, IfOk, OnErr};
    ghost use Rattle.std.specs.Io.{WritesAtMost};
    ghost use Rattle.std.specs.Io.KnownBytes.{WriteAppends};

    // A write of these bytes to the first took this many, or failed if there is no number, and left the second.
    ghost did_write: { Self → List ℕ → Option ℕ → Self → Type 0 };

    /// Writes once: what `write` does.
    fn write_once(&mut self, buf: &[u8]) -> io::Result<usize>
        ensures bound { WritesAtMost result buf.now }
        ensures bytes { WriteAppends (Self.contents self.old) (Self.contents self.new) result buf.now }
        ensures took { IfOk result (λ count. did_write self.old buf.now (Some count) self.new) }
        ensures failed { OnErr result (did_write self.old buf.now None self.new) };
}

impl<W: Write> Sink for W {
    ghost did_write = { λ _ _ _ _. Unit {0} };

    fn write_once(&mut self, buf: &[u8]) -> io::Result<usize> {
        self.write(buf)
    }
}

/// A stream that can also be written promptly, by writes that don't wait for a peer that doesn't read. What such a
/// write answered contracts say by `did_try`.
pub trait Prompt: Write {
    ghost use Rattle.std.specs.Prelude.{ℕ, List, Option, Some, None, IfOk, OnErr};
    ghost use Rattle.std.specs.Io.{WritesAtMost};
    ghost use Rattle.std.specs.Io.KnownBytes.{WriteAppends};

    // A prompt write of these bytes to the first took this many, or failed if there is no number, and left the
    // second.
    ghost did_try: { Self → List ℕ → Option ℕ → Self → Type 0 };

    /// Writes once, as `write` does, and returns soon: it fails if the peer takes nothing for a moment. After a failure
    /// the stream is as before: `write` meets the failure again if it lasts.
    fn write_promptly(&mut self, buf: &[u8]) -> io::Result<usize>
        ensures bound { WritesAtMost result buf.now }
        ensures bytes { WriteAppends (Self.contents self.old) (Self.contents self.new) result buf.now }
        ensures took { IfOk result (λ count. did_try self.old buf.now (Some count) self.new) }
        ensures failed { OnErr result (did_try self.old buf.now None self.new) };
}
