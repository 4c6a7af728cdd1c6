//! The bytes of a stream that were read and not taken.

ghost use Rattle.std.specs.Prelude.{◌≡◌, ◌≤◌, ◌<◌, ◌+◌, ◌++◌, [], ℕ, List, drop, length, take, IfErr, IfOk};
ghost use Rattle.std.specs.Prelude.{MatchResult, OnErr};
ghost use Rattle.std.specs.Prelude.{vec_len};
ghost use Rattle.std.specs.Io.{ReadsAtMost};
ghost use Rattle.std.specs.Io.KnownBytes.{Consumes, IsAtEnd, Keeps};
ghost use Rattle.journal_file.specs.Window.{Bytes, HasGrown, IsEnded, Puts, nothing_read};

use crate::read_fault::ReadFault;
use journal_pages::Noted;
use std::alloc::Global;
use std::io::{Error, ErrorKind, Read};
use std::marker::Model;

/// So many bytes are read at once, at most.
const PIECE: usize = 65_536;

/// How often the reader is asked at most where it gives nothing.
const MOST_READS: u32 = 1_000_000_000;

/// Bytes of a stream: those that were read and not taken. Contracts see all that were read, too.
#[derive(Drop)]
pub(crate) struct Window {
    bytes: Vec<u8>,
    /// Where in `bytes` those that weren't taken begin.
    begin: usize,
    read: Noted,
}

impl Model for Window {
    ghost use Rattle.std.specs.Prelude.{◌≤◌, drop, length};
    ghost use Rattle.journal_file.specs.Window.{Bytes};

    ghost Value = { Bytes };

    ghost view = { λ w. record { read = w.read.bytes; left = drop w.begin w.bytes.items } };

    ghost invariant = { λ w. w.begin ≤ length w.bytes.items };
}

impl Window {
    /// Nothing of a stream. Takes no memory.
    pub(crate) fn new(alloc: Global) -> Window
        ensures { result ≡ nothing_read }
    {
        Window {
            bytes: Vec::new(alloc),
            begin: 0,
            read: Noted::new(),
        }
    }

    /// The bytes that were read and not taken.
    pub(crate) fn left(&self) -> &[u8]
        ensures { result.now ≡ self.now.left }
    {
        let (_, left) = self.bytes.as_slice().split_at(self.begin);
        left
    }

    /// All that were read, as noted bytes. Takes no memory.
    pub(crate) fn into_noted(self) -> Noted
        ensures { result.bytes ≡ self.read }
    {
        self.read
    }

    /// Takes so many of them. Takes no memory.
    pub(crate) fn pass(&mut self, count: usize)
        requires { count ≤ length self.old.left }
        ensures read { self.new.read ≡ self.old.read }
        ensures left { self.new.left ≡ drop count self.old.left }
    {
        self.begin += count;
    }

    /// Reads once, and says whether there is more: false at the stream's end. What was taken leaves memory first.
    ///
    /// `NoMemory` and `Read` leave all as it was.
    pub(crate) fn read<R: Read>(&mut self, input: &mut R) -> Result<bool, ReadFault>
        ensures { MatchResult result
            (λ more. HasGrown (R.remaining input.old) (R.remaining input.new) self.old self.new more)
            (λ fault. (self.new ≡ self.old) × Keeps (R.remaining input.old) (R.remaining input.new)
            × IsEnded fault) }
    {
        drop_front(&mut self.bytes, self.begin);
        self.begin = 0;
        let size = self.bytes.len();
        let count = read_behind(&mut self.bytes, input)?;
        let (_, piece) = self.bytes.as_slice().split_at(size);
        self.read.note(piece);
        Ok(count > 0)
    }
}

/// Drops the first bytes. Takes no memory.
fn drop_front(bytes: &mut Vec<u8>, count: usize)
    requires { count ≤ vec_len bytes.old }
    ensures { bytes.new.items ≡ drop count bytes.old.items }
{
    if count == 0 {
        return;
    }
    let left = bytes.len() - count;
    bytes.copy_within(count.., 0);
    bytes.truncate(left);
}

/// Reads once behind these bytes, and says how many came.
fn read_behind<R: Read>(bytes: &mut Vec<u8>, input: &mut R) -> Result<usize, ReadFault>
    ensures { MatchResult result
        (λ count. Puts (R.remaining input.old) (R.remaining input.new) bytes.old.items bytes.new.items count)
        (λ fault. (bytes.new.items ≡ bytes.old.items) × Keeps (R.remaining input.old) (R.remaining input.new)
        × IsEnded fault) }
{
    let size = bytes.len();
    if bytes.resize(size + PIECE, 0).is_err() {
        return Err(ReadFault::NoMemory);
    }
    match read_at(bytes.as_mut_slice(), size, input) {
        Ok(count) => {
            bytes.truncate(size + count);
            Ok(count)
        }
        Err(error) => {
            bytes.truncate(size);
            Err(ReadFault::Read(error))
        }
    }
}

/// Reads once into the bytes from a place on.
fn read_at<R: Read>(bytes: &mut [u8], at: usize, input: &mut R) -> Result<usize, Error>
    requires { at < length bytes.old }
    ensures front { take at bytes.new ≡ take at bytes.old }
    ensures fits { IfOk result (λ n. at + n ≤ length bytes.new) }
    ensures ok { IfOk result (λ n. Consumes (R.remaining input.old) (R.remaining input.new)
        (take n (drop at bytes.new))) }
    ensures end { IfOk result (λ n. n ≡ 0 → IsAtEnd (R.remaining input.new)) }
    ensures err { OnErr result (Keeps (R.remaining input.old) (R.remaining input.new)) }
{
    read_again(&mut bytes[at..], input)
}

/// Reads once; again where a signal interrupted it.
fn read_again<R: Read>(room: &mut [u8], input: &mut R) -> Result<usize, Error>
    ensures bound { ReadsAtMost result room.new }
    ensures ok { IfOk result (λ n. Consumes (R.remaining input.old) (R.remaining input.new) (take n room.new)) }
    ensures end { IfOk result (λ n. n ≡ 0 → 0 < length room.old → IsAtEnd (R.remaining input.new)) }
    ensures err { OnErr result (Keeps (R.remaining input.old) (R.remaining input.new)) }
{
    for _ in 0..MOST_READS {
        match input.read(room) {
            Ok(count) => return Ok(count),
            Err(error) if error.kind() == ErrorKind::Interrupted => {}
            Err(error) => return Err(error),
        }
    }
    Err(Error::from(ErrorKind::Interrupted))
}
