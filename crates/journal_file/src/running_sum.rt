//! The sum of bytes that come piece by piece.

ghost use Rattle.std.specs.Prelude.{◌≡◌, ◌≤◌, ◌<◌, ◌+◌, ◌%◌, ◌^◌, ◌++◌, [], length, take, OnOk};
ghost use Rattle.journal_file.specs.Sum.{sum_of};

use crate::sized_bytes::TooManyBytes;
use crate::sum::{BASIS, first_word, last_word, mixed};
use journal_pages::Noted;
use std::cmp::min;
use std::marker::Model;

/// The sum and the size of a page whose bytes come piece by piece. Contracts see the bytes so far; in memory are no
/// more of them than a word.
#[derive(Drop)]
pub struct RunningSum {
    noted: Noted,
    /// The sum of all whole words.
    sum: u64,
    /// In front the bytes behind the last whole word.
    word: [u8; 8],
    size: u64,
}

impl Model for RunningSum {
    ghost use Rattle.std.specs.Prelude.{ℕ, List};
    ghost use Rattle.journal_file.specs.Sum.{IsRunning};

    ghost Value = { List ℕ };

    ghost view = { λ s. s.noted.bytes };

    ghost invariant = { λ s. IsRunning s.noted.bytes s.sum s.word s.size };
}

impl RunningSum {
    /// Of no bytes. Takes no memory.
    pub fn new() -> RunningSum
        ensures { result ≡ [] }
    {
        RunningSum {
            noted: Noted::new(),
            sum: BASIS,
            word: [0; 8],
            size: 0,
        }
    }

    /// Of these bytes more. Takes no memory.
    pub fn add(&mut self, bytes: &[u8]) -> Result<(), TooManyBytes>
        ensures { OnOk result (self.new ≡ self.old ++ bytes.now) }
    {
        if self.size.checked_add(bytes.len() as u64).is_none() {
            return Err(TooManyBytes);
        }
        let mut rest = bytes;
        while !rest.is_empty() {
            let room = 8 - (self.size % 8) as usize;
            let (piece, behind) = rest.split_at(min(room, rest.len()));
            self.fill(piece);
            rest = behind;
        }
        Ok(())
    }

    /// Of these bytes more, which fill the last word at most.
    fn fill(&mut self, piece: &[u8])
        requires some { 1 ≤ length piece.now }
        requires room { length self.old % 8 + length piece.now ≤ 8 }
        requires few { length self.old + length piece.now < 2 ^ 64 }
        ensures { self.new ≡ self.old ++ piece.now }
    {
        let start = (self.size % 8) as usize;
        put(&mut self.word, start, piece);
        self.size += piece.len() as u64;
        self.noted.note(piece);
        if self.size % 8 == 0 {
            self.sum = mixed(self.sum, first_word(&self.word));
        }
    }

    /// How many bytes there are. Takes no memory.
    pub fn size(&self) -> u64
        ensures { result ≡ length self.now }
    {
        self.size
    }

    /// Their sum. Takes no memory.
    pub fn sum(&self) -> u64
        ensures { result ≡ sum_of self.now }
    {
        let count = (self.size % 8) as usize;
        if count == 0 {
            return self.sum;
        }
        mixed(self.sum, last_word(&self.word[..count]))
    }
}

/// Writes bytes at a place of a word.
fn put(word: &mut [u8], at: usize, bytes: &[u8])
    requires { at + length bytes.now ≤ length word.old }
    ensures written { take (at + length bytes.now) word.new ≡ take at word.old ++ bytes.now }
    ensures length { length word.new ≡ length word.old }
{
    word[at..at + bytes.len()].copy_from_slice(bytes);
}
