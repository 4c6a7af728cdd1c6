//! The bytes of pages in a file, as contracts see them.

ghost use Rattle.std.specs.Prelude.{◌≡◌, ◌++◌, [], ℕ, List, length, OnErr, OnOk, true};
ghost use Rattle.journal_file.specs.File.{sized_page};
ghost use Rattle.journal_pages.specs.declared.version.Version.TheVariants.{Two};

use crate::sum::sum_of;
use journal_pages::Noted;
use std::marker::Model;

/// The bytes of pages as a file has them, each behind its length and its sum: contracts see them; in memory is how many
/// there are.
#[derive(Drop)]
pub struct SizedBytes {
    noted: Noted,
    size: u64,
}

/// There are more than 2^64 - 1 bytes.
#[derive(Clone, Copy, Debug, PartialEq, Eq, Drop)]
pub struct TooManyBytes;

impl Model for SizedBytes {
    ghost use Rattle.std.specs.Prelude.{◌≡◌, ℕ, List, length};

    ghost Value = { List ℕ };

    ghost view = { λ s. s.noted.bytes };

    ghost invariant = { λ s. s.size ≡ length s.noted.bytes };
}

impl SizedBytes {
    /// Of no pages. Takes no memory.
    pub fn new() -> SizedBytes
        ensures { result ≡ [] }
    {
        SizedBytes {
            noted: Noted::new(),
            size: 0,
        }
    }

    /// Those of a page more. Takes no memory.
    pub fn push(&mut self, page: &[u8]) -> Result<(), TooManyBytes>
        ensures { OnOk result (self.new ≡ self.old ++ sized_page Two page.now) }
    {
        let Some(size) = self.size.checked_add(16) else {
            return Err(TooManyBytes);
        };
        let Some(size) = size.checked_add(page.len() as u64) else {
            return Err(TooManyBytes);
        };
        self.size = size;
        self.noted.note(&(page.len() as u64).to_be_bytes());
        self.noted.note(&sum_of(page).to_be_bytes());
        self.noted.note(page);
        Ok(())
    }

    /// How many there are. Takes no memory.
    pub fn size(&self) -> u64
        ensures { result ≡ length self.now }
    {
        self.size
    }

    /// The same, as noted bytes. Takes no memory.
    pub fn into_noted(self) -> Noted
        ensures { result.bytes ≡ self }
    {
        self.noted
    }
}
