//! The lines of the cases, one after another.

use super::asking::{answer, is_kept, question_of};
use super::changing::{Change, changed_all};
use super::reading::{Reader, outcome};
use super::records::{record_said, ticks_said};
use super::resending::is_resend_whole;
use super::tally::Outcome;
use super::words::{bytes_said, fault_named, first_number};
use case_lines::{Lines, first_word};
use std::alloc::{AllocError, Global};
use std::io;

/// The pages of a case, as far as its lines have written them.
pub struct Days {
    name: String,
    reader: Reader,
    pages: Vec<Vec<u8>>,
}

/// Written by hand, so that one call drops all.
impl Drop for Days {
    fn drop(self) {
        let Days {
            name: _,
            reader: _,
            pages: _,
        } = self;
    }
}

impl Lines for Days {
    fn take(&mut self, alloc: Global, line: &str, shown: &mut Vec<u8>) -> io::Result<()> {
        let mut text = String::new(alloc);
        self.step(alloc, line, &mut text)?;
        Ok(shown.extend_from_slice(text.as_bytes())?)
    }
}

impl Days {
    /// No case yet.
    pub fn new(alloc: Global) -> Days {
        Days {
            name: String::new(alloc),
            reader: Reader::Day,
            pages: Vec::new(alloc),
        }
    }

    /// Does what a line says, and shows what comes of it.
    fn step(&mut self, alloc: Global, text: &str, shown: &mut String) -> Result<(), AllocError> {
        let (word, rest) = first_word(text);
        if self.write(alloc, word, rest)? || self.change(alloc, word, shown)? {
            return Ok(());
        }
        match self.verdict(alloc, word, rest)? {
            Some(is_right) => self.tell(is_right, shown),
            None => self.ask(alloc, text, shown),
        }
    }

    /// Writes what a line has of a case; whether it is such a line.
    fn write(&mut self, alloc: Global, word: &str, rest: &str) -> Result<bool, AllocError> {
        match word {
            "case" => self.begin(alloc, Reader::Day, rest),
            "page-case" => self.begin(alloc, Reader::Page, rest),
            "page" => self.add_page(bytes_said(alloc, rest)?),
            "bytes" => self.add(bytes_said(alloc, rest)?),
            "record" => self.add(record_said(alloc, rest)?),
            "ticks" => self.add(ticks_said(alloc, rest)?),
            _ => Ok(false),
        }
    }

    /// Begins a case of this name.
    fn begin(&mut self, alloc: Global, reader: Reader, name: &str) -> Result<bool, AllocError> {
        self.name = String::from_str(alloc, name)?;
        self.reader = reader;
        self.pages.clear();
        Ok(true)
    }

    /// Adds a page that begins with these bytes; whether there are some.
    fn add_page(&mut self, bytes: Option<Vec<u8>>) -> Result<bool, AllocError> {
        match bytes {
            Some(bytes) => {
                self.pages.push(bytes)?;
                Ok(true)
            }
            None => Ok(false),
        }
    }

    /// Adds bytes to the last page; whether there are some.
    fn add(&mut self, bytes: Option<Vec<u8>>) -> Result<bool, AllocError> {
        match bytes {
            Some(bytes) => self.add_bytes(bytes.as_slice()),
            None => Ok(false),
        }
    }

    /// Adds bytes to the last page; whether there is one.
    fn add_bytes(&mut self, bytes: &[u8]) -> Result<bool, AllocError> {
        let Some(page) = self.pages.last_mut() else {
            return Ok(false);
        };
        page.extend_from_slice(bytes)?;
        Ok(true)
    }

    /// Whether the pages are as a line wants them; `None` where it wants nothing.
    fn verdict(&self, alloc: Global, word: &str, rest: &str) -> Result<Option<bool>, AllocError> {
        match word {
            "day" | "read" => self.come_to(alloc, Some(Outcome::Read)),
            "refused" => self.come_to(alloc, refusal_named(rest)),
            "kept" => self.keep(alloc, rest),
            "resend" => Ok(Some(is_resend_whole(alloc)?)),
            _ => Ok(None),
        }
    }

    /// Whether the pages come to what is wanted.
    fn come_to(&self, alloc: Global, wanted: Option<Outcome>) -> Result<Option<bool>, AllocError> {
        match wanted {
            Some(wanted) => Ok(Some(outcome(alloc, self.reader, self.pages.as_slice())? == wanted)),
            None => Ok(None),
        }
    }

    /// Whether the last page that the history keeps is the one that a text says, and the last one is of its events and
    /// batches pushed again.
    fn keep(&self, alloc: Global, text: &str) -> Result<Option<bool>, AllocError> {
        match bytes_said(alloc, text)? {
            Some(page) => Ok(Some(is_kept(alloc, self.pages.as_slice(), page.as_slice())?)),
            None => Ok(Some(false)),
        }
    }

    /// Shows a verdict.
    fn tell(&self, is_right: bool, shown: &mut String) -> Result<(), AllocError> {
        let verdict = if is_right { "right" } else { "WRONG" };
        writeln!(shown, "{}: {verdict}", self.name)
    }

    /// Shows what the history answers that the pages are, or that a line isn't understood.
    fn ask(&self, alloc: Global, text: &str, shown: &mut String) -> Result<(), AllocError> {
        let (word, rest) = first_word(text);
        match question_of(word, rest) {
            Some(question) => {
                write!(shown, "{}, {text}:", self.name)?;
                answer(alloc, question, self.pages.as_slice(), shown)?;
                shown.push('\n')
            }
            None => writeln!(shown, "not understood: {text}"),
        }
    }

    /// Shows what comes of all changes of a word; false where it is none.
    fn change(&self, alloc: Global, word: &str, shown: &mut String) -> Result<bool, AllocError> {
        let Some(change) = change_named(word) else {
            return Ok(false);
        };
        let tally = changed_all(alloc, self.reader, change, self.pages.as_slice())?;
        writeln!(shown, "{}, {word}: {tally}", self.name)?;
        Ok(true)
    }
}

/// The change of a word.
fn change_named(word: &str) -> Option<Change> {
    match word {
        "each-byte" => Some(Change::Bytes),
        "each-front" => Some(Change::Fronts),
        "each-exchange" => Some(Change::Exchanges),
        "each-cut" => Some(Change::Cuts),
        _ => None,
    }
}

/// `PAGE FAULT`.
fn refusal_named(text: &str) -> Option<Outcome> {
    let (page, fault) = first_number(text)?;
    Some(Outcome::Refused(u32::try_from(page).ok()?, fault_named(fault)?))
}
