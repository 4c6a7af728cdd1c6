//! Calls that no script shows: scripts by their command line and over readers and writers that fail, files of days,
//! histories that are typed in, and the two accounts of an order.

use crate::accounts::Accounts;
use crate::days::day_call;
use crate::histories::Histories;
use crate::streams::script_call;
use case_lines::first_word;
use std::alloc::{AllocError, Global};

/// What the calls are on.
pub struct Calls {
    /// The script, and the file of a day.
    script: Vec<u8>,
    file: Vec<u8>,
    histories: Histories,
    accounts: Accounts,
}

/// Written by hand, so that one call drops all.
impl Drop for Calls {
    fn drop(self) {
        let Calls {
            script: _,
            file: _,
            histories: _,
            accounts: _,
        } = self;
    }
}

impl Calls {
    /// Nothing was said. Takes no memory.
    pub fn new(alloc: Global) -> Calls {
        Calls {
            script: Vec::new(alloc),
            file: Vec::new(alloc),
            histories: Histories::new(alloc),
            accounts: Accounts::new(alloc),
        }
    }

    /// Makes the call of a line, and shows the line and what the call shows, if it does; a line that isn't understood
    /// is shown.
    pub fn take(
        &mut self,
        alloc: Global,
        line: &str,
        shown: &mut Vec<u8>,
    ) -> Result<(), AllocError> {
        let mut answer = Vec::new(alloc);
        if !self.call(alloc, line, &mut answer)? {
            shown.extend_from_slice(b"not understood: ")?;
        } else if answer.is_empty() {
            return Ok(());
        }
        shown.extend_from_slice(line.as_bytes())?;
        shown.push(b'\n')?;
        shown.extend_from_slice(answer.as_slice())
    }

    /// Makes the call of a line, and adds what it shows; false where there is none.
    fn call(&mut self, alloc: Global, line: &str, shown: &mut Vec<u8>) -> Result<bool, AllocError> {
        let (word, rest) = first_word(line);
        Ok(
            script_call(alloc, &mut self.script, word, rest, shown)?
                || day_call(
                    alloc,
                    self.script.as_slice(),
                    &mut self.file,
                    word,
                    rest,
                    shown,
                )?
                || self.histories.call(alloc, word, rest, shown)?
                || self.accounts.call(alloc, word, rest, shown)?,
        )
    }
}

/// Adds what a call told, `! ` in front, and the status that it answered.
pub fn add_end(shown: &mut Vec<u8>, told: &[u8], status: u8) -> Result<(), AllocError> {
    if !told.is_empty() {
        shown.extend_from_slice(b"! ")?;
        shown.extend_from_slice(told)?;
    }
    shown.extend_from_slice(b"status ")?;
    shown.extend_from_slice(&[b'0'.saturating_add(status), b'\n'])
}
