//! The two accounts of one order: by what the market says, and by what its client reads.

use case_lines::bytes_of;
use fix_fields::{Fields, split};
use order_accounts::{ReadingFault, life_of, reading_of};
use order_law::Account;
use ouch_codec::{Outbound, decode};
use std::alloc::{AllocError, Global};

/// The order's token.
const TOKEN: &[u8] = b"G0000000000001";

/// What was heard of the market, and what was read of reports.
pub struct Accounts {
    heard: Vec<Outbound>,
    read: Vec<Fields>,
}

/// Written by hand, so that one call drops all.
impl Drop for Accounts {
    fn drop(self) {
        let Accounts { heard: _, read: _ } = self;
    }
}

impl Accounts {
    /// Nothing was heard or read. Takes no memory.
    pub fn new(alloc: Global) -> Accounts {
        Accounts {
            heard: Vec::new(alloc),
            read: Vec::new(alloc),
        }
    }

    /// Makes a call, and adds what it shows; false where there is none of this word.
    pub fn call(
        &mut self,
        alloc: Global,
        word: &str,
        rest: &str,
        shown: &mut Vec<u8>,
    ) -> Result<bool, AllocError> {
        match word {
            "hears" => return self.hear(alloc, rest),
            "reads" => return self.read(alloc, rest),
            "reports" => self.read.clear(),
            "life" => show_life(alloc, self.heard.as_slice(), shown)?,
            "reading" => show_reading(alloc, self.read.as_slice(), rest.as_bytes(), shown)?,
            _ => return Ok(false),
        }
        Ok(true)
    }

    /// A message of the market is heard; false where bytes are none.
    fn hear(&mut self, alloc: Global, text: &str) -> Result<bool, AllocError> {
        let Some(bytes) = bytes_of(alloc, text)? else {
            return Ok(false);
        };
        match decode(bytes.as_slice()) {
            Ok(message) => {
                self.heard.push(message)?;
                Ok(true)
            }
            Err(_) => Ok(false),
        }
    }

    /// A report is read; false where a text is no fields.
    fn read(&mut self, alloc: Global, text: &str) -> Result<bool, AllocError> {
        let Some(bytes) = bytes_of(alloc, text)? else {
            return Ok(false);
        };
        match split(alloc, bytes.as_slice())? {
            Some(fields) => {
                self.read.push(fields)?;
                Ok(true)
            }
            None => Ok(false),
        }
    }
}

/// Shows the account of the order's life, which is a buy, by these messages.
fn show_life(alloc: Global, heard: &[Outbound], shown: &mut Vec<u8>) -> Result<(), AllocError> {
    show(alloc, life_of(alloc, TOKEN, b'1', heard)?.account(), shown)
}

/// Shows the account of the order of an OrderID (37) by these reports.
fn show_reading(
    alloc: Global,
    read: &[Fields],
    order: &[u8],
    shown: &mut Vec<u8>,
) -> Result<(), AllocError> {
    match reading_of(alloc, order, read) {
        Ok(reading) => show(alloc, reading.account(), shown),
        Err(ReadingFault::TooLarge) => shown.extend_from_slice(b"too large\n"),
        Err(ReadingFault::NoMemory) => Err(AllocError),
    }
}

/// Shows an account.
fn show(alloc: Global, account: Account, shown: &mut Vec<u8>) -> Result<(), AllocError> {
    shown.extend_from_slice(format!(in alloc; "{account:?}\n")?.as_bytes())
}
