//! What comes of reading a file.

use settings_file::{SettingsFault, read};
use std::alloc::{AllocError, Global};

/// `read`, or `refused` with why.
pub fn outcome(alloc: Global, text: &[u8]) -> Result<String, AllocError> {
    match read(alloc, text) {
        Ok(_) => String::from_str(alloc, "read"),
        Err(fault) => refused(alloc, fault),
    }
}

/// `refused` with the key and its table, or with the line that isn't TOML.
pub fn refused(alloc: Global, fault: SettingsFault) -> Result<String, AllocError> {
    match fault {
        SettingsFault::Refused(refusal) => format!(in alloc; "refused {refusal}"),
        SettingsFault::NotToml(line) => format!(in alloc; "refused line {line}"),
        SettingsFault::NoMemory => Err(AllocError),
    }
}
