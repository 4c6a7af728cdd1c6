//! Messages as fields, in texts in which `|` stands for SOH.

use super::decimals::number;
use case_lines::{bytes_of, first_word, shown};
use fix_types::{Fields, split};
use std::alloc::{AllocError, Global};

/// The fields of a text, none where it is no fields.
pub fn fields_of(alloc: Global, text: &str) -> Result<Option<Fields>, AllocError> {
    match bytes_of(alloc, text)? {
        Some(bytes) => split(alloc, bytes.as_slice()),
        None => Ok(None),
    }
}

/// How many fields a text has, and they behind no others.
pub fn fields(alloc: Global, text: &str) -> Result<String, AllocError> {
    match fields_of(alloc, text)? {
        Some(fields) => printed(alloc, &fields),
        None => String::from_str(alloc, "none"),
    }
}

/// How many fields these are, and they behind no others.
fn printed(alloc: Global, fields: &Fields) -> Result<String, AllocError> {
    let mut anew = Fields::new(alloc);
    anew.append(alloc, fields)?;
    if fields.print(alloc)?.as_slice() == anew.text() {
        counted(alloc, &anew)
    } else {
        String::from_str(alloc, "other fields")
    }
}

/// How many fields these are, and they.
fn counted(alloc: Global, fields: &Fields) -> Result<String, AllocError> {
    let text = shown(alloc, fields.text())?;
    format!(in alloc; "{} {text}", fields.len())
}

/// The value of the first field with a tag, in the text behind it.
pub fn first(alloc: Global, asked: &str) -> Result<String, AllocError> {
    let (tag, text) = first_word(asked);
    match (number::<u32>(tag), fields_of(alloc, text)?) {
        (Some(tag), Some(fields)) => match fields.first(tag) {
            Some(value) => shown(alloc, value),
            None => String::from_str(alloc, "none"),
        },
        _ => String::from_str(alloc, "no fields"),
    }
}
