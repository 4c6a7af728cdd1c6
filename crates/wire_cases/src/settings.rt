//! Settings files that lines say.

mod files;
mod reading;
mod shown;

use case_lines::first_word;
use files::{changed, good_file, lines_of, of_many, two_of_each};
use reading::outcome;
use settings_file::EXAMPLE;
use std::alloc::{AllocError, Global};

/// What comes of the file that a line says.
pub fn answer(alloc: Global, word: &str, rest: &str) -> Result<String, AllocError> {
    match word {
        "good" => outcome(alloc, changed(alloc, good_file(alloc)?, rest)?.as_bytes()),
        "two" => outcome(alloc, changed(alloc, two_of_each(alloc)?, rest)?.as_bytes()),
        "many" => outcome(alloc, of_many(alloc, rest)?.as_bytes()),
        "text" => outcome(alloc, lines_of(alloc, rest)?.as_bytes()),
        "byte" => with_byte(alloc, rest),
        "example" => shown::outcome(alloc, EXAMPLE.as_bytes()),
        _ => String::from_str(alloc, "not understood"),
    }
}

/// What comes of a text behind which the byte of a number stands.
fn with_byte(alloc: Global, asked: &str) -> Result<String, AllocError> {
    let (number, text) = first_word(asked);
    let mut bytes = Vec::from_slice(alloc, text.as_bytes())?;
    bytes.push(number.parse::<u8>().unwrap_or(0))?;
    outcome(alloc, bytes.as_slice())
}
