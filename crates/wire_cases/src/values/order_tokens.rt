//! Tokens and their numbers.

use super::decimals;
use std::alloc::{AllocError, Global};
use std::str;
use tokens::Token;

/// The token of a number.
pub fn token(alloc: Global, word: &str) -> Result<String, AllocError> {
    let Some(number) = decimals::number::<u64>(word) else {
        return String::from_str(alloc, "no number");
    };
    match Token::of(number) {
        Ok(token) => String::from_str(alloc, str::from_utf8(&token.bytes()).unwrap_or("no text")),
        Err(refusal) => format!(in alloc; "{refusal}"),
    }
}

/// The number of the token that 14 bytes are.
pub fn number(alloc: Global, text: &str) -> Result<String, AllocError> {
    let Some(bytes) = text.as_bytes().first_chunk::<14>() else {
        return String::from_str(alloc, "no 14 bytes");
    };
    match Token::number(bytes) {
        Some(number) => format!(in alloc; "{number}"),
        None => String::from_str(alloc, "none"),
    }
}
