//! The token of a request.

use base64::DecodeAllocError;
use base64::engine::general_purpose::STANDARD;
use std::alloc::{AllocError, Global};

/// The token that an `Authorization` gives: what stands behind `Bearer `, or as the password of `Basic `, which a
/// browser asks its user for. `None` of anything else.
pub fn token_in(alloc: Global, value: &[u8]) -> Result<Option<Vec<u8>>, AllocError> {
    if let Some(token) = value.strip_prefix(b"Bearer ") {
        return Ok(Some(Vec::from_slice(alloc, token)?));
    }
    match value.strip_prefix(b"Basic ") {
        Some(text) => password_in(alloc, text),
        None => Ok(None),
    }
}

/// The password of a user and a password, with a colon between them, in base 64.
fn password_in(alloc: Global, text: &[u8]) -> Result<Option<Vec<u8>>, AllocError> {
    match STANDARD.decode(alloc, text) {
        Ok(pair) => password_of(alloc, pair.as_slice()),
        Err(DecodeAllocError::OutOfMemory) => Err(AllocError),
        Err(_) => Ok(None),
    }
}

/// What stands behind the first colon.
fn password_of(alloc: Global, pair: &[u8]) -> Result<Option<Vec<u8>>, AllocError> {
    match pair.iter().position(|byte| *byte == b':') {
        Some(at) => {
            let (_, password) = pair.split_at(at.saturating_add(1).min(pair.len()));
            Ok(Some(Vec::from_slice(alloc, password)?))
        }
        None => Ok(None),
    }
}
