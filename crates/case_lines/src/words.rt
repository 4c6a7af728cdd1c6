//! The words of a line.

/// The first word of a text, and what stands behind the space after it.
pub fn first_word(text: &str) -> (&str, &str) {
    match text.split_once(' ') {
        Some(parts) => parts,
        None => (text, ""),
    }
}

/// The number that decimal digits are; none where there is no digit, another character, or too high a number.
pub fn number_of(digits: &str) -> Option<u64> {
    if digits.is_empty() {
        return None;
    }
    wire_bytes::number_of(digits.as_bytes())
}
