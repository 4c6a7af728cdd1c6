//! Short texts on the wire: decimal digits and the number that they write; whether tokens, and whether short texts, are
//! the same.
//!
//! This is the one place where digits become a number. What it is, is `specs/Digits.antt`; what callers need to know of
//! it besides, `proofs/Numbers.antt`.
//!
//! Two texts are compared in a few instructions. The general `==` of arrays and slices goes over their elements in
//! groups, which takes more than a hundred for a token's 14 bytes, and as many for a text of a few.
#![tactic(auto)]

mod digits;
mod same_text;
mod same_token;

pub use digits::{are_digits, digits_in_front, number_of};
pub use same_text::is_same_text;
pub use same_token::is_same_token;
