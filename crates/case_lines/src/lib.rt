//! What the programs of cases share: the lines of an input, each with what it shows; typed bytes and words of a line;
//! cases with their verdicts; and hashers beside the fixed seed, with each of which the gateway has to do what it does
//! with the fixed seed. `README.md` has the lines.
#![tactic(auto)]

mod bytes;
mod lines;
mod nothing;
mod seeded;
mod verdicts;
mod words;

pub use bytes::{bytes_of, shown};
pub use lines::{Lines, show_answer, take_lines};
pub use nothing::Nothing;
pub use seeded::Seeded;
pub use verdicts::{Conversation, Judged};
pub use words::{first_word, number_of};
