//! Choices by a seed, for what is tried at random: the same seed makes the same choices.
#![tactic(auto)]

mod chance;

pub use chance::Chance;
