//! Cases of scripts.

mod again;
mod between;
mod case;
mod said;

pub use again::run_again;
pub use case::Case;
pub use said::push_said;
