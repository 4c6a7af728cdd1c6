//! Closed worlds by a seed: settings, and steps that a small generator makes. What comes of them is counted.
//!
//! The generator knows what any client may know, and looks at the markets' books for orders to trade. It draws
//! everything from the seed, so that the same seed makes the same steps.
#![tactic(auto)]

mod client;
mod counts;
mod frames;
mod maker;
mod settings;
mod shape;
mod showing;
mod weights;

pub use counts::{Counts, counts_of};
pub use frames::frame_of;
pub use maker::random_steps;
pub use settings::world_settings;
pub use shape::Shape;
pub use showing::show_world;
