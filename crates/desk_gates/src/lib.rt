//! A desk's ends as the threads of links see them: a reader's handle, a writer's handle in its shared writer, and a
//! writer's clock, whose pause ends when its outlet is woken.
#![tactic(auto)]

mod inlet;
mod outlet;
mod outlet_writer;
mod waker;

pub use inlet::InletGate;
pub use outlet::OutletGate;
pub use outlet_writer::OutletWriter;
pub use waker::WakerClock;
