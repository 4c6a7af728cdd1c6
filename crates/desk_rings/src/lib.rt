//! The queues of a desk, made, and their ends: inlets, by which threads put events, and outlets, by which they take
//! output for links; of each the desk has the other end.
//!
//! There is a queue for each source of events and one for each recipient of output; their ends are handed out by
//! position. Each end has the position of its queue in the desk, and its type keeps that it is the end of the queue
//! which the desk's name has at that position. So what an end says of itself when it finishes is said of that queue, in
//! whichever thread it was.
//!
//! No call of an end waits, and none but `OutletProducer::stage` takes memory.
#![tactic(auto)]

mod finished;
mod handing;
mod inlet;
mod inlet_consumer;
mod making;
mod name;
mod outlet;
mod outlet_producer;
mod rings;
mod size;

pub use finished::{Finished, FinishedEnd};
pub use handing::{inlets_of, outlets_of};
pub use inlet::Inlet;
pub use inlet_consumer::InletConsumer;
pub use making::{EVENTS, LISTS, event_rings, output_rings};
pub use name::DeskName;
pub use outlet::Outlet;
pub use outlet_producer::{FOR_MARKETS_AND_TIME, OutletProducer};
pub use rings::{EventRing, OutputRing};
pub use size::more_places;
