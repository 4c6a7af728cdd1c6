//! Makes the queues.

ghost use Rattle.std.specs.Prelude.{IfOk};
ghost use Rattle.desk_rings.specs.Made.{MadeEvents, MadeLists};

use crate::inlet_consumer::InletConsumer;
use crate::outlet_producer::OutletProducer;
use crate::rings::{EventRing, OutputRing};
use gate_events::{Recipient, Source};
use rtrb::RingBuffer;
use std::alloc::{AllocError, Global};
use std::collections::VecDeque;

/// How many events an inlet's queue holds.
pub const EVENTS: usize = 1_024;

/// How many lists an outlet's queue holds.
pub const LISTS: usize = 2_112;

/// A queue for each source, in order: the producer's ends, and the desk's.
pub fn event_rings(
    alloc: Global,
    sources: &[Source],
) -> Result<(VecDeque<EventRing>, Vec<InletConsumer>), AllocError>
    ensures { IfOk result (λ r. MadeEvents sources.now r.0.items r.1.items) }
{
    let mut rings = VecDeque::new(alloc);
    let mut consumers = Vec::new(alloc);
    for source in sources {
        let (producer, consumer) = RingBuffer::new(alloc, EVENTS)?;
        rings.push_back(EventRing {
            source: *source,
            producer,
        })?;
        consumers.push(InletConsumer::new(*source, consumer))?;
    }
    Ok((rings, consumers))
}

/// A queue for each recipient, in order: the desk's ends, and the consumer's.
pub fn output_rings(
    alloc: Global,
    recipients: &[Recipient],
) -> Result<(Vec<OutletProducer>, VecDeque<OutputRing>), AllocError>
    ensures { IfOk result (λ r. MadeLists recipients.now r.0.items r.1.items) }
{
    let mut producers = Vec::new(alloc);
    let mut rings = VecDeque::new(alloc);
    for to in recipients {
        let (producer, consumer) = RingBuffer::new(alloc, LISTS)?;
        producers.push(OutletProducer::new(alloc, *to, producer))?;
        rings.push_back(OutputRing { to: *to, consumer })?;
    }
    Ok((producers, rings))
}
