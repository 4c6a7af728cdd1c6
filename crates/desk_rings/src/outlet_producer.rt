//! The desk's end of an outlet's queue.

ghost use Rattle.std.specs.Prelude.{◌≡◌, ◌≤◌, [], true, false};
ghost use Rattle.std.specs.VecDeque.{deque_capacity, deque_len};
ghost use Rattle.rtrb.specs.Ring.{known_free, producer_capacity};
ghost use Rattle.desk_rings.specs.Sizes.{room_beside};

use crate::size::more_places;
use gate_events::{Output, Recipient};
use rtrb::{Consumer, Producer};
use std::alloc::{AllocError, Global};
use std::collections::VecDeque;
use std::marker::Model;

/// Of the places of an outlet's queue, those that are for what its market says and for time: a client's own events
/// leave them free, and they are free however long the lists are that lie there.
pub const FOR_MARKETS_AND_TIME: usize = 1_088;

/// The desk's end of an outlet's queue, by which output lists go into it. Contracts see its queue and recipient, what
/// went in, for how many more lists it knows room, for how many places more its lists count, and whether it has
/// overflowed.
///
/// A list takes one place, and long ones count for more: so a client that asks for much and reads nothing has its own
/// events wait. They count until the queue is seen to be empty.
///
/// It has overflowed once a list found no room: that list and each later one stand in the history alone, so what comes
/// out of the queue stays a beginning of what there was.
///
/// A producer that stages keeps lists beside its queue, where nobody can take them, until they are released: then they
/// go into the queue, in their order. Contracts see what is staged as sent and not yet released, and its places as no
/// longer free.
#[derive(Drop)]
pub struct OutletProducer {
    to: Recipient,
    producer: Producer<Output>,
    /// The lists that aren't in the queue yet, the oldest first.
    staged: VecDeque<Output>,
    stages: bool,
    overflowed: bool,
    /// For how many places more its lists count that were sent since the queue was last seen to be empty.
    more: usize,
    ghost held: { stages ≡ true → producer_capacity producer ≤ deque_capacity staged },
    ghost fit: { deque_len staged ≤ known_free producer },
    ghost none: { stages ≡ false → staged.items ≡ [] },
}

impl Model for OutletProducer {
    ghost use Rattle.std.specs.Prelude.{◌++◌, ◌-◌};
    ghost use Rattle.std.specs.VecDeque.{deque_len};
    ghost use Rattle.rtrb.specs.Ring.{sent, known_free, producer_capacity};
    ghost use Rattle.desk_rings.specs.Rings.{producer_ring};
    ghost use Rattle.desk_rings.specs.CoreEnds.{OutletProducerState};

    ghost Value = { OutletProducerState };

    ghost view = { λ w. record {
      name = record { to = w.to; ring = producer_ring w.producer };
      sent = sent w.producer ++ w.staged.items;
      released = sent w.producer;
      stages = w.stages;
      places = producer_capacity w.producer;
      free = known_free w.producer - deque_len w.staged;
      more = w.more;
      overflowed = w.overflowed;
    } };
}

impl OutletProducer {
    ghost use Rattle.std.specs.Prelude.{◌≡◌, ◌≤◌, ◌↔◌, IsTrue, OnOk, false, if◌then◌else◌};
    ghost use mathlib.Core.List.{IsPrefix};
    ghost use Rattle.rtrb.specs.Ring.{sent, known_free, producer_capacity, received};
    ghost use Rattle.gate_events.specs.Sources.{unless_empty};
    ghost use Rattle.desk_rings.specs.Rings.{consumer_ring, producer_ring};
    ghost use Rattle.desk_rings.specs.CoreEnds.{IsStaging, ProducerLooked, ProducerMayRelease, ProducerMayStage};
    ghost use Rattle.desk_rings.specs.CoreEnds.{ProducerSent, producer_room};

    /// The end of a queue to a recipient. It hasn't overflowed, and stages nothing. Takes no memory.
    pub fn new(alloc: Global, to: Recipient, producer: Producer<Output>) -> OutletProducer
        ensures name { result.name ≡ record { to = to; ring = producer_ring producer } }
        ensures lists { (result.sent ≡ sent producer) × (result.free ≡ known_free producer) }
        ensures places { (result.places ≡ producer_capacity producer) × (result.more ≡ 0) }
        ensures released { (result.released ≡ sent producer) × (result.stages ≡ false) }
        ensures whole { result.overflowed ≡ false }
    {
        OutletProducer {
            to,
            producer,
            staged: VecDeque::new(alloc),
            stages: false,
            overflowed: false,
            more: 0,
        }
    }

    /// From now on it stages the lists that it is sent. `AllocError` leaves it as it was; the room for what is staged
    /// is taken here, so that no list takes memory.
    pub fn stage(&mut self) -> Result<(), AllocError>
        ensures same { ProducerMayStage self.old self.new }
        ensures stages { OnOk result (IsStaging self.new) }
    {
        let capacity = self.producer.capacity();
        self.staged.reserve(capacity)?;
        self.stages = true;
        Ok(())
    }

    /// Moves what is staged into the queue, in its order. Takes no memory.
    pub fn release(&mut self)
        ensures same { ProducerMayRelease self.old self.new }
        ensures all { self.new.released ≡ self.new.sent }
    {
        while let Some(output) = self.staged.pop_front() {
            self.producer.push_reserved(output);
        }
    }

    /// Whom its lists are for.
    pub fn recipient(&self) -> Recipient
        ensures { result ≡ self.now.name.to }
    {
        self.to
    }

    /// Whether a list would find no room beside `reserved` places, after a look into the queue if it knew of no more. A
    /// list for a producer that has overflowed needs no room.
    pub fn is_full(&mut self, reserved: usize) -> bool
        ensures looked { ProducerLooked self.old self.new }
        ensures value { IsTrue result ↔ ((self.new.overflowed ≡ false) × (producer_room self.new ≤ reserved)) }
        ensures forgets { result ≡ true → self.new.places ≤ self.new.free → self.new.more ≡ 0 }
    {
        !self.overflowed && self.known_room() <= reserved && self.look() <= reserved
    }

    /// For how many more lists there is room, after a look into the queue; `usize::MAX` if the producer has overflowed.
    pub fn room(&mut self) -> usize
        ensures looked { ProducerLooked self.old self.new }
        ensures value { result ≡ (if self.new.overflowed then 18446744073709551615 else producer_room self.new) }
        ensures forgets { self.new.overflowed ≡ false → self.new.places ≤ self.new.free → self.new.more ≡ 0 }
    {
        if self.overflowed {
            usize::MAX
        } else {
            self.look()
        }
    }

    /// For how many more lists it knows room, without a look.
    fn known_room(&self) -> usize
        ensures { result ≡ producer_room self.now }
    {
        let staged = self.staged.len();
        room_beside_more(self.producer.cached_slots() - staged, self.more)
    }

    /// For how many more lists there is room, after a look into the queue. Where it is empty no list counts any more.
    fn look(&mut self) -> usize
        ensures looked { ProducerLooked self.old self.new }
        ensures value { result ≡ producer_room self.new }
        ensures forgets { self.new.places ≤ self.new.free → self.new.more ≡ 0 }
    {
        let staged = self.staged.len();
        let free = self.producer.slots() - staged;
        if free >= self.producer.capacity() {
            self.more = 0;
        }
        room_beside_more(free, self.more)
    }

    /// Puts a list into the queue, unless it is empty or the producer has overflowed. If there is no room, the producer
    /// overflows. Takes no memory.
    pub fn send(&mut self, output: Output)
        ensures { ProducerSent (unless_empty output) self.old self.new }
    {
        if self.overflowed || output.as_slice().is_empty() {
            return;
        }
        let more = self.more.saturating_add(more_places(&output));
        if !self.stages {
            // Not by `push`: a list is moved once where no answer may have it.
            if self.producer.is_full() {
                self.overflowed = true;
            } else {
                self.producer.push_reserved(output);
                self.more = more;
            }
            return;
        }
        if self.staged.len() < self.producer.slots() {
            self.staged.push_back_reserved(output);
            self.more = more;
        } else {
            self.overflowed = true;
        }
    }

    /// Compares what an outlet took with what went in.
    pub(crate) fn look_beside(&mut self, took: &mut Consumer<Output>)
        requires own { consumer_ring took.old ≡ self.old.name.ring }
        ensures looked { ProducerLooked self.old self.new }
        ensures took { (consumer_ring took.new ≡ consumer_ring took.old) × (received took.new ≡ received took.old) }
        ensures prefix { IsPrefix (received took.old) self.new.sent }
        ensures released { IsPrefix (received took.old) self.new.released }
    {
        took.slots_beside(&mut self.producer);
    }
}

/// Of so many free places those that a client's own events find, where lists count for so many more.
fn room_beside_more(free: usize, more: usize) -> usize
    ensures { result ≡ room_beside free more }
{
    if free <= FOR_MARKETS_AND_TIME {
        free
    } else {
        free.saturating_sub(more).max(FOR_MARKETS_AND_TIME)
    }
}
