//! All queues of a desk, from the desk's side.

ghost use Rattle.std.specs.Prelude.{◌≡◌, ◌≢◌, ◌<◌, ◌≤◌, ◌-◌, ◌^◌, ◌==◌, [], Some, None, ℕ, if◌then◌else◌};
ghost use Rattle.desk_rings.specs.Sizes.{more_places as places_more};

use crate::batch_output::BatchOutput;
use crate::places::{client_number, place_of_client, place_of_port, port_number};
use crate::slots::{
    is_empty_at, is_full_at, least_room, pop_at, release_each, send_at, stage_each,
};
use desk_rings::{DeskName, Finished, InletConsumer, OutletProducer, more_places};
use gate_events::{Event, Output, Source};
use std::alloc::AllocError;
use std::marker::Model;

/// All queues of a desk, from the desk's side: a consumer for each client, each port and the clock, and a producer for
/// each client and each port. Contracts see them by position.
pub struct Side {
    clients: usize,
    ports: usize,
    consumers: Vec<InletConsumer>,
    producers: Vec<OutletProducer>,
    /// For how many lists at least each producer that hasn't overflowed has room.
    roomy: usize,
    /// Bit i: output queue i got urgent output since the last `take_prompt`.
    prompt: u128,
    /// Bit i: output queue i holds only output that may wait, since the last `take_waiting`.
    waiting: u128,
}

// Not derived: then each way out drops it in one call (docs/DECISIONS.md, "Drops").
impl Drop for Side {
    fn drop(self) {
        let Side {
            clients: _,
            ports: _,
            consumers: _,
            producers: _,
            roomy: _,
            prompt: _,
            waiting: _,
        } = self;
    }
}

impl Model for Side {
    ghost use Rattle.desk_side.specs.Side.{AllKnowRoom, SideState, IsArranged};

    ghost Value = { SideState };

    ghost view = { λ s. record {
      clients = s.clients;
      ports = s.ports;
      consumers = s.consumers.items;
      producers = s.producers.items;
    } };

    ghost invariant = { λ s. IsArranged
        (record { clients = s.clients; ports = s.ports; consumers = s.consumers.items; producers = s.producers.items })
        × AllKnowRoom s.roomy s.producers.items };
}

impl Side {
    ghost use Rattle.std.specs.Prelude.{◌≡◌, ◌<◌, ◌+◌, ℕ, true, false, OnOk, Some, length, map, slice_get};
    ghost use Rattle.desk_rings.specs.CoreEnds.{InletConsumerState, ConsumerGave, ConsumerLooked, ConsumersLooked};
    ghost use Rattle.desk_rings.specs.CoreEnds.{ConsumersStayBut, ProducersLooked};
    ghost use Rattle.desk_rings.specs.CoreEnds.{AllReleased, AllStage, ProducersMayRelease, ProducersMayStage};
    ghost use Rattle.desk_rings.specs.CoreEnds.{IsBorneOut, consumer_name, producer_name};
    ghost use Rattle.desk_rings.specs.Ends.{inlet_of};
    ghost use Rattle.desk_side.specs.Side.{AllKnowRoom, ChangesAt, HaveRoom, IsArranged, LacksRoom, OutputSent};

    /// Over these consumers and producers, for this many clients and ports.
    pub fn new(
        clients: usize,
        ports: usize,
        consumers: Vec<InletConsumer>,
        producers: Vec<OutletProducer>,
    ) -> Side
        requires arranged { IsArranged
            (record { clients = clients; ports = ports; consumers = consumers.items; producers = producers.items }) }
        ensures { result ≡ record {
          clients = clients;
          ports = ports;
          consumers = consumers.items;
          producers = producers.items;
        } }
    {
        Side {
            clients,
            ports,
            consumers,
            producers,
            roomy: 0,
            prompt: 0,
            waiting: 0,
        }
    }

    /// How many inlets there are.
    pub fn inlets(&self) -> usize
        ensures { result ≡ length self.now.consumers }
    {
        self.consumers.len()
    }

    /// Whose events come out of an inlet's queue.
    pub fn source(&self, place: usize) -> Source
        requires inside { place < length self.now.consumers }
        ensures { (a : InletConsumerState) → slice_get self.now.consumers place ≡ Some a → a.name.source ≡ result }
    {
        self.consumers[place].source()
    }

    /// Whether no event is known in an inlet's queue, after a look.
    pub fn is_empty(&mut self, place: usize) -> bool
        requires inside { place < length self.old.consumers }
        ensures consumers { ChangesAt place ConsumerLooked self.old.consumers self.new.consumers }
        ensures producers { self.new.producers ≡ self.old.producers }
        ensures counts { (self.new.clients ≡ self.old.clients) × (self.new.ports ≡ self.old.ports) }
        ensures none { result ≡ true → (a : InletConsumerState) → slice_get self.new.consumers place ≡ Some a
            → length a.known ≡ 0 }
        ensures some { result ≡ false → (a : InletConsumerState) → slice_get self.new.consumers place ≡ Some a
            → 0 < length a.known }
    {
        is_empty_at(&mut self.consumers, place)
    }

    /// How many events are known in an inlet's queue, without a look.
    pub fn known(&self, place: usize) -> usize
        requires inside { place < length self.now.consumers }
        ensures { (a : InletConsumerState) → slice_get self.now.consumers place ≡ Some a → result ≡ length a.known }
    {
        self.consumers[place].known()
    }

    /// The first event of an inlet's queue.
    pub fn front(&self, place: usize) -> &Event
        requires inside { place < length self.now.consumers }
        requires some { (a : InletConsumerState) → slice_get self.now.consumers place ≡ Some a → 0 < length a.known }
        ensures { (a : InletConsumerState) → slice_get self.now.consumers place ≡ Some a
            → slice_get a.known 0 ≡ Some result.now }
    {
        self.consumers[place].front()
    }

    /// Takes the first event out of an inlet's queue.
    pub fn pop(&mut self, place: usize) -> Event
        requires inside { place < length self.old.consumers }
        requires some { (a : InletConsumerState) → slice_get self.old.consumers place ≡ Some a → 0 < length a.known }
        ensures consumers { ChangesAt place (ConsumerGave result) self.old.consumers self.new.consumers }
        ensures producers { self.new.producers ≡ self.old.producers }
        ensures counts { (self.new.clients ≡ self.old.clients) × (self.new.ports ≡ self.old.ports) }
    {
        pop_at(&mut self.consumers, place)
    }

    /// Whether lists for this client and this port would find room beside `reserved` places, after a look. A list for a
    /// producer that has overflowed needs none.
    pub fn has_room(&mut self, client: Option<u16>, port: Option<u16>, reserved: usize) -> bool
        ensures consumers { self.new.consumers ≡ self.old.consumers }
        ensures producers { ProducersLooked self.old.producers self.new.producers }
        ensures counts { (self.new.clients ≡ self.old.clients) × (self.new.ports ≡ self.old.ports) }
        ensures room { result ≡ true → HaveRoom reserved client port self.new.producers }
        ensures full { result ≡ false → LacksRoom reserved client port self.new.producers }
    {
        let client = place_of_client(self.clients, client);
        let port = place_of_port(self.clients, self.ports, port);
        if is_full_at(&mut self.producers, client, reserved) {
            return false;
        }
        !is_full_at(&mut self.producers, port, reserved)
    }

    /// Whether lists for anybody would find room beside `reserved` places. It looks into the queues only if it doesn't
    /// know; then it knows for as many lists more as the fullest queue has room for. If one has no room, `has_room`
    /// says it of those that a list is for.
    pub fn has_room_everywhere(&mut self, reserved: usize) -> bool
        ensures consumers { self.new.consumers ≡ self.old.consumers }
        ensures producers { ProducersLooked self.old.producers self.new.producers }
        ensures counts { (self.new.clients ≡ self.old.clients) × (self.new.ports ≡ self.old.ports) }
        ensures room { result ≡ true → AllKnowRoom (reserved + 1) self.new.producers }
    {
        if self.roomy > reserved {
            return true;
        }
        self.roomy = least_room(&mut self.producers);
        self.roomy > reserved
    }

    /// Puts a batch's output into its recipients' queues. A producer that has no room overflows.
    pub fn send(&mut self, output: BatchOutput)
        ensures consumers { self.new.consumers ≡ self.old.consumers }
        ensures producers { OutputSent output self.old.producers self.new.producers }
        ensures counts { (self.new.clients ≡ self.old.clients) × (self.new.ports ≡ self.old.ports) }
    {
        let BatchOutput {
            client,
            client_output,
            port,
            port_output,
        } = output;
        let client = place_of_client(self.clients, client_number(client));
        let port = place_of_port(self.clients, self.ports, port_number(port));
        let roomy = roomy_behind(self.roomy, &client_output, &port_output);
        self.roomy = roomy;
        let (prompt, waiting) = prompt_and_waiting(
            bit(client, &client_output),
            bit(port, &port_output),
        );
        self.prompt |= prompt;
        self.waiting |= waiting;
        send_at(&mut self.producers, client, client_output);
        send_at(&mut self.producers, port, port_output);
    }

    /// From now on output waits beside the queues until it is released. `AllocError` leaves some producers as they
    /// were: it may be called again.
    pub fn stage(&mut self) -> Result<(), AllocError>
        ensures consumers { self.new.consumers ≡ self.old.consumers }
        ensures producers { ProducersMayStage self.old.producers self.new.producers }
        ensures counts { (self.new.clients ≡ self.old.clients) × (self.new.ports ≡ self.old.ports) }
        ensures stages { OnOk result (AllStage self.new.producers) }
    {
        stage_each(&mut self.producers)
    }

    /// Moves what waits beside the queues into them. Takes no memory.
    pub fn release(&mut self)
        ensures consumers { self.new.consumers ≡ self.old.consumers }
        ensures producers { ProducersMayRelease self.old.producers self.new.producers }
        ensures counts { (self.new.clients ≡ self.old.clients) × (self.new.ports ≡ self.old.ports) }
        ensures all { AllReleased self.new.producers }
    {
        release_each(&mut self.producers);
    }

    /// The output queues that got urgent output since the last call, a bit for each by position. Of a client and a port
    /// that one batch has output for it is the port: the client's may wait, for its next output or for `take_waiting`.
    pub fn take_prompt(&mut self) -> u128
        ensures { self.new ≡ self.old }
    {
        let prompt = self.prompt;
        self.prompt = 0;
        self.waiting &= !prompt;
        prompt
    }

    /// The output queues that got output since the last call that may wait, and none since that is urgent: a bit for
    /// each by position.
    pub fn take_waiting(&mut self) -> u128
        ensures { self.new ≡ self.old }
    {
        let waiting = self.waiting;
        self.waiting = 0;
        waiting
    }

    /// Compares an end that has finished with the desk's own end of its queue: of an inlet's, all that is left is then
    /// known.
    pub fn compare<K: DeskName>(&mut self, finished: &mut Finished<K>)
        requires consumers { map consumer_name self.old.consumers ≡ K.inlets }
        requires producers { map producer_name self.old.producers ≡ K.outlets }
        ensures same { finished.new ≡ finished.old }
        ensures consumers { ConsumersLooked self.old.consumers self.new.consumers }
        ensures others { ConsumersStayBut (inlet_of finished.old) self.old.consumers self.new.consumers }
        ensures producers { ProducersLooked self.old.producers self.new.producers }
        ensures counts { (self.new.clients ≡ self.old.clients) × (self.new.ports ≡ self.old.ports) }
        ensures borne_out { IsBorneOut finished.old self.new.consumers self.new.producers }
    {
        finished.compare(&mut self.consumers, &mut self.producers);
    }
}

/// For how many lists each producer has room behind a batch's output, where it had room for so many: for one list less,
/// and for as many less as the longer list counts for more.
fn roomy_behind(roomy: usize, client_output: &Output, port_output: &Output) -> usize
    ensures client { result ≤ roomy - 1 - places_more client_output.now }
    ensures port { result ≤ roomy - 1 - places_more port_output.now }
{
    let more = more_places(client_output).max(more_places(port_output));
    roomy.saturating_sub(1).saturating_sub(more)
}

#[tactic(auto, using(crate::proofs::Bits::one_bit))]
/// The bit of a place, if a list for it has something.
fn bit(place: Option<usize>, output: &Output) -> u128
    ensures some { (at : ℕ) → place ≡ Some at → at < 128 → output.now ≢ [] → result ≡ 2 ^ at }
    ensures nothing { output.now ≡ [] → result ≡ 0 }
    ensures nobody { place ≡ None → result ≡ 0 }
{
    match place {
        Some(place) if place < 128 && !output.as_slice().is_empty() => 1u128 << place,
        _ => 0,
    }
}

/// Of the bits of a client and a port that one batch has output for: the urgent one, and the one that may wait, which
/// is the client's if the port has output.
fn prompt_and_waiting(client: u128, port: u128) -> (u128, u128)
    ensures prompt { result.0 ≡ (if port == 0 then client else port) }
    ensures waiting { result.1 ≡ (if port == 0 then 0 else client) }
{
    if port == 0 {
        (client, 0)
    } else {
        (port, client)
    }
}
