//! The core as one value, and the call that steps it.

ghost use Rattle.std.specs.Prelude.{[], ◌∷◌, ◌≡◌, length, IfOk, OnErr};

use crate::board::Board;
use crate::parts::Parts;
use crate::parts::new::{orders, orders_with_hasher};
use crate::rows::{client_rows, port_rows};
use crate::targets::Targets;
use fix_fields::Fields;
use fix_session::LogonFault;
use gate_events::{Batch, ClientNumber, Event};
use gate_settings::Settings;
use order_core::OrderCore;
use soup_session::PortFault;
use std::alloc::{AllocError, Global};
use std::hash::{BuildHasher, BuildHasherDefault, FoldHasher};
use std::marker::Model;

/// The most events that are stepped: any that comes later gives an empty batch and changes nothing.
const MOST_EVENTS: u64 = 1 << 48;

/// Sessions of clients, the order level and sessions of ports, stepped by events on one thread.
///
/// It reads no clock and no socket: moments come with the events, and output stands in the batches. Contracts see how
/// it stands, and how it stood before the last step.
///
/// ClOrdIDs are found by indexes over any hasher, which changes nothing but how fast they are found. With a seed that
/// nobody else knows no client can choose ids that make it slow. What the gateway numbers itself is found by a fixed
/// hasher.
pub struct Core<S: BuildHasher + Drop = BuildHasherDefault<FoldHasher>> {
    parts: Parts<S>,
    /// How many events were stepped.
    events: u64,
    /// How many were before the last step.
    settled_events: u64,
}

// Not derived: then each way out drops it in one call (docs/DECISIONS.md, "Drops").
impl<S: BuildHasher + Drop> Drop for Core<S> {
    fn drop(self) {
        let Core {
            parts: _,
            events: _,
            settled_events: _,
        } = self;
    }
}

impl<S: BuildHasher + Drop> Model for Core<S> {
    ghost use Rattle.gate_core.specs.Core.{CoreState, IsSound};
    ghost use Rattle.gate_core.specs.State.{parts_now, parts_settled};

    ghost Value = { CoreState };

    ghost view = { λ c. record {
      now = record { parts = parts_now c.parts; events = c.events };
      settled = record { parts = parts_settled c.parts; events = c.settled_events };
    } };

    ghost invariant = { λ c. IsSound (record { parts = parts_now c.parts; events = c.events })
        × IsSound (record { parts = parts_settled c.parts; events = c.settled_events }) };
}

impl Core {
    ghost use Rattle.gate_core.specs.Core.{IsAfter};

    /// The core of these settings before the first event, with the fixed seed.
    pub fn new(alloc: Global, settings: &Settings) -> Result<Core, AllocError>
        ensures after { IfOk result (λ core. IsAfter settings.now [] core) }
        ensures settled { IfOk result (λ core. core.settled ≡ core.now) }
    {
        let orders = orders(alloc, settings)?;
        Core::of_orders(alloc, settings, orders)
    }
}

impl<S: BuildHasher + Clone + Drop> Core<S> {
    ghost use Rattle.gate_core.specs.Core.{IsAfter};

    /// The core of these settings before the first event, with a hasher.
    pub fn with_hasher(alloc: Global, hasher: S, settings: &Settings) -> Result<Core<S>, AllocError>
        ensures after { IfOk result (λ core. IsAfter settings.now [] core) }
        ensures settled { IfOk result (λ core. core.settled ≡ core.now) }
    {
        let orders = orders_with_hasher(alloc, hasher, settings)?;
        Core::of_orders(alloc, settings, orders)
    }
}

impl<S: BuildHasher + Drop> Core<S> {
    ghost use Rattle.gate_law.specs.Settings as law;
    ghost use Rattle.gate_law.specs.Events as told;
    ghost use Rattle.gate_law.specs.Events.{History};
    ghost use Rattle.gate_law.specs.After.{lists};
    ghost use Rattle.gate_law.specs.Holds.{Holds};
    ghost use Rattle.gate_law.specs.Promises.{IsAmong};
    ghost use Rattle.gate_core.specs.Board.{IsBoard};
    ghost use Rattle.gate_core.specs.Core.{IsAfter, turn_of};
    ghost use Rattle.order_core.specs.State.{IsAfterTurns, core_clients, core_numbers};
    ghost use Rattle.gate_core.specs.Expected.{event_due, fault_now, logon_fault_now, next_expected};
    ghost use Rattle.gate_events.specs.Seen.{event_seen};
    ghost use Rattle.gate_core.specs.Targets.{client_for, port_for};

    /// The core of these settings before the first event, with the order level of their clients.
    fn of_orders(
        alloc: Global,
        settings: &Settings,
        orders: OrderCore<S>,
    ) -> Result<Core<S>, AllocError>
        requires after { IsAfterTurns (law.terms settings.now) [] orders }
        requires clients { core_clients orders ≡ length settings.now.clients }
        requires issued { core_numbers orders ≡ 0 }
        ensures after { IfOk result (λ core. IsAfter settings.now [] core) }
        ensures settled { IfOk result (λ core. core.settled ≡ core.now) }
    {
        let mut parts = Parts::new(alloc, settings, orders)?;
        parts.settle();
        Ok(Core {
            parts,
            events: 0,
            settled_events: 0,
        })
    }

    /// Steps an event, and gives its batch.
    ///
    /// An event of a client or port that the settings don't have, or of a link that isn't the current one, gives an
    /// empty batch and changes nothing; so does any event past the first 2^48. `AllocError` leaves the core as it was:
    /// the event may be stepped again, or another one.
    ///
    /// Source: FIX 4.4 Volumes 2 and 4; OUCH 4.2; SoupBinTCP 3.00.
    pub fn step(&mut self, alloc: Global, event: &Event) -> Result<Batch, AllocError>
        ensures after { IfOk result (λ batch. (s : law.Settings) (before : History) → IsAfter s before self.old
            → IsAfter s (turn_of event.now batch ∷ before) self.new) }
        ensures holds { IfOk result (λ batch. (s : law.Settings) (before : History) → IsAfter s before self.old
            → Holds s (turn_of event.now batch ∷ before)) }
        ensures err { OnErr result (self.new.now ≡ self.old.now) }
        ensures settled { self.new.settled ≡ self.old.now }
    {
        self.settle();
        let stepped = self.advance(alloc, event);
        if stepped.is_err() {
            self.undo();
            return stepped;
        }
        stepped
    }

    /// Puts the core back to how it stood before the last step, whether that was made or refused: every session with
    /// its link, every order, number and outstanding message. A second call changes nothing. Takes no memory.
    ///
    /// So a caller that can't keep a step's batch, because memory ran out, makes the step again later.
    pub fn undo(&mut self)
        ensures now { self.new.now ≡ self.old.settled }
        ensures settled { self.new.settled ≡ self.old.settled }
    {
        self.parts.undo();
        self.events = self.settled_events;
    }

    /// From now on the core can be put back to how it stands now.
    fn settle(&mut self)
        ensures now { self.new.now ≡ self.old.now }
        ensures settled { self.new.settled ≡ self.old.now }
    {
        self.parts.settle();
        self.settled_events = self.events;
    }

    /// Steps an event. If memory runs out, a part of it may have been done.
    fn advance(&mut self, alloc: Global, event: &Event) -> Result<Batch, AllocError>
        ensures after { IfOk result (λ batch. (s : law.Settings) (before : History) → IsAfter s before self.old
            → IsAfter s (turn_of event.now batch ∷ before) self.new) }
        ensures holds { IfOk result (λ batch. (s : law.Settings) (before : History) → IsAfter s before self.old
            → Holds s (turn_of event.now batch ∷ before)) }
        ensures settled { self.new.settled ≡ self.old.settled }
    {
        if self.events == MOST_EVENTS {
            return Ok(Batch::empty(alloc));
        }
        self.events += 1;
        self.parts.event(alloc, event)
    }

    /// Whom the batch of this event may name, if it is stepped next: at most one client and one port, and nobody that
    /// the settings don't have. A batch names nobody else, and may name fewer. Takes no memory.
    pub fn targets(&self, event: &Event) -> Targets
        ensures client { (s : law.Settings) (before : History) → IsAfter s before self.now
            → result.client ≡ client_for s (event_seen event.now) (lists s before) }
        ensures port { (s : law.Settings) (before : History) → IsAfter s before self.now
            → result.port ≡ port_for s (event_seen event.now) }
        ensures named { (s : law.Settings) (before : History) (batch : told.Batch) → IsAfter s before self.now
            → Holds s (record { event = event_seen event.now; batch = batch } ∷ before)
            → IsAmong batch.client result.client × IsAmong batch.port result.port }
    {
        self.parts.targets(event)
    }

    /// The number that is expected of a client's next frame (MsgSeqNum, 34); `None` of a client that the settings don't
    /// have. Takes no memory.
    ///
    /// Source: FIX 4.4 Volume 2, "Message Recovery".
    pub fn next_in(&self, client: u16) -> Option<u64>
        ensures { (s : law.Settings) (before : History) → IsAfter s before self.now
            → result ≡ next_expected s client ((lists s before).client_calls client) }
    {
        self.parts.next_in(client)
    }

    /// Whether this event produces anything, or may: `false` of a tick for which the session's table has no row just
    /// now, and of one for a client or port that the settings don't have. Such a tick gives an empty batch, and changes
    /// no more than the session's latest moment: it may be left out. Takes no memory.
    pub fn is_due(&self, alloc: Global, event: &Event) -> bool
        ensures { (s : law.Settings) (before : History) → IsAfter s before self.now
            → result ≡ event_due s (lists s before) (event_seen event.now) }
    {
        self.parts.is_due(alloc, event)
    }

    /// Why a link's first frame is answered by nothing but the link's end; `None` of a Logon that is answered, and of a
    /// client that the settings don't have. Takes no memory.
    ///
    /// Source: FIX 4.4 Volume 2, "Logon".
    pub fn logon_fault(&self, client: ClientNumber, frame: &Fields) -> Option<LogonFault>
        ensures { (s : law.Settings) (before : History) → IsAfter s before self.now
            → result ≡ logon_fault_now s client ((lists s before).client_calls client) frame.now }
    {
        self.parts.logon_fault(client, frame)
    }

    /// Why a port is faulted; `None` of one that isn't, and of one that the settings don't have. Takes no memory.
    pub fn port_fault(&self, port: u16) -> Option<PortFault>
        ensures { (s : law.Settings) (before : History) → IsAfter s before self.now
            → result ≡ fault_now s port ((lists s before).port_calls port) }
    {
        self.parts.port_fault(port)
    }

    /// The state of all clients and ports, and how many events were stepped. It goes through no order: its time is that
    /// of a few numbers for each client and port.
    pub fn board(&self, alloc: Global) -> Result<Board, AllocError>
        ensures { IfOk result (λ board. (s : law.Settings) (before : History) → IsAfter s before self.now
            → IsBoard s before board) }
    {
        let clients = client_rows(
            alloc,
            self.parts.clients.lines.as_slice(),
            &self.parts.orders,
        )?;
        let ports = port_rows(alloc, self.parts.ports.lines.as_slice())?;
        Ok(Board {
            events: self.events,
            clients,
            ports,
        })
    }
}
