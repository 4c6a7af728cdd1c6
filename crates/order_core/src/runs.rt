//! Whole runs: a list of events, from no order on.

ghost use Rattle.std.specs.Prelude.{◌≡◌, ◌∷◌, [], true, Some, None, List, length, map, IfOk, OnErr};
ghost use Rattle.fix_types.specs.Application.{message_fields};
ghost use Rattle.market_messages.specs.ouch_codec.Values.{decoded};
ghost use Rattle.outstanding.specs.order_law.Headline.{EachWith, Headline};
ghost use Rattle.outstanding.specs.order_law.History.{Came, Heard, OrderHistory, Terms};
ghost use Rattle.order_machine.specs.Runs.{IsTableRun, NumbersLeft};
ghost use Rattle.order_core.specs.Runs.{AreKnown, IsFor, run_history, is_known_client, outcome_turn, turn_of_outcome};
ghost use Rattle.to_market.specs.PortsSeen.{port_seen};
ghost use Rattle.to_market.specs.TermsSeen.{terms_seen};
ghost use Rattle.order_core.specs.State.{IsAfterTurns, core_clients, CoreHasRoom, IsCoreClient, CoreKeeps};

use crate::market_error::MarketError;
use crate::order_core::OrderCore;
use fix_types::{AppBody, AppMsg};
use ouch_codec::Inbound;
use std::alloc::{AllocError, Global};
use std::hash::BuildHasher;
use to_market::{ClientTerms, PortState};

/// What comes to the order level.
#[derive(Drop)]
pub enum Event {
    /// A message of a client, whose port stands so.
    Came {
        client: u16,
        message: AppMsg,
        port: PortState,
    },
    /// A payload that the session of a port gave.
    Heard {
        port: u16,
        payload: Vec<u8>,
    },
}

/// The result of an event.
#[derive(Drop)]
pub struct Outcome {
    /// Whom the bodies are for: the client whose message came; of a payload `None` where there are none.
    pub client: Option<u16>,
    /// For that client, in order.
    pub bodies: Vec<AppBody>,
    /// For the client's port, in order.
    pub sends: Vec<Inbound>,
    /// The number of the fault that a payload is, 1 to 4.
    pub fault: Option<u8>,
}

/// Steps an event. `AllocError` leaves the machine as it was.
pub fn step<S: BuildHasher + Drop>(
    core: &mut OrderCore<S>,
    alloc: Global,
    event: &Event,
) -> Result<Outcome, AllocError>
    requires client { is_known_client (core_clients core.old) event.now ≡ true }
    requires room { CoreHasRoom core.old }
    ensures after { IfOk result (λ outcome. (terms : List Terms) (before : OrderHistory)
        → NumbersLeft before → IsAfterTurns terms before core.old
        → IsAfterTurns terms (turn_of_outcome event.now outcome ∷ before) core.new) }
    ensures headline { IfOk result (λ outcome. (terms : List Terms) (before : OrderHistory)
        → NumbersLeft before → IsAfterTurns terms before core.old
        → Headline terms (turn_of_outcome event.now outcome ∷ before)) }
    ensures whom { IfOk result (λ outcome. IsFor event.now outcome) }
    ensures keeps { CoreKeeps core.old core.new }
    ensures settled { core.new.settled ≡ core.old.settled }
    ensures err { OnErr result (core.new ≡ core.old) }
{
    match event {
        Event::Came {
            client,
            message,
            port,
        } => client_outcome(core, alloc, *client, message, *port),
        Event::Heard { port, payload } => market_outcome(core, alloc, *port, payload.as_slice()),
    }
}

/// The result of a client's message.
fn client_outcome<S: BuildHasher + Drop>(
    core: &mut OrderCore<S>,
    alloc: Global,
    client: u16,
    message: &AppMsg,
    port: PortState,
) -> Result<Outcome, AllocError>
    requires client { IsCoreClient core.old client }
    requires room { CoreHasRoom core.old }
    ensures after { IfOk result (λ outcome. (terms : List Terms) (before : OrderHistory)
        → NumbersLeft before → IsAfterTurns terms before core.old
        → IsAfterTurns terms (outcome_turn (Came client (message_fields message.now) (port_seen port)) outcome
        ∷ before) core.new) }
    ensures headline { IfOk result (λ outcome. (terms : List Terms) (before : OrderHistory)
        → NumbersLeft before → IsAfterTurns terms before core.old
        → Headline terms (outcome_turn (Came client (message_fields message.now) (port_seen port)) outcome ∷ before)) }
    ensures whom { IfOk result (λ outcome. outcome.client ≡ Some client) }
    ensures keeps { CoreKeeps core.old core.new }
    ensures settled { core.new.settled ≡ core.old.settled }
    ensures err { OnErr result (core.new ≡ core.old) }
{
    let out = core.client(alloc, client, message, port)?;
    Ok(Outcome {
        client: Some(client),
        bodies: out.bodies,
        sends: out.sends,
        fault: None,
    })
}

/// The result of a payload.
fn market_outcome<S: BuildHasher + Drop>(
    core: &mut OrderCore<S>,
    alloc: Global,
    port: u16,
    payload: &[u8],
) -> Result<Outcome, AllocError>
    requires room { CoreHasRoom core.old }
    ensures after { IfOk result (λ outcome. (terms : List Terms) (before : OrderHistory)
        → NumbersLeft before → IsAfterTurns terms before core.old
        → IsAfterTurns terms (outcome_turn (Heard port (decoded payload.now)) outcome ∷ before) core.new) }
    ensures headline { IfOk result (λ outcome. (terms : List Terms) (before : OrderHistory)
        → NumbersLeft before → IsAfterTurns terms before core.old
        → Headline terms (outcome_turn (Heard port (decoded payload.now)) outcome ∷ before)) }
    ensures whom { IfOk result (λ outcome. outcome.bodies.items ≡ [] → outcome.client ≡ None) }
    ensures keeps { CoreKeeps core.old core.new }
    ensures settled { core.new.settled ≡ core.old.settled }
    ensures err { OnErr result (core.new ≡ core.old) }
{
    match core.market(alloc, port, payload) {
        Ok(out) => Ok(Outcome {
            client: out.client,
            bodies: out.bodies,
            sends: Vec::new(alloc),
            fault: None,
        }),
        Err(MarketError::NoMemory) => Err(AllocError),
        Err(MarketError::Faulty(fault)) => Ok(Outcome {
            client: None,
            bodies: Vec::new(alloc),
            sends: Vec::new(alloc),
            fault: Some(fault.number()),
        }),
    }
}

/// The results of these events, one after another from no order on, for clients with these terms.
///
/// Each outcome is exactly what the table's step gives, and after each of them the headline holds of all turns so far,
/// whatever the messages and payloads are. Each says whom its bodies are for.
pub fn run(
    alloc: Global,
    terms: &[ClientTerms],
    events: &[Event],
) -> Result<Vec<Outcome>, AllocError>
    requires clients { AreKnown (length terms.now) events.now }
    requires numbers { NumbersLeft events.now }
    ensures count { IfOk result (λ outcomes. length outcomes.items ≡ length events.now) }
    ensures exact { IfOk result (λ outcomes. IsTableRun (map terms_seen terms.now)
        (run_history events.now outcomes.items)) }
    ensures headline { IfOk result (λ outcomes. Headline (map terms_seen terms.now)
        (run_history events.now outcomes.items)) }
    ensures whom { IfOk result (λ outcomes. EachWith IsFor events.now outcomes.items) }
{
    let mut core = OrderCore::new(alloc, terms)?;
    let mut outcomes = Vec::new(alloc);
    for event in events {
        core.settle();
        let outcome = step(&mut core, alloc, event)?;
        outcomes.push(outcome)?;
    }
    Ok(outcomes)
}
