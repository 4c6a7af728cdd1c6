//! The value, and the calls that step it.

ghost use Rattle.std.specs.Prelude.{◌≡◌, length, map, IfOk, MatchOption, None, OnErr, ◌∷◌, [], List};
ghost use Rattle.market_messages.specs.ouch_codec.Values.{decoded};
ghost use Rattle.outstanding.specs.order_law.Lawful.{token_of_heard};
ghost use Rattle.market_messages.specs.ouch_codec.Inbound.{inbound_bytes};
ghost use Rattle.to_market.specs.PortsSeen.{port_seen};
ghost use Rattle.order_core.specs.Meets.{left_after, sent_of};
ghost use Rattle.order_machine.specs.Runs.{NumbersLeft};

use crate::ledger::OrderLedger;
use crate::ledger_turns::ChangedOrder;
use crate::market_error::MarketError;
use crate::outcome::{CoreOut, MarketOut};
use fix_types::AppMsg;
use ouch_codec::{DecodeRefusal, Inbound, Outbound, decode};
use outstanding::AskedMessages;
use std::alloc::{AllocError, Global};
use std::hash::{BuildHasher, BuildHasherDefault, FoldHasher};
use std::marker::Model;
use to_market::{ClientTerms, PortState};

/// The orders of all clients, and what the ports were asked of them and haven't answered.
///
/// Clients are numbered from 1, in the order of their terms. OrderIDs, ExecIDs and token numbers each count from 1.
/// `undo` puts back what was there at the last `settle`, and takes no memory: so where a step that this is part of
/// can't be finished, be it for lack of memory elsewhere, the order level is as before it. What is changed is kept
/// beside what it became until the next `settle`.
///
/// ClOrdIDs are found by indexes over any hasher, which changes nothing but how fast they are found.
pub struct OrderCore<S: BuildHasher + Drop = BuildHasherDefault<FoldHasher>> {
    ledger: OrderLedger<S>,
    asked: AskedMessages,
}

// Not derived: then each way out drops it in one call (docs/DECISIONS.md, "Drops").
impl<S: BuildHasher + Drop> Drop for OrderCore<S> {
    fn drop(self) {
        let OrderCore {
            ledger: _,
            asked: _,
        } = self;
    }
}

impl<S: BuildHasher + Drop> Model for OrderCore<S> {
    ghost use Rattle.order_core.specs.State as state;

    ghost Value = { state.OrderCoreState };

    ghost view = { λ c. record {
      table = c.ledger.now;
      kept = c.asked.messages;
      settled = record { table = c.ledger.settled; kept = c.asked.settled };
    } };
}

impl OrderCore {
    ghost use Rattle.to_market.specs.TermsSeen.{terms_seen};
    ghost use Rattle.order_core.specs.State.{IsAfterTurns, core_clients, core_numbers, core_put_back};

    /// The order level of these clients, with no orders, with the fixed seed.
    pub fn new(alloc: Global, terms: &[ClientTerms]) -> Result<OrderCore, AllocError>
        ensures clients { IfOk result (λ core. core_clients core ≡ length terms.now) }
        ensures issued { IfOk result (λ core. core_numbers core ≡ 0) }
        ensures after { IfOk result (λ core. IsAfterTurns (map terms_seen terms.now) [] core) }
        ensures settled { IfOk result (λ core. core_put_back core ≡ core) }
    {
        Ok(OrderCore {
            ledger: OrderLedger::new(alloc, terms)?,
            asked: AskedMessages::new(alloc),
        })
    }
}

impl<S: BuildHasher + Clone + Drop> OrderCore<S> {
    ghost use Rattle.to_market.specs.TermsSeen.{terms_seen};
    ghost use Rattle.order_core.specs.State.{IsAfterTurns, core_clients, core_numbers, core_put_back};

    /// The order level of these clients, with no orders, with a hasher.
    pub fn with_hasher(
        alloc: Global,
        hasher: S,
        terms: &[ClientTerms],
    ) -> Result<OrderCore<S>, AllocError>
        ensures clients { IfOk result (λ core. core_clients core ≡ length terms.now) }
        ensures issued { IfOk result (λ core. core_numbers core ≡ 0) }
        ensures after { IfOk result (λ core. IsAfterTurns (map terms_seen terms.now) [] core) }
        ensures settled { IfOk result (λ core. core_put_back core ≡ core) }
    {
        Ok(OrderCore {
            ledger: OrderLedger::with_hasher(alloc, hasher, terms)?,
            asked: AskedMessages::new(alloc),
        })
    }
}

impl<S: BuildHasher + Drop> OrderCore<S> {
    ghost use Rattle.outstanding.specs.order_law.Headline.{EachWith, Headline, SaysIn};
    ghost use Rattle.std.specs.Prelude.{option_map, option_and_then};
    ghost use Rattle.outstanding.specs.order_law.History.{Entry, OrderHistory, Terms, accepted, outstanding};
    ghost use Rattle.outstanding.specs.order_law.Lawful.{order_of_token};
    ghost use Rattle.outstanding.specs.order_law.Verdicts.{open_orders};
    ghost use Rattle.outstanding.specs.order_law.History.{issued};
    ghost use Rattle.order_core.specs.Meets.{MeetsClient, MeetsPayload};
    ghost use Rattle.order_core.specs.State.{IsAfterTurns, IsCoreClient, CoreHasRoom};
    ghost use Rattle.order_core.specs.State.{CoreKeeps, core_put_back, core_settled};
    ghost use Rattle.order_core.specs.Executed.{executed_shares, executed_value};
    ghost use Rattle.order_core.specs.Turns.{OfCall, client_turn};

    /// Steps an application message of a client, whose port stands as given. The client is one of the terms'.
    ///
    /// A new order, a cancel or a replace is accepted, with a report and, where the port is up, the messages that ask
    /// it of the market; or it is refused by the first row of its table that holds, in one report or reject. Where
    /// the port waits, what is asked is kept until it is up: `outstanding` has it. `AllocError` leaves the core as it
    /// was.
    ///
    /// Source: FIX 4.4 Volume 4, "New Order - Single", "Order Cancel Request", "Order Cancel/Replace Request".
    pub fn client(
        &mut self,
        alloc: Global,
        client: u16,
        message: &AppMsg,
        port: PortState,
    ) -> Result<CoreOut, AllocError>
        requires client { IsCoreClient self.old client }
        requires room { CoreHasRoom self.old }
        ensures after { IfOk result (λ out. (terms : List Terms) (before : OrderHistory)
            → NumbersLeft before → IsAfterTurns terms before self.old
            → IsAfterTurns terms (client_turn client message.now port out ∷ before) self.new) }
        ensures headline { IfOk result (λ out. (terms : List Terms) (before : OrderHistory)
            → NumbersLeft before → IsAfterTurns terms before self.old
            → Headline terms (client_turn client message.now port out ∷ before)) }
        ensures keeps { CoreKeeps self.old self.new }
        ensures settled { self.new.settled ≡ self.old.settled }
        ensures err { OnErr result (self.new ≡ self.old) }
    {
        self.client_step(alloc, client, message, port)
    }

    /// Steps a payload that a market port's session gave.
    ///
    /// What the market says of an order changes it and is reported to its client, in order; what it answers isn't
    /// outstanding any more. Any fault leaves the core as it was. The faults, the first that holds: `OutsideProfile`
    /// (a type that isn't known), `Undecodable` (another length than its type's, a field outside its set, or no byte
    /// at all), `UnknownToken` (no order of this port has it), `NotLawful` (it doesn't fit how the order stands).
    ///
    /// Source: OUCH 4.2, "Outbound Messages".
    pub fn market(
        &mut self,
        alloc: Global,
        port: u16,
        payload: &[u8],
    ) -> Result<MarketOut, MarketError>
        requires room { CoreHasRoom self.old }
        ensures after { OfCall port (decoded payload.now) result (λ turn. (terms : List Terms) (before : OrderHistory)
            → NumbersLeft before → IsAfterTurns terms before self.old
            → IsAfterTurns terms (turn ∷ before) self.new) }
        ensures headline { OfCall port (decoded payload.now) result
            (λ turn. (terms : List Terms) (before : OrderHistory)
            → NumbersLeft before → IsAfterTurns terms before self.old → Headline terms (turn ∷ before)) }
        ensures nobody { IfOk result (λ out. out.bodies.items ≡ [] → out.client ≡ None) }
        ensures keeps { CoreKeeps self.old self.new }
        ensures settled { self.new.settled ≡ self.old.settled }
        ensures err { OnErr result (self.new ≡ self.old) }
    {
        self.market_step(alloc, port, &decode(payload))
    }

    /// What a port was asked and no message that was handled has answered, in the order in which it was asked: to be
    /// sent once more when the port comes up. A message of an order that is closed isn't among them.
    ///
    /// Source: SoupBinTCP 3.00, "Login Request Packet"; OUCH 4.2, "Enter Order Message" (a token is taken once).
    pub fn outstanding(&self, alloc: Global, port: u16) -> Result<Vec<Inbound>, AllocError>
        ensures { IfOk result (λ messages. (terms : List Terms) (before : OrderHistory) → NumbersLeft before
            → IsAfterTurns terms before self.now
            → EachWith (SaysIn terms before port) (outstanding terms port before) (map inbound_bytes messages.items)) }
    {
        self.asked.on_port(alloc, port)
    }

    /// The number of the client whose order a payload of a market port is on, from 1: that of the token that the
    /// message goes by, be it lawful or not.
    ///
    /// Source: OUCH 4.2, "Outbound Messages" (Order Token).
    pub fn client_of(&self, port: u16, payload: &[u8]) -> Option<u16>
        ensures { (terms : List Terms) (before : OrderHistory) → NumbersLeft before
            → IsAfterTurns terms before self.now
            → result ≡ option_map (λ (new : Entry). new.client)
            (option_and_then (order_of_token terms port (accepted terms before))
            (token_of_heard (decoded payload.now))) }
    {
        let heard = decode(payload);
        match token_of(&heard) {
            Some(token) => self.ledger.client_of_token(port, token),
            None => None,
        }
    }

    /// How many orders of a client aren't closed, as its reports have them. Takes no memory, and no time that grows
    /// with orders.
    ///
    /// Source: FIX 4.4 Volume 4, "Execution Report" (LeavesQty, OrdStatus).
    pub fn open_count(&self, client: u16) -> usize
        ensures { (terms : List Terms) (before : OrderHistory) → NumbersLeft before
            → IsAfterTurns terms before self.now → result ≡ open_orders (issued client before) }
    {
        self.ledger.open_count(client)
    }

    /// What was executed of all of a client's orders, in shares, as its reports have it: a trade that was broken isn't
    /// among it. Takes no memory, and no time that grows with orders.
    ///
    /// Source: FIX 4.4 Volume 4, "Execution Report" (CumQty); Volume 6, ExecType (150), H Trade Cancel.
    pub fn executed_shares(&self, client: u16) -> u128
        ensures { (terms : List Terms) (before : OrderHistory) → NumbersLeft before
            → IsAfterTurns terms before self.now → result ≡ executed_shares (issued client before) }
    {
        self.ledger.executed_shares(client)
    }

    /// What those shares were traded for, in 1/10,000: shares times price of each trade that stands, in sum. Takes no
    /// memory, and no time that grows with orders.
    ///
    /// Source: FIX 4.4 Volume 4, "Execution Report" (LastQty, LastPx); Volume 6, ExecType (150), H Trade Cancel.
    pub fn executed_value(&self, client: u16) -> u128
        ensures { (terms : List Terms) (before : OrderHistory) → NumbersLeft before
            → IsAfterTurns terms before self.now → result ≡ executed_value (issued client before) }
    {
        self.ledger.executed_value(client)
    }

    /// From now on the order level is put back to how it is now: to be called before each step of whatever it is part
    /// of. Takes no memory.
    pub fn settle(&mut self)
        ensures { self.new ≡ core_settled self.old }
    {
        self.ledger.settle();
        self.asked.settle();
    }

    /// Puts the order level back to how it was settled: orders, tokens, ClOrdIDs that were used, numbers, and what is
    /// outstanding. Takes no memory.
    pub fn undo(&mut self)
        ensures { self.new ≡ core_put_back self.old }
    {
        self.ledger.undo();
        self.asked.undo();
    }

    /// The step of a client's message: on the ledger, and then what it asks is kept.
    fn client_step(
        &mut self,
        alloc: Global,
        client: u16,
        message: &AppMsg,
        port: PortState,
    ) -> Result<CoreOut, AllocError>
        requires client { IsCoreClient self.old client }
        requires room { CoreHasRoom self.old }
        ensures meets { IfOk result (λ out. MeetsClient self.old client message.now (port_seen port) out self.new) }
        ensures keeps { CoreKeeps self.old self.new }
        ensures settled { self.new.settled ≡ self.old.settled }
        ensures err { OnErr result (self.new ≡ self.old) }
    {
        self.asked.reserve(5)?;
        let its_port = self.ledger.port_of(client);
        let turn = self.ledger.client(alloc, client, message, port)?;
        self.asked
            .push_reserved(its_port, turn.order_id, &turn.asks);
        Ok(CoreOut {
            bodies: turn.bodies,
            sends: sent_now(alloc, turn.asks, port),
        })
    }

    /// The step of a payload: on the ledger, and then what it answers goes.
    fn market_step(
        &mut self,
        alloc: Global,
        port: u16,
        heard: &Result<Outbound, DecodeRefusal>,
    ) -> Result<MarketOut, MarketError>
        requires room { CoreHasRoom self.old }
        ensures meets { MeetsPayload self.old port heard.now result self.new }
        ensures nobody { IfOk result (λ out. out.bodies.items ≡ [] → out.client ≡ None) }
        ensures keeps { CoreKeeps self.old self.new }
        ensures settled { self.new.settled ≡ self.old.settled }
        ensures err { OnErr result (self.new ≡ self.old) }
    {
        let turn = self.ledger.market(alloc, port, heard)?;
        drop_answered(&mut self.asked, port, heard, turn.changed);
        Ok(MarketOut {
            client: turn.client,
            bodies: turn.bodies,
        })
    }
}

/// What goes out now: all that is asked, where the port is up.
fn sent_now(alloc: Global, asks: Vec<Inbound>, port: PortState) -> Vec<Inbound>
    ensures { result.items ≡ sent_of (port_seen port) asks.items }
{
    match port {
        PortState::Up => asks,
        PortState::Waiting | PortState::Ended | PortState::Faulted(_) => Vec::new(alloc),
    }
}

/// What a message that changed this order answers goes; any other payload answers nothing.
fn drop_answered(
    asked: &mut AskedMessages,
    port: u16,
    heard: &Result<Outbound, DecodeRefusal>,
    changed: Option<ChangedOrder>,
)
    ensures left { asked.new.messages ≡ left_after port heard.now changed asked.old.messages }
    ensures settled { asked.new.settled ≡ asked.old.settled }
{
    if let Some(changed) = changed
        && let Ok(message) = heard
    {
        let next = changed.next.as_slice();
        asked.answer(port, message, changed.order_id, changed.is_closed, next);
    }
}

/// The token that a payload's message is on, where it has one.
///
/// Source: OUCH 4.2, "Outbound Messages" (Order Token, Previous Order Token).
fn token_of(heard: &Result<Outbound, DecodeRefusal>) -> Option<&[u8; 14]>
    ensures { MatchOption result (token_of_heard heard.now ≡ None)
        (λ token. token_of_heard heard.now ≡ Some token.now) }
{
    match heard {
        Ok(message) => message.order_token(),
        Err(_) => None,
    }
}
