//! The value, and how a client's message steps it.

mod heard;
mod new_order;
mod requests;

ghost use Rattle.std.specs.Prelude.{◌≡◌, ◌≤◌, ◌<◌, length, map, slice_get, Some, IfOk, OnErr};
ghost use Rattle.to_market.specs.order_law.History.{terms_of};
ghost use Rattle.to_market.specs.TermsSeen.{terms_seen};

use crate::ledger_turns::ClientTurn;
use crate::used_ids::UsedIds;
use fix_types::AppMsg;
use order_table::Table;
use std::alloc::{AllocError, Global};
use std::hash::{BuildHasher, BuildHasherDefault, FoldHasher};
use std::marker::Model;
use to_market::{ClientTerms, PortState};

/// The orders of all clients, the ClOrdIDs that they used, and the numbers that were given.
///
/// Clients are numbered from 1, in the order of their terms. OrderIDs, ExecIDs and token numbers each count from 1.
/// Contracts see it as it is now and as it was settled: `undo` puts back what was there at the last `settle`, and the
/// ledger with no orders where there was none.
///
/// ClOrdIDs are found by indexes over any hasher, which changes nothing but how fast they are found.
pub struct OrderLedger<S: BuildHasher + Drop = BuildHasherDefault<FoldHasher>> {
    terms: Vec<ClientTerms>,
    table: Table<S>,
    used: UsedIds<S>,
    /// How many new orders came: the last OrderID given.
    order_ids: u64,
    /// How many reports were issued: the last ExecID given.
    exec_ids: u64,
    /// Both numbers as they were settled.
    settled_order_ids: u64,
    settled_exec_ids: u64,
}

// Not derived: then each way out drops it in one call (docs/DECISIONS.md, "Drops").
impl<S: BuildHasher + Drop> Drop for OrderLedger<S> {
    fn drop(self) {
        let OrderLedger {
            terms: _,
            table: _,
            used: _,
            order_ids: _,
            exec_ids: _,
            settled_order_ids: _,
            settled_exec_ids: _,
        } = self;
    }
}

impl<S: BuildHasher + Drop> Model for OrderLedger<S> {
    ghost use Rattle.std.specs.Prelude.{map};
    ghost use Rattle.order_core.specs.LedgerState as state;
    ghost use Rattle.to_market.specs.TermsSeen.{terms_seen};

    ghost Value = { state.LedgerState };

    ghost view = { λ c. record {
      now = record {
        terms = map terms_seen c.terms.items;
        orders = c.table.orders;
        tokens = c.table.tokens;
        used = c.used.now;
        order_ids = c.order_ids;
        exec_ids = c.exec_ids;
      };
      settled = record {
        terms = map terms_seen c.terms.items;
        orders = c.table.settled.orders;
        tokens = c.table.settled.tokens;
        used = c.used.settled;
        order_ids = c.settled_order_ids;
        exec_ids = c.settled_exec_ids;
      };
    } };
}

impl OrderLedger {
    ghost use Rattle.order_machine.specs.Table.{table_without_orders};

    /// The ledger of these clients, with no orders, with the fixed seed.
    pub fn new(alloc: Global, terms: &[ClientTerms]) -> Result<OrderLedger, AllocError>
        ensures now { IfOk result (λ ledger. ledger.now ≡ table_without_orders (map terms_seen terms.now)) }
        ensures settled { IfOk result (λ ledger. ledger.settled ≡ ledger.now) }
    {
        Ok(OrderLedger {
            terms: Vec::from_slice(alloc, terms)?,
            table: Table::new(alloc),
            used: UsedIds::new(alloc),
            order_ids: 0,
            exec_ids: 0,
            settled_order_ids: 0,
            settled_exec_ids: 0,
        })
    }
}

impl<S: BuildHasher + Clone + Drop> OrderLedger<S> {
    ghost use Rattle.order_machine.specs.Table.{table_without_orders};

    /// The ledger of these clients, with no orders, with a hasher.
    pub fn with_hasher(
        alloc: Global,
        hasher: S,
        terms: &[ClientTerms],
    ) -> Result<OrderLedger<S>, AllocError>
        ensures now { IfOk result (λ ledger. ledger.now ≡ table_without_orders (map terms_seen terms.now)) }
        ensures settled { IfOk result (λ ledger. ledger.settled ≡ ledger.now) }
    {
        let ids = hasher.clone()?;
        Ok(OrderLedger {
            terms: Vec::from_slice(alloc, terms)?,
            table: Table::with_hasher(alloc, hasher),
            used: UsedIds::with_hasher(alloc, ids),
            order_ids: 0,
            exec_ids: 0,
            settled_order_ids: 0,
            settled_exec_ids: 0,
        })
    }
}

impl<S: BuildHasher + Drop> OrderLedger<S> {
    ghost use Rattle.to_market.specs.order_law.History.{terms_of};
    ghost use Rattle.std.specs.Prelude.{option_map};
    ghost use Rattle.order_machine.specs.OrderRecord.{OrderRecord};
    ghost use Rattle.order_machine.specs.Table.{open_count, record_by_token};
    ghost use Rattle.to_market.specs.order_table.Sums.{executed_sum, value_sum};
    ghost use Rattle.to_market.specs.PortsSeen.{port_seen};
    ghost use Rattle.to_market.specs.TermsSeen.{terms_seen};
    ghost use Rattle.order_core.specs.LedgerMeets.{MeetsMessage};
    ghost use Rattle.order_core.specs.LedgerState.{IsClient, HasRoom, Keeps};

    /// The number of a client's port, from 1.
    pub fn port_of(&self, client: u16) -> u16
        requires { IsClient self.now.now client }
        ensures { result ≡ (terms_of self.now.now.terms client).port }
    {
        terms_at(&self.terms, client).port
    }

    /// The number of the client of the order that a token of a port leads to, from 1.
    pub fn client_of_token(&self, port: u16, token: &[u8; 14]) -> Option<u16>
        ensures { result
            ≡ option_map (λ (o : OrderRecord). o.new.client) (record_by_token self.now.now port token.now) }
    {
        match self.table.by_token(port, token) {
            None => None,
            Some(order) => Some(order.client),
        }
    }

    /// How many orders of a client aren't closed. Takes no memory.
    pub fn open_count(&self, client: u16) -> usize
        ensures { result ≡ open_count self.now.now.orders client }
    {
        self.table.open_count(client)
    }

    /// CumQty (14) of a client's orders in sum, in shares. Takes no memory.
    pub fn executed_shares(&self, client: u16) -> u128
        ensures { result ≡ executed_sum self.now.now.orders client }
    {
        self.table.executed_shares(client)
    }

    /// Shares times price of the trades of a client's orders that stand, in sum, in 1/10,000. Takes no memory.
    pub fn executed_value(&self, client: u16) -> u128
        ensures { result ≡ value_sum self.now.now.orders client }
    {
        self.table.executed_value(client)
    }

    /// Steps an application message of a client, whose port stands as given. The client is one of the terms'.
    ///
    /// A new order, a cancel or a replace is accepted, with a report and the messages that ask it of the market, be
    /// the port up or not; or it is refused by the first row of its table that holds, in one report or reject.
    /// `AllocError` leaves the ledger as it was.
    ///
    /// Source: FIX 4.4 Volume 4, "New Order - Single", "Order Cancel Request", "Order Cancel/Replace Request".
    pub fn client(
        &mut self,
        alloc: Global,
        client: u16,
        message: &AppMsg,
        port: PortState,
    ) -> Result<ClientTurn, AllocError>
        requires client { IsClient self.old.now client }
        requires room { HasRoom self.old.now }
        ensures meets { IfOk result (λ turn. MeetsMessage self.old.now client message.now (port_seen port) turn
            self.new.now) }
        ensures few { IfOk result (λ turn. length turn.asks.items ≤ 5) }
        ensures keeps { Keeps self.old.now self.new.now }
        ensures settled { self.new.settled ≡ self.old.settled }
        ensures err { OnErr result (self.new ≡ self.old) }
    {
        match message {
            AppMsg::New(order) => self.new_order(alloc, client, order, port),
            AppMsg::Cancel(request) => self.cancel(alloc, client, request, port),
            AppMsg::Replace(request) => self.replace(alloc, client, request, port),
        }
    }

    /// From now on the ledger is put back to how it is now. Takes no memory.
    pub fn settle(&mut self)
        ensures { self.new ≡ record self.old { settled = self.old.now } }
    {
        self.table.settle();
        self.used.settle();
        self.settled_order_ids = self.order_ids;
        self.settled_exec_ids = self.exec_ids;
    }

    /// Puts the ledger back to how it was settled. Takes no memory.
    pub fn undo(&mut self)
        ensures { self.new ≡ record self.old { now = self.old.settled } }
    {
        self.table.undo();
        self.used.undo();
        self.order_ids = self.settled_order_ids;
        self.exec_ids = self.settled_exec_ids;
    }
}

/// The terms of a client.
fn terms_at(terms: &[ClientTerms], client: u16) -> ClientTerms
    requires from_one { 1 ≤ client }
    requires known { client ≤ length terms.now }
    ensures { terms_of (map terms_seen terms.now) client ≡ terms_seen result }
{
    terms_in(terms, client as usize - 1)
}

/// The terms at a place.
fn terms_in(terms: &[ClientTerms], place: usize) -> ClientTerms
    requires { place < length terms.now }
    ensures { slice_get terms.now place ≡ Some result }
{
    terms[place]
}
