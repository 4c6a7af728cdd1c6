//! New orders: their results are put into the table.

ghost use Rattle.std.specs.Prelude.{◌≡◌, ◌≤◌, ◌+◌, ◌++◌, ◌∷◌, [], length, IfOk, OnErr};
ghost use Rattle.fix_types.specs.NewOrder.{new_order_fields};
ghost use Rattle.to_market.specs.PortsSeen.{port_seen};

use super::requests::one_body;
use super::{OrderLedger, terms_at};
use crate::ledger_turns::ClientTurn;
use crate::used_ids::UsedId;
use fix_types::{AppBody, NewOrder};
use fix_values::ClOrdId;
use order_table::GivenToken;
use orders::Order;
use std::alloc::{AllocError, Global};
use std::hash::BuildHasher;
use to_market::{AcceptedOrder, PortState, Sender, accept, refuse, verdict};

impl<S: BuildHasher + Drop> OrderLedger<S> {
    ghost use Rattle.order_core.specs.LedgerMeets.{MeetsFields};
    ghost use Rattle.order_core.specs.LedgerState.{IsClient, HasRoom, Keeps};
    ghost use Rattle.to_market.specs.NewTurns.{IsEntering, with_order};

    /// A new order of a client.
    pub(super) fn new_order(
        &mut self,
        alloc: Global,
        client: u16,
        order: &NewOrder,
        port: PortState,
    ) -> Result<ClientTurn, AllocError>
        requires client { IsClient self.old.now client }
        requires room { HasRoom self.old.now }
        ensures meets { IfOk result (λ turn. MeetsFields self.old.now client (new_order_fields order.now)
            (port_seen port) turn self.new.now) }
        ensures few { IfOk result (λ turn. length turn.asks.items ≤ 5) }
        ensures keeps { Keeps self.old.now self.new.now }
        ensures settled { self.new.settled ≡ self.old.settled }
        ensures err { OnErr result (self.new ≡ self.old) }
    {
        let terms = terms_at(&self.terms, client);
        let sender = Sender {
            client,
            terms,
            port,
        };
        let id = &order.cl_ord_id;
        let is_duplicate = self.used.is_used(client, id);
        let (order_ids, exec_ids) = (self.order_ids, self.exec_ids);
        match verdict(&self.table, &sender, is_duplicate, order) {
            Err(row) => {
                let body = refuse(alloc, order_ids, exec_ids, order, row)?;
                self.refuse_new(alloc, client, id, body)
            }
            Ok(enter) => {
                let table = &self.table;
                let accepted = accept(alloc, order_ids, exec_ids, table, &sender, order, enter)?;
                self.accept_new(alloc, &sender, order, accepted)
            }
        }
    }

    /// Refuses a new order, in this report: its ClOrdID is used up, and one OrderID and one ExecID are given.
    fn refuse_new(
        &mut self,
        alloc: Global,
        client: u16,
        id: &ClOrdId,
        body: AppBody,
    ) -> Result<ClientTurn, AllocError>
        requires { HasRoom self.old.now }
        ensures bodies { IfOk result (λ turn. turn.bodies.items ≡ body ∷ []) }
        ensures asks { IfOk result (λ turn. turn.asks.items ≡ []) }
        ensures order_id { IfOk result (λ turn. turn.order_id ≡ 0) }
        ensures used { IfOk result (λ turn. self.new.now ≡ record self.old.now {
          used = self.old.now.used ++ record { client = client; id = id.now } ∷ [];
          order_ids = self.old.now.order_ids + 1;
          exec_ids = self.old.now.exec_ids + 1;
        }) }
        ensures keeps { Keeps self.old.now self.new.now }
        ensures settled { self.new.settled ≡ self.old.settled }
        ensures err { OnErr result (self.new ≡ self.old) }
    {
        let bodies = one_body(alloc, body)?;
        let cl_ord_id = ClOrdId::copied(alloc, id.as_slice())?;
        self.used.reserve_push()?;
        self.used.push(UsedId::new(client, cl_ord_id));
        self.order_ids += 1;
        self.exec_ids += 1;
        Ok(ClientTurn {
            bodies,
            order_id: 0,
            asks: Vec::new(alloc),
        })
    }

    /// Keeps an accepted new order with its token, and tells its client that it waits.
    fn accept_new(
        &mut self,
        alloc: Global,
        sender: &Sender,
        message: &NewOrder,
        accepted: AcceptedOrder,
    ) -> Result<ClientTurn, AllocError>
        requires room { HasRoom self.old.now }
        requires is { IsEntering self.old.now sender.now (new_order_fields message.now) accepted.order_id accepted.order
            accepted.given accepted.bodies.items accepted.asks.items }
        ensures meets { IfOk result (λ turn. MeetsFields self.old.now sender.now.client (new_order_fields message.now)
            (port_seen sender.now.port) turn self.new.now) }
        ensures few { IfOk result (λ turn. length turn.asks.items ≤ 5) }
        ensures keeps { Keeps self.old.now self.new.now }
        ensures settled { self.new.settled ≡ self.old.settled }
        ensures err { OnErr result (self.new ≡ self.old) }
    {
        let cl_ord_id = ClOrdId::copied(alloc, message.cl_ord_id.as_slice())?;
        let AcceptedOrder {
            order_id,
            order,
            given,
            bodies,
            asks,
        } = accepted;
        self.keep(order, given, UsedId::new(sender.client, cl_ord_id))?;
        Ok(ClientTurn {
            bodies,
            order_id,
            asks,
        })
    }

    /// Keeps an accepted new order with its token, and its ClOrdID as used: one OrderID and one report more were given.
    fn keep(&mut self, order: Order, given: GivenToken, id: UsedId) -> Result<(), AllocError>
        requires room { HasRoom self.old.now }
        requires few { length order.tokens ≤ 1 }
        requires none { order.replaces ≡ [] }
        ensures kept { IfOk result (λ nothing. self.new.now ≡ with_order id order given self.old.now) }
        ensures keeps { Keeps self.old.now self.new.now }
        ensures settled { self.new.settled ≡ self.old.settled }
        ensures err { OnErr result (self.new ≡ self.old) }
    {
        self.used.reserve_push()?;
        self.table.add(order, given)?;
        self.used.push(id);
        self.order_ids += 1;
        self.exec_ids += 1;
        Ok(())
    }
}
