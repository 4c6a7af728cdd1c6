//! Cancels and replaces: their results are put into the table.

ghost use Rattle.std.specs.Prelude.{◌≡◌, ◌≤◌, ◌+◌, ◌++◌, ◌∷◌, [], length, IfOk, OnErr};
ghost use Rattle.fix_types.specs.CancelRequest.{cancel_request_fields};
ghost use Rattle.fix_types.specs.ReplaceRequest.{replace_request_fields};
ghost use Rattle.to_market.specs.PortsSeen.{port_seen};

use super::{OrderLedger, terms_at};
use crate::ledger_turns::ClientTurn;
use crate::used_ids::UsedId;
use fix_types::{AppBody, CancelRequest, ReplaceRequest};
use fix_values::ClOrdId;
use order_table::GivenToken;
use orders::{Cancelling, Replacing};
use ouch_codec::Inbound;
use std::alloc::{AllocError, Global};
use std::hash::BuildHasher;
use to_market::{CancelTurn, PortState, ReplaceTurn, Sender, on_cancel, on_replace};

impl<S: BuildHasher + Drop> OrderLedger<S> {
    ghost use Rattle.order_core.specs.LedgerMeets.{GoByNumbers, MeetsFields};
    ghost use Rattle.order_core.specs.LedgerState.{IsClient, HasRoom, Keeps};
    ghost use Rattle.to_market.specs.Turns.{IsCancelling, IsReplacing};

    /// A cancel of a client.
    pub(super) fn cancel(
        &mut self,
        alloc: Global,
        client: u16,
        request: &CancelRequest,
        port: PortState,
    ) -> Result<ClientTurn, AllocError>
        requires client { IsClient self.old.now client }
        requires room { HasRoom self.old.now }
        ensures meets { IfOk result (λ turn. GoByNumbers self.old.now
            → MeetsFields self.old.now client (cancel_request_fields request.now) (port_seen port) turn self.new.now) }
        ensures few { IfOk result (λ turn. length turn.asks.items ≤ 5) }
        ensures keeps { Keeps self.old.now self.new.now }
        ensures settled { self.new.settled ≡ self.old.settled }
        ensures err { OnErr result (self.new ≡ self.old) }
    {
        let terms = terms_at(&self.terms, client);
        let sender = Sender {
            client,
            terms,
            port,
        };
        let own_id = &request.cl_ord_id;
        let is_duplicate = self.used.is_used(client, own_id);
        let issued = self.exec_ids;
        match on_cancel(alloc, issued, &self.table, &sender, is_duplicate, request)? {
            CancelTurn::Refused(body) => self.refuse_request(alloc, client, own_id, body),
            CancelTurn::Accepted {
                order_id,
                cancelling,
                body,
                asks,
            } => self.accept_cancel(alloc, &sender, request, order_id, cancelling, body, asks),
        }
    }

    /// A replace of a client.
    pub(super) fn replace(
        &mut self,
        alloc: Global,
        client: u16,
        request: &ReplaceRequest,
        port: PortState,
    ) -> Result<ClientTurn, AllocError>
        requires client { IsClient self.old.now client }
        requires room { HasRoom self.old.now }
        ensures meets { IfOk result (λ turn. GoByNumbers self.old.now
            → MeetsFields self.old.now client (replace_request_fields request.now) (port_seen port) turn self.new.now) }
        ensures few { IfOk result (λ turn. length turn.asks.items ≤ 5) }
        ensures keeps { Keeps self.old.now self.new.now }
        ensures settled { self.new.settled ≡ self.old.settled }
        ensures err { OnErr result (self.new ≡ self.old) }
    {
        let terms = terms_at(&self.terms, client);
        let sender = Sender {
            client,
            terms,
            port,
        };
        let id = &request.cl_ord_id;
        let is_duplicate = self.used.is_used(client, id);
        let issued = self.exec_ids;
        match on_replace(alloc, issued, &self.table, &sender, is_duplicate, request)? {
            ReplaceTurn::Refused(body) => self.refuse_request(alloc, client, id, body),
            ReplaceTurn::Accepted {
                order_id,
                replacing,
                given,
                body,
                asks,
            } => {
                self.accept_replace(
                    alloc, &sender, request, order_id, replacing, given, body, asks,
                )
            }
        }
    }

    /// Refuses a request, in this reject: its ClOrdID is used up.
    fn refuse_request(
        &mut self,
        alloc: Global,
        client: u16,
        id: &ClOrdId,
        body: AppBody,
    ) -> Result<ClientTurn, AllocError>
        ensures bodies { IfOk result (λ turn. turn.bodies.items ≡ body ∷ []) }
        ensures asks { IfOk result (λ turn. turn.asks.items ≡ []) }
        ensures order_id { IfOk result (λ turn. turn.order_id ≡ 0) }
        ensures used { IfOk result (λ turn. self.new.now
            ≡ record self.old.now { used = self.old.now.used ++ record { client = client; id = id.now } ∷ [] }) }
        ensures settled { self.new.settled ≡ self.old.settled }
        ensures err { OnErr result (self.new ≡ self.old) }
    {
        let bodies = one_body(alloc, body)?;
        let cl_ord_id = ClOrdId::copied(alloc, id.as_slice())?;
        self.used.reserve_push()?;
        self.used.push(UsedId::new(client, cl_ord_id));
        Ok(ClientTurn {
            bodies,
            order_id: 0,
            asks: Vec::new(alloc),
        })
    }

    /// Keeps an accepted cancel, and tells its client that it is pending.
    fn accept_cancel(
        &mut self,
        alloc: Global,
        sender: &Sender,
        request: &CancelRequest,
        order_id: u64,
        cancelling: Cancelling,
        body: AppBody,
        asks: Vec<Inbound>,
    ) -> Result<ClientTurn, AllocError>
        requires room { HasRoom self.old.now }
        requires is { IsCancelling self.old.now sender.now
            (cancel_request_fields request.now) order_id cancelling body asks.items }
        ensures meets { IfOk result (λ turn. GoByNumbers self.old.now
            → MeetsFields self.old.now sender.now.client (cancel_request_fields request.now)
            (port_seen sender.now.port) turn self.new.now) }
        ensures few { IfOk result (λ turn. length turn.asks.items ≤ 5) }
        ensures keeps { Keeps self.old.now self.new.now }
        ensures settled { self.new.settled ≡ self.old.settled }
        ensures err { OnErr result (self.new ≡ self.old) }
    {
        let bodies = one_body(alloc, body)?;
        let cl_ord_id = ClOrdId::copied(alloc, request.cl_ord_id.as_slice())?;
        let client = sender.client;
        self.used.reserve_push()?;
        self.table.accept_cancel(alloc, order_id, cancelling)?;
        self.used.push(UsedId::new(client, cl_ord_id));
        self.exec_ids += 1;
        Ok(ClientTurn {
            bodies,
            order_id,
            asks,
        })
    }

    /// Keeps an accepted replace with its token, and tells its client that it is pending.
    fn accept_replace(
        &mut self,
        alloc: Global,
        sender: &Sender,
        request: &ReplaceRequest,
        order_id: u64,
        replacing: Replacing,
        given: GivenToken,
        body: AppBody,
        asks: Vec<Inbound>,
    ) -> Result<ClientTurn, AllocError>
        requires room { HasRoom self.old.now }
        requires is { IsReplacing self.old.now sender.now
            (replace_request_fields request.now) order_id replacing given body asks.items }
        ensures meets { IfOk result (λ turn. GoByNumbers self.old.now
            → MeetsFields self.old.now sender.now.client (replace_request_fields request.now)
            (port_seen sender.now.port) turn self.new.now) }
        ensures few { IfOk result (λ turn. length turn.asks.items ≤ 5) }
        ensures keeps { Keeps self.old.now self.new.now }
        ensures settled { self.new.settled ≡ self.old.settled }
        ensures err { OnErr result (self.new ≡ self.old) }
    {
        let bodies = one_body(alloc, body)?;
        let cl_ord_id = ClOrdId::copied(alloc, request.cl_ord_id.as_slice())?;
        let client = sender.client;
        self.used.reserve_push()?;
        self.table
            .accept_replace(alloc, order_id, replacing, given)?;
        self.used.push(UsedId::new(client, cl_ord_id));
        self.exec_ids += 1;
        Ok(ClientTurn {
            bodies,
            order_id,
            asks,
        })
    }
}

/// A list of one body.
pub(super) fn one_body(alloc: Global, body: AppBody) -> Result<Vec<AppBody>, AllocError>
    ensures { IfOk result (λ bodies. bodies.items ≡ body ∷ []) }
{
    let mut bodies = Vec::with_capacity(alloc, 1)?;
    bodies.push(body)?;
    Ok(bodies)
}
