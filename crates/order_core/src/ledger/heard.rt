//! What a payload of the market changes.

ghost use Rattle.std.specs.Prelude.{◌≡◌, ◌≤◌, ◌+◌, ◌<◌, [], None, length, map, IfOk, OnErr};
ghost use Rattle.std.specs.List.{count_by};
ghost use Rattle.fix_types.specs.Application.{body_fields};
ghost use Rattle.to_market.specs.order_law.History.{Entry};
ghost use Rattle.to_market.specs.order_law.Told.{told_of_entry};
ghost use Rattle.order_core.specs.Seen.{client_seen, tells_report};

use super::OrderLedger;
use crate::ledger_turns::{ChangedOrder, MarketTurn};
use crate::market_error::MarketError;
use fix_types::AppBody;
use market_messages::{Judged, hear};
use ouch_codec::{DecodeRefusal, Outbound};
use std::alloc::Global;
use std::hash::BuildHasher;

impl<S: BuildHasher + Drop> OrderLedger<S> {
    ghost use Rattle.order_machine.specs.Machine.{market_step};
    ghost use Rattle.order_core.specs.LedgerState.{HasRoom, Keeps};
    ghost use Rattle.order_core.specs.LedgerMeets.{ChangesAny, MeetsMarket};

    /// Steps a payload that a market port's session gave, by what it is decoded as.
    ///
    /// What the market says of an order changes it and is reported to its client, in order. Any fault leaves the ledger
    /// as it was. The faults, the first that holds: `OutsideProfile` (a type that isn't known), `Undecodable`
    /// (another length than its type's, a field outside its set, or no byte at all), `UnknownToken` (no order of this
    /// port has it), `NotLawful` (it doesn't fit how the order stands).
    ///
    /// Source: OUCH 4.2, "Outbound Messages".
    pub fn market(
        &mut self,
        alloc: Global,
        port: u16,
        heard: &Result<Outbound, DecodeRefusal>,
    ) -> Result<MarketTurn, MarketError>
        requires room { HasRoom self.old.now }
        ensures meets { MeetsMarket self.old.now (market_step self.old.now port heard.now) result self.new.now }
        ensures changed { IfOk result (λ turn. ChangesAny self.old.now port heard.now turn.changed) }
        ensures nobody { IfOk result (λ turn. turn.bodies.items ≡ [] → turn.client ≡ None) }
        ensures keeps { Keeps self.old.now self.new.now }
        ensures settled { self.new.settled ≡ self.old.settled }
        ensures err { OnErr result (self.new ≡ self.old) }
    {
        match hear(alloc, self.exec_ids, &self.table, port, heard)? {
            Judged::Silent => Ok(MarketTurn::nothing(alloc)),
            Judged::Faulty(fault) => Err(MarketError::Faulty(fault)),
            Judged::Told {
                order_id,
                client,
                next,
                heard,
            } => {
                let reports = report_count(&heard.bodies);
                let client = told_client(client, &heard.bodies);
                let is_closed = self.table.apply(alloc, order_id, heard.change)?;
                self.exec_ids += reports as u64;
                Ok(MarketTurn {
                    client,
                    bodies: heard.bodies,
                    changed: Some(ChangedOrder {
                        order_id,
                        is_closed,
                        next,
                    }),
                })
            }
        }
    }
}

/// Whom bodies of an order's client are for: nobody, where there are none.
fn told_client(client: u16, bodies: &[AppBody]) -> Option<u16>
    ensures seen { (new : Entry) → new.client ≡ client
        → client_seen result ≡ (told_of_entry new (map body_fields bodies.now)).client }
    ensures nobody { bodies.now ≡ [] → result ≡ None }
{
    if bodies.is_empty() {
        return None;
    }
    Some(client)
}

/// How many of these bodies are reports, which have ExecIDs.
fn report_count(bodies: &[AppBody]) -> usize
    ensures count { result ≡ count_by tells_report bodies.now }
    ensures few { result ≤ length bodies.now }
{
    let [body, rest @ ..] = bodies else {
        return 0;
    };
    let behind = report_count(rest);
    if is_report(body) { 1 + behind } else { behind }
}

/// Whether a body is a report.
#[tactic(auto, unfolding(crate::specs::Seen::tells_report))]
fn is_report(body: &AppBody) -> bool
    ensures { result ≡ tells_report body.now }
{
    match body {
        AppBody::Report(_) => true,
        AppBody::CancelReject(_) => false,
    }
}
