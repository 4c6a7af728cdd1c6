//! The orders that were accepted, by the reports of the batches alone.

ghost use Rattle.std.specs.Prelude.{◌≡◌, ◌∷◌, ◌++◌, [], List, IfOk, map, reverse};
ghost use Rattle.gate_events.specs.Seen.{batch_seen};
ghost use Rattle.gate_journal.specs.Kept.{turns};
ghost use Rattle.gate_audit.specs.Accepted.{AreAccepted, accepted_by};
ghost use Rattle.gate_audit.specs.Pairs.{SaidToClient, said_to};
ghost use Rattle.gate_audit.specs.Passes.{told_more, told_whole};

use crate::order_reading::OrderReading;
use crate::reports::{opens_order, text};
use fix_fields::{Fields, Text};
use gate_core::{Batch, IssuedReport};
use gate_journal::History;
use order_accounts::Reading;
use std::alloc::{AllocError, Global};

/// The orders that were accepted so far, of which nothing was read.
#[derive(Drop)]
pub struct AcceptedOrders {
    /// The oldest first.
    pub orders: Vec<OrderReading>,
}

impl AcceptedOrders {
    /// Before any report.
    fn new(alloc: Global) -> AcceptedOrders
        ensures { AreAccepted [] result }
    {
        AcceptedOrders {
            orders: Vec::new(alloc),
        }
    }

    /// What a batch told.
    pub fn take(&mut self, alloc: Global, batch: &Batch) -> Result<(), AllocError>
        ensures { IfOk result (λ u. (all : List SaidToClient) → AreAccepted all self.old
            → AreAccepted (told_more (batch_seen batch.now) all) self.new) }
    {
        match batch.client {
            Some(client) => self.hear_all(alloc, client.number(), &batch.reports),
            None => Ok(()),
        }
    }

    /// What a client was told.
    fn hear_all(
        &mut self,
        alloc: Global,
        client: u16,
        reports: &[IssuedReport],
    ) -> Result<(), AllocError>
        ensures { IfOk result (λ u. (all : List SaidToClient) → AreAccepted all self.old
            → AreAccepted (reverse (map (said_to client) reports.now) ++ all) self.new) }
    {
        for report in reports {
            let fields = report.to_fields(alloc)?;
            self.hear(alloc, client, &fields)?;
        }
        Ok(())
    }

    /// One report or reject more.
    fn hear(&mut self, alloc: Global, client: u16, report: &Fields) -> Result<(), AllocError>
        ensures { IfOk result (λ u. (all : List SaidToClient) → AreAccepted all self.old
            → AreAccepted (said_to client report.now ∷ all) self.new) }
    {
        if opens_order(report) {
            self.orders.push(accepted(alloc, client, report)?)?;
        }
        Ok(())
    }
}

/// The orders that the reports of a history opened, the oldest first, of which nothing was read.
///
/// Source: FIX 4.4 Volume 6, "ExecType".
pub fn accepted_of(alloc: Global, history: &History) -> Result<AcceptedOrders, AllocError>
    ensures { IfOk result (AreAccepted (told_whole (turns history.now))) }
{
    let mut accepted = AcceptedOrders::new(alloc);
    let mut ahead = history.turns();
    while let Some((_, batch, behind)) = ahead.split_first(alloc)? {
        accepted.take(alloc, &batch)?;
        ahead = behind;
    }
    Ok(accepted)
}

/// The order that this report to a client opens.
fn accepted(alloc: Global, client: u16, report: &Fields) -> Result<OrderReading, AllocError>
    ensures { IfOk result (λ order. order ≡ accepted_by (said_to client report.now)) }
{
    Ok(OrderReading {
        client,
        order: Text::copied(alloc, text(report, 37))?,
        id: Text::copied(alloc, text(report, 11))?,
        reading: Reading::unread(alloc),
    })
}
