//! What batches told clients, read once for all that is kept of it.

ghost use Rattle.std.specs.Prelude.{◌++◌, IfOk, IsErrOf, List, map, reverse};
ghost use Rattle.gate_events.specs.Seen.{batch_seen};
ghost use Rattle.gate_audit.specs.Counted.{IsOf};
ghost use Rattle.gate_audit.specs.Kept.{AreKept};
ghost use Rattle.gate_audit.specs.Pairs as read;
ghost use Rattle.gate_audit.specs.Pairs.{SaidToClient, said_to};
ghost use Rattle.gate_audit.specs.Passes.{told_more};

use crate::kept_readings::KeptReadings;
use crate::openings::Openings;
use gate_core::{Batch, IssuedReport};
use order_accounts::ReadingFault;
use std::alloc::Global;

/// What a batch told: the orders that it opened, and what is read of orders. `TooLarge` where it gives more tokens than
/// there are, or else `NoMemory`.
pub fn hear_batch(
    alloc: Global,
    batch: &Batch,
    openings: &mut Openings,
    readings: &mut KeptReadings,
) -> Result<(), ReadingFault>
    ensures opened { IfOk result (λ u. (all : List SaidToClient) → IsOf all openings.old
        → IsOf (told_more (batch_seen batch.now) all) openings.new) }
    ensures kept { IfOk result (λ u. (all : List SaidToClient) → AreKept all readings.old
        → AreKept (told_more (batch_seen batch.now) all) readings.new) }
    ensures large { (all : List SaidToClient) → IsOf all openings.old → IsErrOf result ReadingFault.TooLarge
        → read.HasTokenNumbers (told_more (batch_seen batch.now) all) → ⊥ }
{
    match batch.client {
        Some(client) => hear_all(alloc, client.number(), &batch.reports, openings, readings),
        None => Ok(()),
    }
}

/// What a client was told, each report read once.
fn hear_all(
    alloc: Global,
    client: u16,
    reports: &[IssuedReport],
    openings: &mut Openings,
    readings: &mut KeptReadings,
) -> Result<(), ReadingFault>
    ensures opened { IfOk result (λ u. (all : List SaidToClient) → IsOf all openings.old
        → IsOf (reverse (map (said_to client) reports.now) ++ all) openings.new) }
    ensures kept { IfOk result (λ u. (all : List SaidToClient) → AreKept all readings.old
        → AreKept (reverse (map (said_to client) reports.now) ++ all) readings.new) }
    ensures large { (all : List SaidToClient) → IsOf all openings.old → IsErrOf result ReadingFault.TooLarge
        → read.HasTokenNumbers (reverse (map (said_to client) reports.now) ++ all) → ⊥ }
{
    for report in reports {
        let fields = report.to_fields(alloc)?;
        openings.hear(alloc, client, &fields)?;
        readings.hear(alloc, client, &fields)?;
    }
    Ok(())
}
