//! An event with its batch, written.

ghost use Rattle.std.specs.Prelude.{◌≡◌, ◌∷◌, [], OnOk, OnErr};
ghost use Rattle.gate_events.specs.Seen.{batch_seen};
ghost use Rattle.journal_pages.specs.Ordered.{AreWritable};
ghost use Rattle.journal_days.specs.Cut.{IsMoreOf, with_records};
ghost use Rattle.journal_records.specs.Events.{event_record};
ghost use Rattle.journal_records.specs.Parts.{turn_records};
ghost use Rattle.journal_records.specs.Whole.{IsTurn};

use crate::batches::append_batch;
use crate::events::{append_event, event_head};
use crate::fitting::turn_fits;
use gate_events::{Batch, Event};
use journal_days::DayPages;
use std::alloc::AllocError;

/// Appends the records of an event and the batch that it gave: the event's, the reports, what the client's link is
/// told, what the port's is, its fault, the end. `AllocError` leaves the pages as they were; it comes also for a link
/// that is told 2^20 bytes or more at once.
pub fn append_turn(event: &Event, batch: &Batch, out: &mut DayPages) -> Result<(), AllocError>
    ensures ok { OnOk result (out.new ≡ with_records out.old (turn_records event.now (batch_seen batch.now))) }
    ensures turn { OnOk result (IsTurn event.now (batch_seen batch.now)) }
    ensures err { OnErr result (out.new ≡ out.old) }
{
    if !turn_fits(event, batch) {
        return Err(AllocError);
    }
    append_whole(event, batch, out)
}

/// The same, whatever a link is told.
fn append_whole(event: &Event, batch: &Batch, out: &mut DayPages) -> Result<(), AllocError>
    requires { AreWritable (turn_records event.now (batch_seen batch.now)) }
    ensures ok { OnOk result (out.new ≡ with_records out.old (turn_records event.now (batch_seen batch.now))) }
    ensures err { OnErr result (out.new ≡ out.old) }
{
    let mark = out.mark();
    match append_parts(event, batch, out) {
        Ok(()) => Ok(()),
        Err(fault) => {
            out.undo(mark);
            Err(fault)
        }
    }
}

/// The same, but the pages are left with some of the records behind them where memory runs out.
fn append_parts(event: &Event, batch: &Batch, out: &mut DayPages) -> Result<(), AllocError>
    requires { AreWritable (turn_records event.now (batch_seen batch.now)) }
    ensures ok { OnOk result (out.new ≡ with_records out.old (turn_records event.now (batch_seen batch.now))) }
    ensures kept { IsMoreOf out.old out.new }
{
    let at = moment_of(event);
    append_event(event, out)?;
    append_batch(batch, at, out)?;
    Ok(())
}

/// The moment of an event.
fn moment_of(event: &Event) -> u64
    ensures { result ≡ (event_record event.now).at }
{
    let head = event_head(event);
    head.at
}
