//! Whole runs: a list of events, and their batches.

ghost use Rattle.std.specs.Prelude.{◌≡◌, length, IfOk};
ghost use Rattle.gate_law.specs.Holds.{Holds};
ghost use Rattle.gate_core.specs.Core.{history};

use crate::whole::Core;
use gate_events::{Batch, Event};
use gate_settings::Settings;
use std::alloc::{AllocError, Global};

/// Steps these events, one after another, from the first state of the settings on: a batch for each.
///
/// All that is promised holds of them, whatever the events are.
pub fn run_all(
    alloc: Global,
    settings: &Settings,
    events: &[Event],
) -> Result<Vec<Batch>, AllocError>
    ensures count { IfOk result (λ batches. length batches.items ≡ length events.now) }
    ensures holds { IfOk result (λ batches. Holds settings.now (history events.now batches.items)) }
{
    let mut core = Core::new(alloc, settings)?;
    let mut batches = Vec::new(alloc);
    for event in events {
        let batch = core.step(alloc, event)?;
        batches.push(batch)?;
    }
    Ok(batches)
}
