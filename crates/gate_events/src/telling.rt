//! The outputs of batches to one link.

ghost use Rattle.std.specs.Prelude.{◌≡◌, ◌++◌, IfOk, map};
ghost use Rattle.gate_events.specs.Seen.{batch_seen};
ghost use Rattle.gate_events.specs.Sources.{lists_to, output_to, unless_empty};

use crate::batch::Batch;
use crate::output::Output;
use crate::source::Recipient;
use std::alloc::{AllocError, Global};

/// Copies the outputs of batches to one link, in order: a list for each batch that has some.
pub fn output_lists(
    alloc: Global,
    batches: &[Batch],
    recipient: Recipient,
) -> Result<Vec<Output>, AllocError>
    ensures { IfOk result (λ lists. lists.items ≡ lists_to recipient (map batch_seen batches.now)) }
{
    let mut lists = Vec::new(alloc);
    for batch in batches {
        keep_output(&mut lists, alloc, batch, &recipient)?;
    }
    Ok(lists)
}

/// A list more, where the batch tells the recipient something.
fn keep_output(
    lists: &mut Vec<Output>,
    alloc: Global,
    batch: &Batch,
    recipient: &Recipient,
) -> Result<(), AllocError>
    ensures { IfOk result (λ nothing. lists.new.items
        ≡ lists.old.items ++ unless_empty (output_to recipient.now (batch_seen batch.now))) }
{
    let output = batch.output(*recipient);
    if output.is_empty() {
        return Ok(());
    }
    lists.push(Output::copied(alloc, output)?)?;
    Ok(())
}
