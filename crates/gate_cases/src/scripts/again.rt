//! A script whose every step is undone and made again, and each step and each text once more where memory runs out.

use gate_core::Core;
use gate_events::{Batch, Event};
use gate_lines::{Flags, batch_text, script_history};
use script_steps::fixed_settings;
use std::alloc::{AllocError, Global};
use std::io::{self, ErrorKind, Read, Write};

/// The events that come before the first line of a script: each of its three clients comes up and logs on, each of its
/// two ports comes up and is logged in.
const LOGON_EVENTS: usize = 10;

/// Steps the events of a script on a second core, and prints what the batches tell. An error where memory runs out
/// twice or while the script is read, where a line isn't understood, or where a write fails.
pub fn run_again<R: Read, W: Write>(
    alloc: Global,
    flags: Flags,
    input: &mut R,
    output: &mut W,
) -> io::Result<()> {
    let Ok(kept) = script_history(alloc, input) else {
        return Err(io::Error::from(ErrorKind::InvalidData));
    };
    let events = kept.events(alloc)?;
    step_anew(alloc, flags, events.as_slice(), output)
}

/// Steps the events on a core that no event was given.
fn step_anew<W: Write>(
    alloc: Global,
    flags: Flags,
    events: &[Event],
    output: &mut W,
) -> io::Result<()> {
    let mut core = new_core(alloc)?;
    step_all(alloc, flags, &mut core, events, output)
}

/// A core of every script's settings.
fn new_core(alloc: Global) -> Result<Core, AllocError> {
    let settings = fixed_settings(alloc)?;
    Core::new(alloc, &settings)
}

/// Steps the events, and prints what those behind the logons tell.
fn step_all<W: Write>(
    alloc: Global,
    flags: Flags,
    core: &mut Core,
    events: &[Event],
    output: &mut W,
) -> io::Result<()> {
    for (i, event) in events.iter().enumerate() {
        let text = made_again(alloc, flags, core, event)?;
        if i >= LOGON_EVENTS {
            output.write_all(text.as_slice())?;
        }
    }
    Ok(())
}

/// Steps an event, undoes it, and steps it again: what its batch tells.
fn made_again(
    alloc: Global,
    flags: Flags,
    core: &mut Core,
    event: &Event,
) -> Result<Vec<u8>, AllocError> {
    let _undone = stepped(alloc, core, event)?;
    core.undo();
    let batch = stepped(alloc, core, event)?;
    printed(alloc, flags, &batch)
}

/// Steps an event, once more where memory runs out.
fn stepped(alloc: Global, core: &mut Core, event: &Event) -> Result<Batch, AllocError> {
    match core.step(alloc, event) {
        Ok(batch) => Ok(batch),
        Err(_) => core.step(alloc, event),
    }
}

/// What a batch tells; once more where memory runs out.
fn printed(alloc: Global, flags: Flags, batch: &Batch) -> Result<Vec<u8>, AllocError> {
    match batch_text(alloc, flags, batch) {
        Ok(text) => Ok(text),
        Err(_) => batch_text(alloc, flags, batch),
    }
}
