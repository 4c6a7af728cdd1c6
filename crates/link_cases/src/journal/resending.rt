//! A batch that is longer than a page.

use gate_events::{Batch, ClientNumber, Event, LinkOut, PortNumber, ShortList};
use gate_journal::History;
use std::alloc::{AllocError, Global};

/// Whether a resend's event, behind a tick, takes five pages, of which the first begins as before; or, where memory is
/// refused for one of them, leaves the one page as it was.
pub fn is_resend_whole(alloc: Global) -> Result<bool, AllocError> {
    let batch = resend(alloc)?;
    let mut history = History::new(alloc);
    history.push(&tick_at(6), &Batch::empty(alloc))?;
    is_pushed_whole(alloc, &mut history, &batch)
}

/// What a resend of 1,000 reports tells a client: so many frames of 260 bytes.
fn resend(alloc: Global) -> Result<Batch, AllocError> {
    let mut outs = ShortList::new();
    for _ in 0..1_000 {
        let bytes = vec![in alloc; b'8'; 260]?;
        outs.push(alloc, LinkOut::Write { link: 1, bytes })?;
    }
    Ok(Batch::of_parts(
        ClientNumber::new(1),
        ShortList::new(),
        outs,
        PortNumber::new(1),
        ShortList::new(),
        None,
    ))
}

/// Client 1's time.
fn tick_at(at: u64) -> Event {
    Event::ClientTick {
        client: ClientNumber::new(1),
        at,
    }
}

/// Whether a batch is pushed whole or not at all.
fn is_pushed_whole(
    alloc: Global,
    history: &mut History,
    batch: &Batch,
) -> Result<bool, AllocError> {
    let before = match history.pages() {
        [page] => Vec::from_slice(alloc, page.as_slice())?,
        _ => return Ok(false),
    };
    let is_kept = history.push(&tick_at(7), batch).is_ok();
    Ok(is_as_due(history.pages(), before.as_slice(), is_kept))
}

/// Whether pages begin with these bytes, and are five, or, where nothing was kept, have nothing else.
fn is_as_due(pages: &[Vec<u8>], before: &[u8], is_kept: bool) -> bool {
    match pages {
        [page] => !is_kept && page.as_slice() == before,
        [first, _, _, _, _] => is_kept && first.starts_with(before),
        _ => false,
    }
}
