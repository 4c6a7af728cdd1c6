//! Steps of a desk, one after another.

ghost use Rattle.std.specs.Prelude.{◌≡◌};

use super::show;
use crate::events::{Here, event_of, small_number};
use crate::streams::size_of;
use case_lines::{bytes_of, first_word};
use desk::{Closed, DeskName, Finished, Inlet, Outlet, Parts, Shared, open_desk};
use gate_core::{ClientNumber, Event, LinkOut};
use gate_events::Source;
use gate_journal::History;
use script_steps::fixed_settings;
use std::alloc::{AllocError, Global};
use std::marker::Brand;
use std::sync::Wait;
use std::time::{Clock, Duration, Instant};
use std::{io, str};

/// Opens a desk of the fixed settings, makes these steps, each a line, and closes it. Shows what they show, and what
/// the desk's history has.
pub fn show_steps<R: Wait + Clock>(
    rt: &R,
    alloc: Global,
    steps: &[u8],
    shown: &mut Vec<u8>,
) -> Result<(), AllocError> {
    let parts = Parts::new(alloc, fixed_settings(alloc)?)?;
    run_steps::<Brand, _>(rt, alloc, parts, steps, shown)
}

/// Opens a desk of these parts, makes the steps, and closes it.
fn run_steps<K: DeskName, R: Wait + Clock>(
    rt: &R,
    alloc: Global,
    parts: Parts,
    steps: &[u8],
    shown: &mut Vec<u8>,
) -> Result<(), AllocError>
    requires named { (parts.inlets ≡ K.inlets) × (parts.outlets ≡ K.outlets) }
{
    let (shared, mut inlets, mut outlets) = open_desk::<K, _>(alloc, parts)?;
    make_all(rt, alloc, &shared, &mut inlets, &mut outlets, steps, shown)?;
    close(alloc, shared, inlets, outlets, shown)
}

/// Makes the steps.
fn make_all<K: DeskName, R: Wait + Clock>(
    rt: &R,
    alloc: Global,
    shared: &Shared<K>,
    inlets: &mut [Inlet<K>],
    outlets: &mut [Outlet<K>],
    steps: &[u8],
    shown: &mut Vec<u8>,
) -> Result<(), AllocError> {
    for step in str::from_utf8(steps).unwrap_or("").lines() {
        let (word, rest) = first_word(step);
        match word {
            "case" => show_line(step, shown)?,
            "inlets" => show(shown, "inlets", inlets.len() as u64)?,
            "place" => show(shown, "place", place_of(inlets, size_of(rest)) as u64)?,
            "put" => put(alloc, inlets, rest, shown)?,
            "take" => take(outlets, size_of(rest), shown)?,
            _ => make(rt, alloc, shared, word, rest, shown)?,
        }
    }
    Ok(())
}

/// Makes a step of the desk itself.
fn make<K: DeskName, R: Wait + Clock>(
    rt: &R,
    alloc: Global,
    shared: &Shared<K>,
    word: &str,
    rest: &str,
    shown: &mut Vec<u8>,
) -> Result<(), AllocError> {
    match word {
        "turn" => turn(rt, alloc, shared, shown),
        "turns" => turns(alloc, shared, small_number(rest).unwrap_or(0), shown),
        "waiting" => {
            shared.wake_waiting(rt);
            Ok(())
        }
        "wake" => {
            shared.wake(size_of(rest));
            Ok(())
        }
        "nap" => nap(rt, shared, rest, shown),
        _ => show_line("not understood", shown),
    }
}

/// Shows a line.
pub fn show_line(line: &str, shown: &mut Vec<u8>) -> Result<(), AllocError> {
    shown.extend_from_slice(line.as_bytes())?;
    shown.push(b'\n')?;
    Ok(())
}

/// What the inlet at a place says that its place is.
fn place_of<K: DeskName>(inlets: &[Inlet<K>], place: usize) -> usize {
    match inlets.get(place) {
        Some(inlet) => inlet.position(),
        None => usize::MAX,
    }
}

/// `INLET LINK WORD NUMBER TEXT`: puts an event of the inlet's source, and shows that it was given back.
fn put<K: DeskName>(
    alloc: Global,
    inlets: &mut [Inlet<K>],
    said: &str,
    shown: &mut Vec<u8>,
) -> Result<(), AllocError> {
    let (place, said) = first_word(said);
    match (inlets.get_mut(size_of(place)), event_said(alloc, said)?) {
        (Some(inlet), Some(event)) => put_event(inlet, event, shown),
        _ => show_line("no event", shown),
    }
}

/// `LINK WORD NUMBER TEXT`: an event at moment 0.
fn event_said(alloc: Global, said: &str) -> Result<Option<Event>, AllocError> {
    let (link, said) = first_word(said);
    let (word, said) = first_word(said);
    let (number, text) = first_word(said);
    let here = Here {
        link: size_of(link) as u64,
        at: 0,
    };
    match (small_number(number), bytes_of(alloc, text)?) {
        (Some(number), Some(bytes)) => event_of(alloc, word, number, here, bytes.as_slice()),
        _ => Ok(None),
    }
}

/// Puts an event of the inlet's source, and shows that it was given back.
fn put_event<K: DeskName>(
    inlet: &mut Inlet<K>,
    event: Event,
    shown: &mut Vec<u8>,
) -> Result<(), AllocError> {
    if event.is_from(&inlet.source()) && inlet.put(event).is_err() {
        return show_line("given back", shown);
    }
    Ok(())
}

/// Turns, once more where memory ran out, and shows what was done where it isn't one step.
fn turn<K: DeskName, R: Wait>(
    rt: &R,
    alloc: Global,
    shared: &Shared<K>,
    shown: &mut Vec<u8>,
) -> Result<(), AllocError> {
    let turned = match shared.turn(rt, alloc) {
        Ok(turned) => turned,
        Err(_) => shared.turn(rt, alloc)?,
    };
    if turned.refused != 0 {
        show(shown, "refused", u64::from(turned.refused))?;
    }
    if turned.steps == 1 && turned.held == 0 {
        return Ok(());
    }
    show(shown, "steps", u64::from(turned.steps))?;
    show(shown, "held", u64::from(turned.held))
}

/// Has so many turns made at most, and shows how many made a step, and how many steps they made.
fn turns<K: DeskName>(
    alloc: Global,
    shared: &Shared<K>,
    most: u16,
    shown: &mut Vec<u8>,
) -> Result<(), AllocError> {
    let turns = shared.turns(
        alloc,
        u32::from(most),
        |with_output| shared.wake_each(with_output),
    )?;
    show(shown, "rounds", u64::from(turns.rounds))?;
    show(shown, "steps", u64::from(turns.steps))
}

/// `OUTLET MOST`: waits for an outlet's waker, so many milliseconds at most, and shows whether it was woken.
fn nap<K: DeskName, R: Wait + Clock>(
    rt: &R,
    shared: &Shared<K>,
    said: &str,
    shown: &mut Vec<u8>,
) -> Result<(), AllocError> {
    let (outlet, most) = first_word(said);
    show_wake(rt, shared, size_of(outlet), size_of(most) as u64, shown)
}

/// Waits for an outlet's waker, so many milliseconds at most, and shows whether it was woken: the wait took less than
/// half of them.
pub fn show_wake<K: DeskName, R: Wait + Clock>(
    rt: &R,
    shared: &Shared<K>,
    outlet: usize,
    most: u64,
    shown: &mut Vec<u8>,
) -> Result<(), AllocError> {
    match time_of_nap(rt, shared, outlet, Duration::from_millis(most)) {
        Ok(passed) if passed < Duration::from_millis(most / 2) => show_line("woken", shown),
        Ok(_) => show_line("asleep", shown),
        Err(_) => show_line("no clock", shown),
    }
}

/// How long a wait for an outlet's waker takes.
fn time_of_nap<K: DeskName, R: Wait + Clock>(
    rt: &R,
    shared: &Shared<K>,
    outlet: usize,
    most: Duration,
) -> io::Result<Duration> {
    let start = Instant::now(rt)?;
    shared.nap(rt, outlet, most);
    start.elapsed(rt)
}

/// Takes the next list from an outlet, and shows its frames.
fn take<K: DeskName>(
    outlets: &mut [Outlet<K>],
    place: usize,
    shown: &mut Vec<u8>,
) -> Result<(), AllocError> {
    let Some(outlet) = outlets.get_mut(place) else {
        return Ok(());
    };
    match outlet.take() {
        Some(list) => show_list(list.as_slice(), shown),
        None => Ok(()),
    }
}

/// Shows the frames of a list.
fn show_list(list: &[LinkOut], shown: &mut Vec<u8>) -> Result<(), AllocError> {
    for out in list {
        match out {
            LinkOut::Write { bytes, .. } => shown.extend_from_slice(bytes.as_slice())?,
            LinkOut::Close { .. } => shown.extend_from_slice(b"close")?,
        }
    }
    shown.extend_from_slice(b"\n")
}

/// Finishes all ends and closes the desk. Shows what its history has.
fn close<K: DeskName>(
    alloc: Global,
    shared: Shared<K>,
    inlets: Vec<Inlet<K>>,
    outlets: Vec<Outlet<K>>,
    shown: &mut Vec<u8>,
) -> Result<(), AllocError> {
    let finished = finished_of(alloc, inlets, outlets)?;
    match history_of(alloc, shared, finished)? {
        Some(history) => count_events(alloc, &history, shown),
        None => show(shown, "events in memory", 0),
    }
}

/// Shows how many events a history has, and of whom.
fn count_events(alloc: Global, history: &History, shown: &mut Vec<u8>) -> Result<(), AllocError> {
    let client = Source::Client(ClientNumber::new(1));
    let all = history.events(alloc)?.len();
    let of_client = history.from(alloc, client)?.len();
    let of_clock = history.from(alloc, Source::Clock)?.len();
    show(shown, "events", all as u64)?;
    show(shown, "of the client", of_client as u64)?;
    show(shown, "of the clock", of_clock as u64)
}

/// What was put and taken.
fn finished_of<K: DeskName>(
    alloc: Global,
    inlets: Vec<Inlet<K>>,
    outlets: Vec<Outlet<K>>,
) -> Result<Vec<Finished<K>>, AllocError> {
    let mut finished = Vec::with_capacity(alloc, 16)?;
    for inlet in inlets {
        if let Some(end) = inlet.finish() {
            finished.push(end)?;
        }
    }
    for outlet in outlets {
        finished.push(outlet.finish())?;
    }
    Ok(finished)
}

/// The history of a desk that is closed, once more where memory ran out, if all of it is in memory.
fn history_of<K: DeskName>(
    alloc: Global,
    shared: Shared<K>,
    finished: Vec<Finished<K>>,
) -> Result<Option<History>, AllocError> {
    match shared.close(alloc, finished) {
        Ok(closed) => Ok(kept_by(closed)),
        Err((_, shared, finished)) => match shared.close(alloc, finished) {
            Ok(closed) => Ok(kept_by(closed)),
            Err((error, _, _)) => Err(error),
        },
    }
}

/// The history that a closed desk kept, if all of it is in memory.
fn kept_by(closed: Closed) -> Option<History> {
    let Closed {
        history,
        settings: _,
        journal: _,
        lost: _,
    } = closed;
    history.into_whole().ok()
}
