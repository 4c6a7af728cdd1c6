//! A clock that never goes back, and a port's line that is served by threads.

ghost use Rattle.std.specs.Prelude.{◌≡◌, []};

mod clocks;
mod lines;

use crate::links::Kept;
use clocks::show_clock;
use gate_events::{PortNumber, Recipient};
use gate_serving::{Line, LinkEnd, Ticks, Worker, WriterWorker, serve};
use gate_workers::{SharedWriter, WriterEnd};
use lines::{Sleeping, StreamLinks, Takes};
use link_io::LinkFault;
use seeded_choices::Chance;
use std::alloc::{AllocError, Global};
use std::sync::Wait;
use std::sync::atomic::{AtomicU64, Ordering};
use std::thread::Threads;
use std::time;

/// Two heartbeats.
const STREAM: &[u8; 6] = b"\x00\x01H\x00\x01H";

type PortWriter = SharedWriter<Takes, Kept>;

type PortLine<'p, 'a, R> = Line<
    StreamLinks<'a>,
    Worker<Kept, Sleeping<'a, R>>,
    WriterWorker<'p, Takes, Kept, Sleeping<'a, R>>,
>;

/// No ticks, as `serve` wants them.
type NoTicks<'a, R> = Option<Ticks<'a, Kept, Sleeping<'a, R>>>;

/// What a clock shows whose system goes back, and what comes of a port's line of three links.
pub fn shown<R: Threads + Wait + time::Clock + Sync>(
    rt: &R,
    alloc: Global,
) -> Result<Vec<u8>, AllocError> {
    let mut shown = Vec::new(alloc);
    show_clock(alloc, &mut shown)?;
    show_three_links(rt, alloc, &mut shown)?;
    Ok(shown)
}

/// A port has three links one after the other, of which the first is closed by the core, and the second can't be opened
/// once. Shows how often the writer of a link was woken, how many links were shut down, and how each ended.
fn show_three_links<R: Threads + Wait + time::Clock + Sync>(
    rt: &R,
    alloc: Global,
    shown: &mut Vec<u8>,
) -> Result<(), AllocError> {
    let shut = AtomicU64::new(0);
    let mut gate = new_gate(alloc);
    gate.lay_close(1)?;
    let shared_writer = SharedWriter::new(gate);
    serve_three(rt, alloc, &shut, &shared_writer, shown)?;
    show(alloc, "shut down", shut.load(Ordering::SeqCst), shown)
}

/// A gate that gives nothing back.
fn new_gate(alloc: Global) -> Kept
    ensures given { result.given.items ≡ [] }
{
    Kept::new(alloc, Chance::of(0, 0), usize::MAX)
}

/// The port's line over this shared writer, that keeps ends where these are.
fn line_of<'p, 'a, R: time::Clock>(
    rt: &'a R,
    alloc: Global,
    shut: &'a AtomicU64,
    shared_writer: &'p PortWriter,
    ends: Vec<LinkEnd>,
) -> PortLine<'p, 'a, R> {
    Line {
        peer: Recipient::Port(PortNumber::new(1)),
        steps: 1_000,
        fault: None,
        opener: StreamLinks {
            stream: STREAM.as_slice(),
            left: 3,
            fails_at: 2,
            shut,
            ends,
        },
        reader: Worker {
            gate: new_gate(alloc),
            clock: Sleeping { rt, moment: 0 },
        },
        writer: WriterWorker::new(shared_writer, Sleeping { rt, moment: 0 }),
    }
}

/// Serves the line, and shows how it stands then. `AllocError` where memory or a thread can't be had.
fn serve_three<'p, 'a, R: Threads + Wait + time::Clock + Sync>(
    rt: &'a R,
    alloc: Global,
    shut: &'a AtomicU64,
    shared_writer: &'p PortWriter,
    shown: &mut Vec<u8>,
) -> Result<(), AllocError> {
    let line = line_of(
        rt,
        alloc,
        shut,
        shared_writer,
        Vec::with_capacity(alloc, 3)?,
    );
    let none: NoTicks<'a, R> = None;
    match serve(rt, alloc, vec![in alloc; line]?, none) {
        Ok((lines, _)) => show_lines(alloc, lines.as_slice(), shown),
        Err(_) => Err(AllocError),
    }
}

/// Shows how lines stand: how often each writer was woken, the fault, and how each link ended.
fn show_lines<'p, 'a, R: time::Clock>(
    alloc: Global,
    lines: &[PortLine<'p, 'a, R>],
    shown: &mut Vec<u8>,
) -> Result<(), AllocError> {
    for line in lines {
        show(
            alloc,
            "woken",
            line.reader.gate.woken.load(Ordering::SeqCst),
            shown,
        )?;
        show(alloc, "fault", number_of(line.fault), shown)?;
        show_ends(line.opener.ends.as_slice(), shown)?;
    }
    Ok(())
}

/// The number of a fault; 0 of none.
fn number_of(fault: Option<LinkFault>) -> u64 {
    match fault {
        Some(fault) => u64::from(fault.number()),
        None => 0,
    }
}

/// Shows how each link's writer ended.
fn show_ends(ends: &[LinkEnd], shown: &mut Vec<u8>) -> Result<(), AllocError> {
    for end in ends {
        shown.extend_from_slice(match end.writer {
            Ok(WriterEnd::Closed) => b"closed\n".as_slice(),
            Ok(WriterEnd::Stopped) => b"stopped\n",
            Err(_) => b"faulted\n",
        })?;
    }
    Ok(())
}

/// Shows a word and a number.
fn show(alloc: Global, word: &str, number: u64, shown: &mut Vec<u8>) -> Result<(), AllocError> {
    shown.extend_from_slice(format!(in alloc; "{word} {number}\n")?.as_bytes())
}
