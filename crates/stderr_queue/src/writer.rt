//! Who writes the lines.

use crate::line::Line;
use crate::queue::LineQueue;
use rtrb::{Consumer, RingBuffer};
use std::alloc::{AllocError, Global};
use std::sync::{Arc, Wait};
use std::thread::Threads;
use std::time::{Clock, Duration};
use std::{str, thread};

/// How many lines wait at most.
const ROOM: usize = 1024;

/// How long the writer sleeps where no line waits.
fn pause() -> Duration {
    Duration::from_millis(10)
}

/// A queue of 1,024 lines, and a thread that writes them to standard error until the queue is ended and empty. Nobody
/// waits for that thread: it may hang in a write for ever. `None` where no thread can be had.
///
/// Takes 1.1 MB of memory.
pub fn start_writer<R>(rt: &R, alloc: Global) -> Result<Option<Arc<LineQueue>>, AllocError>
where
    R: Threads + Wait + Clock + Eprint + Copy + Send + Drop + 'static,
{
    let (ring, lines) = RingBuffer::new(alloc, ROOM)?;
    let queue = Arc::new(alloc, LineQueue::new(ring))?;
    if is_started(rt, lines, &queue)? {
        Ok(Some(queue))
    } else {
        Ok(None)
    }
}

/// Starts the thread that writes the lines of a queue; `false` where it can't be had.
fn is_started<R>(rt: &R, lines: Consumer<Line>, queue: &Arc<LineQueue>) -> Result<bool, AllocError>
where
    R: Threads + Wait + Clock + Eprint + Copy + Send + Drop + 'static,
{
    let theirs = Arc::try_clone(queue)?;
    let own = *rt;
    let thread = thread::spawn(rt, move || write_lines(&own, lines, &theirs));
    Ok(thread.is_ok())
}

/// Writes the lines of a queue until it is ended and nothing is left.
fn write_lines<R: Wait + Clock + Eprint>(rt: &R, lines: Consumer<Line>, queue: &LineQueue) {
    let mut lines = lines;
    let mut told = 0;
    for _ in 0..u64::MAX {
        let is_closed = queue.is_closed();
        match lines.pop() {
            Ok(line) => {
                told = tell_dropped(rt, told, line.dropped());
                write_line(rt, &line);
            }
            Err(_) if is_closed => break,
            Err(_) => thread::sleep(rt, pause()),
        }
    }
    tell_dropped(rt, told, queue.dropped(rt));
    queue.set_written();
}

/// Writes a line. Where that can't be done it is lost.
fn write_line<R: Eprint>(rt: &R, line: &Line) {
    let text = str::from_utf8(line.as_bytes()).unwrap_or("");
    let _ = rt.eprintln(text);
}

/// Tells how many lines were dropped, where there are more than were told; gives how many are told now.
fn tell_dropped<R: Eprint>(rt: &R, told: u64, dropped: u64) -> u64 {
    if dropped > told {
        let lost = dropped - told;
        let _ = eprintln!(rt; "gateway: {lost} lines are lost here: nobody read standard error");
    }
    dropped
}
