//! The slot by which a line's reader hands its writer the next link.

use gate_workers::WriterEnd;
use link_io::LinkFault;
use std::mem;
use std::sync::atomic::{AtomicBool, Ordering};
use std::sync::{Mutex, Wait};
use std::thread::Parker;
use std::time::Duration;

/// How long a thread sleeps at most before it looks again.
fn longest_nap() -> Duration {
    Duration::from_millis(100)
}

/// A link for a line's writer.
#[derive(Drop)]
pub(crate) struct Given<W, K> {
    pub(crate) stream: W,
    pub(crate) closer: K,
}

/// What a line's writer finds between two links.
#[derive(Drop)]
pub(crate) enum Next<W, K> {
    Link(Given<W, K>),
    /// No link yet.
    NotYet,
    /// No further link comes.
    Over,
}

/// What the slot holds.
#[derive(Drop)]
enum State<W, K> {
    /// No link.
    Empty,
    /// A link that the writer hasn't taken yet.
    Given(Given<W, K>),
    /// A link that is being written.
    Taken,
    /// How the writer of the last link ended.
    Ended(Result<WriterEnd, LinkFault>),
    /// No further link comes, or none is taken.
    Over,
}

/// What the two threads of a line share.
#[derive(Drop)]
pub(crate) struct Slot<W, K> {
    state: Mutex<State<W, K>>,
    /// Set once the link's reader has ended.
    stop: AtomicBool,
    reader: Parker,
    writer: Parker,
}

impl<W: Drop, K: Drop> Slot<W, K> {
    /// Without a link. Takes no memory.
    pub(crate) fn new() -> Slot<W, K> {
        Slot {
            state: Mutex::new(State::Empty),
            stop: AtomicBool::new(false),
            reader: Parker::new(),
            writer: Parker::new(),
        }
    }

    /// The flag that tells the link's writer that its reader has ended.
    pub(crate) fn stop(&self) -> &AtomicBool {
        &self.stop
    }

    /// Hands the writer a link, and waits until it is taken. It isn't if the line has no writer, or `halt` is set
    /// before: then the link is dropped.
    pub(crate) fn offer<R: Wait>(&self, rt: &R, halt: &AtomicBool, given: Given<W, K>) -> bool {
        self.stop.store(false, Ordering::SeqCst);
        if !self.put(rt, given) {
            return false;
        }
        self.writer.unpark();
        for _ in rt.forever() {
            if let Some(is_taken) = self.is_taken(rt, halt) {
                return is_taken;
            }
            self.reader.park_timeout(rt, longest_nap());
        }
        unreachable!()
    }

    /// Puts a link into the slot, unless the line is over.
    fn put<R: Wait>(&self, rt: &R, given: Given<W, K>) -> bool {
        let mut state = self.state.lock(rt);
        if let State::Over = &*state {
            return false;
        }
        *state = State::Given(given);
        true
    }

    /// Whether the link was taken; `None` while that isn't settled.
    fn is_taken<R: Wait>(&self, rt: &R, halt: &AtomicBool) -> Option<bool> {
        let mut state = self.state.lock(rt);
        match &*state {
            State::Given(_) => {}
            State::Over => return Some(false),
            _ => return Some(true),
        }
        if !halt.load(Ordering::SeqCst) {
            return None;
        }
        *state = State::Over;
        Some(false)
    }

    /// How the writer of the link ended, once it has.
    pub(crate) fn ended<R: Wait>(&self, rt: &R) -> Result<WriterEnd, LinkFault> {
        for _ in rt.forever() {
            if let Some(end) = self.take_end(rt) {
                return end;
            }
            self.reader.park_timeout(rt, longest_nap());
        }
        unreachable!()
    }

    fn take_end<R: Wait>(&self, rt: &R) -> Option<Result<WriterEnd, LinkFault>> {
        let mut state = self.state.lock(rt);
        let end = match &*state {
            State::Ended(end) => *end,
            _ => return None,
        };
        *state = State::Empty;
        Some(end)
    }

    /// Says that no further link comes.
    pub(crate) fn close<R: Wait>(&self, rt: &R) {
        let mut state = self.state.lock(rt);
        *state = State::Over;
        drop(state);
        self.writer.unpark();
    }

    /// The link in the slot; it naps if there is none. None comes any more once `halt` is set and the slot is empty.
    pub(crate) fn next<R: Wait>(&self, rt: &R, halt: &AtomicBool) -> Next<W, K> {
        match self.take(rt, halt) {
            State::Given(given) => {
                self.reader.unpark();
                Next::Link(given)
            }
            State::Over => Next::Over,
            _ => {
                self.writer.park_timeout(rt, longest_nap());
                Next::NotYet
            }
        }
    }

    /// Takes the link out of the slot; `Over` if none comes, `Empty` if there is none yet.
    fn take<R: Wait>(&self, rt: &R, halt: &AtomicBool) -> State<W, K> {
        let mut state = self.state.lock(rt);
        if let State::Empty = &*state {
            if halt.load(Ordering::SeqCst) {
                *state = State::Over;
            }
        }
        match &*state {
            State::Given(_) => mem::replace(&mut *state, State::Taken),
            State::Over => State::Over,
            _ => State::Empty,
        }
    }

    /// Says how the writer of the link ended.
    pub(crate) fn end<R: Wait>(&self, rt: &R, end: Result<WriterEnd, LinkFault>) {
        let mut state = self.state.lock(rt);
        *state = State::Ended(end);
        drop(state);
        self.reader.unpark();
    }
}
