//! Who sends lines into the queue.

ghost use Rattle.std.specs.Prelude.{◌≡◌, ◌+◌, [], length};
ghost use Rattle.rtrb.specs.Ring.{sent};

use crate::line::Line;
use rtrb::Producer;

/// The queue's end for those who tell. Its type keeps that each line that was told went into the queue or is counted as
/// dropped.
#[derive(Drop)]
pub struct LineSender {
    ring: Producer<Line>,
    told: u64,
    dropped: u64,
    ghost counted: { told ≡ length (sent ring) + dropped },
}

impl LineSender {
    ghost use Rattle.stderr_queue.specs.Sent.{WasSent};

    /// Over a queue of which nothing was sent. Takes no memory.
    pub fn new(ring: Producer<Line>) -> LineSender
        requires fresh { sent ring ≡ [] }
        ensures ring { result.ring ≡ ring }
        ensures none { (result.told ≡ 0) × (result.dropped ≡ 0) }
    {
        LineSender {
            ring,
            told: 0,
            dropped: 0,
        }
    }

    /// Sends a line, with how many were dropped before it, where there is room; else it is counted as dropped. It waits
    /// for nobody. After 2^64 lines nothing is told any more.
    pub fn send(&mut self, line: Line)
        ensures { WasSent self.old self.new line }
    {
        let Some(told) = self.told.checked_add(1) else {
            return;
        };
        match self.ring.push(line.behind(self.dropped)) {
            Ok(()) => {}
            Err(_) => self.dropped += 1,
        }
        self.told = told;
    }

    /// How many lines were dropped.
    pub fn dropped(&self) -> u64
        ensures { result ≡ self.now.dropped }
    {
        self.dropped
    }
}
