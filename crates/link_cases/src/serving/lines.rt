//! What a line is served with: a clock, a stream, and links that are counted.

use gate_serving::{Closer, LinkEnd, Opened, Opener};
use gate_workers::Clock;
use link_io::{LinkFault, Prompt};
use std::io::{self, Read, Write};
use std::sync::atomic::{AtomicBool, AtomicU64, Ordering};
use std::thread;
use std::time::{self, Duration};

/// A clock that pauses for a millisecond.
#[derive(Drop)]
pub struct Sleeping<'a, R> {
    pub rt: &'a R,
    pub moment: u64,
}

impl<'a, R: time::Clock> Clock for Sleeping<'a, R> {
    ghost use Rattle.std.specs.Prelude.{None};

    ghost reported = { λ _. None };

    fn now_ms(&mut self) -> u64 {
        self.moment = self.moment.saturating_add(1);
        self.moment
    }

    fn pause(&mut self) {
        thread::sleep(self.rt, Duration::from_millis(1));
    }
}

/// A stream that brings these bytes, and takes what is written.
#[derive(Drop)]
pub struct Pieces<'a> {
    pub rest: &'a [u8],
}

impl<'a> Read for Pieces<'a> {
    fn read(&mut self, buf: &mut [u8]) -> io::Result<usize> {
        let count = self.rest.len().min(buf.len());
        let (first, rest) = self.rest.split_at(count);
        let (places, _) = buf.split_at_mut(count);
        places.copy_from_slice(first);
        self.rest = rest;
        Ok(count)
    }
}

/// A writer that takes all.
#[derive(Drop)]
pub struct Takes;

impl Write for Takes {
    fn write(&mut self, buf: &[u8]) -> io::Result<usize> {
        Ok(buf.len())
    }

    fn flush(&mut self) -> io::Result<()> {
        Ok(())
    }
}

impl Prompt for Takes {
    ghost did_try = { λ _ _ _ _. Unit {0} };

    fn write_promptly(&mut self, buf: &[u8]) -> io::Result<usize> {
        self.write(buf)
    }
}

/// Counts how often links were shut down.
#[derive(Drop)]
pub struct Shuts<'a> {
    pub shut: &'a AtomicU64,
}

impl<'a> Closer for Shuts<'a> {
    fn close(&mut self, _is_read: &AtomicBool) {
        self.shut.fetch_add(1, Ordering::SeqCst);
    }
}

/// Opens so many links of the same bytes; where `fails_at` of them are left, opening fails once.
pub struct StreamLinks<'a> {
    pub stream: &'a [u8],
    pub left: u32,
    pub fails_at: u32,
    pub shut: &'a AtomicU64,
    pub ends: Vec<LinkEnd>,
}

/// Written by hand, so that one call drops all.
impl<'a> Drop for StreamLinks<'a> {
    fn drop(self) {
        let StreamLinks {
            stream: _,
            left: _,
            fails_at: _,
            shut: _,
            ends: _,
        } = self;
    }
}

impl<'a> Opener for StreamLinks<'a> {
    ghost use Rattle.std.specs.Prelude.{◌≡◌, ◌-◌, ◌^◌};

    ghost opened = { λ links. 2 ^ 32 - links.left };

    ghost has_ended = { λ links. links.left ≡ 0 };

    type Reader = Pieces<'a>;

    type Writer = Takes;

    type Closer = Shuts<'a>;

    fn open(&mut self) -> Option<Result<Opened<Pieces<'a>, Takes, Shuts<'a>>, LinkFault>> {
        if self.left == 0 {
            return None;
        }
        if self.left == self.fails_at {
            self.fails_at = 0;
            return Some(Err(LinkFault::ReadFailed));
        }
        self.left -= 1;
        Some(Ok(Opened {
            reader: Pieces { rest: self.stream },
            writer: Takes,
            closer: Shuts { shut: self.shut },
        }))
    }

    fn ended(&mut self, end: LinkEnd) {
        let _ = self.ends.push(end);
    }
}
