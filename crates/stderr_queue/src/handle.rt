//! A handle whose standard error is the queue.

use crate::queue::LineQueue;
use std::fmt::Display;
use std::io;
use std::net::{Net, SocketAddr};
use std::random::RandomSource;
use std::sync::Wait;
use std::thread::Threads;
use std::time::{Clock, Duration};

/// A runtime whose standard error is a queue of lines; each other capability is the runtime's own. Whoever is given it
/// prints as ever, and waits for no reader.
#[derive(Clone, Copy, Drop)]
pub struct Queued<'q, R> {
    rt: R,
    lines: &'q LineQueue,
}

impl<'q, R> Queued<'q, R> {
    /// This runtime, over this queue. Takes no memory.
    pub fn new(rt: R, lines: &'q LineQueue) -> Queued<'q, R> {
        Queued { rt, lines }
    }
}

impl<'q, R: Wait> Eprint for Queued<'q, R> {
    /// A line of its own too.
    fn eprint<D: Display + Drop>(&self, value: D) -> io::Result<()> {
        self.lines.tell(&self.rt, value)
    }

    fn eprintln<D: Display + Drop>(&self, value: D) -> io::Result<()> {
        self.lines.tell(&self.rt, value)
    }
}

impl<'q, R: Wait> Wait for Queued<'q, R> {}

impl<'q, R: Threads> Threads for Queued<'q, R> {}

impl<'q, R: Clock> Clock for Queued<'q, R> {
    fn monotonic(&self) -> io::Result<Duration> {
        self.rt.monotonic()
    }

    fn since_1970(&self) -> io::Result<Duration> {
        self.rt.since_1970()
    }

    fn sleep(&self, duration: Duration) {
        self.rt.sleep(duration);
    }
}

impl<'q, R: RandomSource> RandomSource for Queued<'q, R> {
    fn fill_bytes(&self, buffer: &mut [u8]) -> io::Result<()> {
        self.rt.fill_bytes(buffer)
    }
}

impl<'q, R: Net> Net for Queued<'q, R> {
    type Stream = R::Stream;

    type Listener = R::Listener;

    fn bind(&self, address: SocketAddr) -> io::Result<R::Listener> {
        self.rt.bind(address)
    }

    fn connect(&self, address: SocketAddr) -> io::Result<R::Stream> {
        self.rt.connect(address)
    }

    fn connect_timeout(&self, address: SocketAddr, timeout: Duration) -> io::Result<R::Stream> {
        self.rt.connect_timeout(address, timeout)
    }

    fn lookup_host(&self, host: &str, port: u16, found: &mut [SocketAddr]) -> io::Result<usize> {
        self.rt.lookup_host(host, port, found)
    }
}
