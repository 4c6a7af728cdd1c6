//! A port's links: the gateway connects, for as long as the day lasts.

ghost use Rattle.std.specs.Prelude.{◌≡◌, true};

use crate::day_flags::DayFlags;
use crate::pacing::{between_lines, pause_after, soon};
use gate_serving::{LinkEnd, Opened, Opener};
use gateway_log::LinkLog;
use link_io::LinkFault;
use link_sockets::{SocketCloser, SocketReader, SocketWriter, connected, link_of};
use std::fmt::{Display, Formatter};
use std::io::ErrorKind;
use std::net::{Net, TcpListener, TcpStream};
use std::sync::atomic::Ordering;
use std::time::{Clock, Duration, Instant};
use std::{fmt, io, thread};

/// How often in a second a pause looks whether the day is over.
const LOOKS: u64 = 100;

fn look() -> Duration {
    Duration::from_millis(10)
}

/// Connects to an address, again and again until the day is over: a second after a link that lasted, and after longer
/// and longer pauses where one after the other can't be had or ends soon (`pause_after`). Tells of each link with the
/// address, and why one can't be had: where the reason changes, and each ten minutes.
#[derive(Drop)]
pub(crate) struct ServedPort<'a, R> {
    rt: &'a R,
    address: &'a str,
    link_log: LinkLog<'a, R>,
    flags: &'a DayFlags,
    opened: u64,
    is_closed: bool,
    /// Whether it was tried before.
    is_again: bool,
    /// The tries in vain, and links that ended soon, one after the other.
    tries: u32,
    /// Since when the link is up.
    since: Option<Instant>,
    /// The reason that was reported last, and when.
    reported: Option<(ErrorKind, Instant)>,
}

impl<'a, R: Clock + Eprint> ServedPort<'a, R> {
    /// Of this address. Takes no memory.
    pub(crate) fn new(
        rt: &'a R,
        address: &'a str,
        link_log: LinkLog<'a, R>,
        flags: &'a DayFlags,
    ) -> ServedPort<'a, R> {
        ServedPort {
            rt,
            address,
            link_log,
            flags,
            opened: 0,
            is_closed: false,
            is_again: false,
            tries: 0,
            since: None,
            reported: None,
        }
    }

    /// Whether the day is over.
    fn is_over(&self) -> bool {
        self.flags.ports().load(Ordering::SeqCst)
    }

    /// Waits until it may be tried again, or the day is over.
    fn wait(&self) {
        for _ in 0..pause_after(self.tries) * LOOKS {
            if self.is_over() {
                return;
            }
            thread::sleep(self.rt, look());
        }
    }

    /// Tells why the port can't be connected, unless that was reported just now.
    fn log_refused(&mut self, error: &io::Error)
        ensures same { (self.new.opened ≡ self.old.opened) × (self.new.is_closed ≡ self.old.is_closed) }
    {
        let kind = error.kind();
        if self.is_reported(kind) {
            return;
        }
        self.reported = match Instant::now(self.rt) {
            Ok(now) => Some((kind, now)),
            Err(_) => None,
        };
        self.link_log.log_of(&Unreachable {
            address: self.address,
            error,
            seconds: pause_after(self.tries),
        });
    }

    /// Whether this reason was reported just now.
    fn is_reported(&self, kind: ErrorKind) -> bool {
        match &self.reported {
            Some((last, since)) => {
                *last == kind
                    && match since.elapsed(self.rt) {
                        Ok(spent) => spent < between_lines(),
                        Err(_) => true,
                    }
            }
            None => false,
        }
    }

    /// Whether the link that has ended was up for long.
    fn has_lasted(&self) -> bool {
        match &self.since {
            Some(since) => match since.elapsed(self.rt) {
                Ok(lasted) => lasted >= soon(),
                Err(_) => false,
            },
            None => false,
        }
    }
}

/// Why a port can't be connected, and when it is tried again.
#[derive(Drop)]
struct Unreachable<'a> {
    address: &'a str,
    error: &'a io::Error,
    seconds: u64,
}

impl<'a> Display for Unreachable<'a> {
    fn fmt<W: fmt::Write>(&self, f: &mut Formatter<W>) -> fmt::Result {
        let (address, error, seconds) = (self.address, self.error, self.seconds);
        write!(f, "{address}: {error}; next try in {seconds} s")
    }
}

/// That a port is up.
#[derive(Drop)]
struct UpAt<'a>(&'a str);

impl<'a> Display for UpAt<'a> {
    fn fmt<W: fmt::Write>(&self, f: &mut Formatter<W>) -> fmt::Result {
        write!(f, "up at {}", self.0)
    }
}

impl<'a, R: Net<Listener = TcpListener, Stream = TcpStream> + Clock + Eprint> Opener
    for ServedPort<'a, R> {
    ghost opened = { λ o. o.opened };

    ghost has_ended = { λ o. o.is_closed ≡ true };

    type Reader = SocketReader<'a>;

    type Writer = SocketWriter;

    type Closer = SocketCloser<'a, R>;

    fn open(
        &mut self,
    ) -> Option<Result<Opened<SocketReader<'a>, SocketWriter, SocketCloser<'a, R>>, LinkFault>> {
        if self.is_again {
            self.wait();
        }
        if self.is_over() || self.opened == u64::MAX {
            self.is_closed = true;
            return None;
        }
        self.is_again = true;
        let opened = match connected(self.rt, self.address) {
            Ok(stream) => link_of(self.rt, stream, self.flags.ports()),
            Err(error) => Err(error),
        };
        match opened {
            Ok(link) => {
                self.opened += 1;
                self.since = Instant::now(self.rt).ok();
                self.reported = None;
                self.link_log.log_of(&UpAt(self.address));
                Some(Ok(link))
            }
            Err(error) => {
                self.tries = self.tries.saturating_add(1);
                self.log_refused(&error);
                Some(Err(LinkFault::ReadFailed))
            }
        }
    }

    fn ended(&mut self, end: LinkEnd) {
        self.tries = if self.has_lasted() {
            0
        } else {
            self.tries.saturating_add(1)
        };
        self.link_log.log_end(&end);
    }
}
