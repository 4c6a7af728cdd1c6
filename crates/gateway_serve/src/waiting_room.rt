//! A client's links: of all who connect the first that says something.

ghost use Rattle.std.specs.Prelude.{◌≡◌, true};

use crate::day_flags::DayFlags;
use gate_serving::{LinkEnd, Opened, Opener};
use gateway_log::LinkLog;
use link_io::LinkFault;
use link_sockets::{SocketCloser, SocketReader, SocketWriter, link_of};
use operator_settings::{AddressRange, admit};
use std::alloc::Global;
use std::fmt::{Display, Formatter};
use std::io::{Error, ErrorKind};
use std::net::{Net, SocketAddr, TcpListener, TcpStream};
use std::sync::atomic::{AtomicBool, Ordering};
use std::time::{Clock, Duration, Instant};
use std::{fmt, thread};

/// How many wait for their first byte at most.
const SEATS: usize = 8;

/// How many are taken at a look at most.
const AT_A_LOOK: u32 = 128;

/// How long who says nothing is waited for.
fn longest_silence() -> Duration {
    Duration::from_secs(15)
}

/// How long lies between two looks.
fn between_looks() -> Duration {
    Duration::from_millis(5)
}

/// Who has connected, and hasn't said anything yet.
#[derive(Drop)]
struct Silent {
    stream: TcpStream,
    peer: SocketAddr,
    since: Instant,
}

/// What a look at a silent peer finds.
#[derive(Clone, Copy, PartialEq, Eq)]
enum Look {
    Silent,
    Speaks,
    Gone,
}

/// Accepts a client's links until the day is over, one at a time: while one is open, others wait in the listener. Who
/// connects and says nothing is no link, and neither is who connects from an address that the client doesn't come
/// from; how many there were is told with the next link.
#[derive(Drop)]
pub(crate) struct WaitingRoom<'a, R> {
    rt: &'a R,
    listener: TcpListener,
    from: &'a [AddressRange],
    link_log: LinkLog<'a, R>,
    flags: &'a DayFlags,
    /// Whether the link that is open is to end.
    ends: &'a AtomicBool,
    silent: Vec<Silent>,
    opened: u64,
    is_closed: bool,
    in_vain: u64,
    foreign: u64,
    /// Whether the last who connected couldn't be taken, which is told already.
    is_refused: bool,
}

impl<'a, R: Clock + Eprint> WaitingRoom<'a, R> {
    /// Over a listener, for peers of these addresses. A link ends once `ends` is set. Takes no memory.
    pub(crate) fn new(
        rt: &'a R,
        alloc: Global,
        listener: TcpListener,
        from: &'a [AddressRange],
        link_log: LinkLog<'a, R>,
        flags: &'a DayFlags,
        ends: &'a AtomicBool,
    ) -> WaitingRoom<'a, R> {
        let _ = listener.set_nonblocking(true);
        WaitingRoom {
            rt,
            listener,
            from,
            link_log,
            flags,
            ends,
            silent: Vec::new(alloc),
            opened: 0,
            is_closed: false,
            in_vain: 0,
            foreign: 0,
            is_refused: false,
        }
    }

    /// Takes who has connected.
    fn take_all(&mut self)
        ensures same { self.new.opened ≡ self.old.opened }
    {
        for _ in 0..AT_A_LOOK {
            let (stream, peer) = match self.listener.accept() {
                Ok(taken) => taken,
                Err(error) => {
                    self.log_refusal(&error);
                    return;
                }
            };
            self.is_refused = false;
            if admit(self.from, &peer.ip()) {
                self.take(stream, peer);
            } else {
                self.foreign = self.foreign.saturating_add(1);
            }
        }
    }

    /// Tells why nobody can be taken though somebody has connected: descriptors are used up, say. It is told once,
    /// until somebody is taken again.
    fn log_refusal(&mut self, error: &Error)
        ensures same { self.new.opened ≡ self.old.opened }
    {
        let is_reported = match error.kind() {
            ErrorKind::WouldBlock | ErrorKind::Interrupted | ErrorKind::ConnectionAborted => true,
            _ => self.is_refused,
        };
        if !is_reported {
            self.is_refused = true;
            self.link_log.log_of(&NotTaken { error });
        }
    }

    /// Lets one wait for its first byte; the longest silent goes where all seats are taken.
    fn take(&mut self, stream: TcpStream, peer: SocketAddr)
        ensures same { self.new.opened ≡ self.old.opened }
    {
        let Ok(since) = Instant::now(self.rt) else {
            return;
        };
        if stream.set_nonblocking(true).is_err() {
            return;
        }
        if self.silent.len() >= SEATS {
            self.silent.remove(0);
            self.in_vain = self.in_vain.saturating_add(1);
        }
        let _ = self.silent.push(Silent {
            stream,
            peer,
            since,
        });
    }

    /// The first that says something, taken out; who has gone or was silent for too long is let go.
    fn speaker(&mut self) -> Option<Silent>
        ensures same { self.new.opened ≡ self.old.opened }
    {
        for at in (0..self.silent.len()).rev() {
            if at >= self.silent.len() {
                continue;
            }
            match looked(self.rt, &self.silent[at]) {
                Look::Silent => {}
                Look::Speaks => return Some(self.silent.remove(at)),
                Look::Gone => {
                    self.silent.remove(at);
                    self.in_vain = self.in_vain.saturating_add(1);
                }
            }
        }
        None
    }

    /// The next that says something; `None` once the day takes no further link and has ended those of clients.
    fn next_speaker(&mut self) -> Option<Silent>
        ensures same { self.new.opened ≡ self.old.opened }
    {
        for _ in 0..u64::MAX {
            if self.flags.clients().load(Ordering::SeqCst) {
                return None;
            }
            if self.flags.is_closing() {
                self.silent.clear();
            } else {
                self.take_all();
                if let Some(silent) = self.speaker() {
                    return Some(silent);
                }
            }
            thread::sleep(self.rt, between_looks());
        }
        None
    }

    /// Tells that a link is up, from where, and who connected in vain before.
    fn log_up(&mut self, peer: SocketAddr)
        ensures same { self.new.opened ≡ self.old.opened }
    {
        self.link_log.log_of(&UpFrom {
            peer,
            in_vain: self.in_vain,
            foreign: self.foreign,
        });
        self.in_vain = 0;
        self.foreign = 0;
    }
}

/// What a look at a silent peer finds.
fn looked<R: Clock>(rt: &R, silent: &Silent) -> Look {
    let mut first = [0u8; 1];
    match silent.stream.peek(&mut first) {
        Ok(0) => Look::Gone,
        Ok(_) => Look::Speaks,
        Err(error) => match error.kind() {
            ErrorKind::WouldBlock | ErrorKind::Interrupted => match silent.since.elapsed(rt) {
                Ok(spent) if spent < longest_silence() => Look::Silent,
                _ => Look::Gone,
            },
            _ => Look::Gone,
        },
    }
}

/// That nobody who connects can be taken.
#[derive(Drop)]
struct NotTaken<'a> {
    error: &'a Error,
}

impl<'a> Display for NotTaken<'a> {
    fn fmt<W: fmt::Write>(&self, f: &mut Formatter<W>) -> fmt::Result {
        let error = self.error;
        write!(f, "cannot accept: {error}")
    }
}

/// That a client's link is up.
#[derive(Drop)]
struct UpFrom {
    peer: SocketAddr,
    in_vain: u64,
    foreign: u64,
}

impl Display for UpFrom {
    fn fmt<W: fmt::Write>(&self, f: &mut Formatter<W>) -> fmt::Result {
        let (peer, in_vain, foreign) = (self.peer, self.in_vain, self.foreign);
        write!(f, "up from {peer}")?;
        if in_vain != 0 {
            write!(f, ", {in_vain} connects without a byte before")?;
        }
        if foreign != 0 {
            write!(f, ", {foreign} from other addresses before")?;
        }
        Ok(())
    }
}

/// What a link is made of.
type Link<'a, R> = Opened<SocketReader<'a>, SocketWriter, SocketCloser<'a, R>>;

/// The link with who has said something, until `ends` is set; `None` where it can't be had.
fn link_with<'a, R: Net<Listener = TcpListener, Stream = TcpStream> + Clock>(
    rt: &'a R,
    silent: Silent,
    ends: &'a AtomicBool,
) -> Option<Link<'a, R>> {
    let Silent { stream, .. } = silent;
    match stream.set_nonblocking(false) {
        Ok(()) => link_of(rt, stream, ends).ok(),
        Err(_) => None,
    }
}

impl<'a, R: Net<Listener = TcpListener, Stream = TcpStream> + Clock + Eprint> Opener
    for WaitingRoom<'a, R> {
    ghost opened = { λ o. o.opened };

    ghost has_ended = { λ o. o.is_closed ≡ true };

    type Reader = SocketReader<'a>;

    type Writer = SocketWriter;

    type Closer = SocketCloser<'a, R>;

    fn open(&mut self) -> Option<Result<Link<'a, R>, LinkFault>> {
        if self.opened == u64::MAX {
            self.is_closed = true;
            return None;
        }
        let Some(silent) = self.next_speaker() else {
            self.is_closed = true;
            return None;
        };
        self.ends.store(false, Ordering::SeqCst);
        if self.flags.clients().load(Ordering::SeqCst) {
            self.is_closed = true;
            return None;
        }
        let peer = silent.peer;
        match link_with(self.rt, silent, self.ends) {
            Some(link) => {
                self.opened += 1;
                self.log_up(peer);
                Some(Ok(link))
            }
            None => Some(Err(LinkFault::ReadFailed)),
        }
    }

    fn ended(&mut self, end: LinkEnd) {
        self.link_log.log_end(&end);
    }
}
