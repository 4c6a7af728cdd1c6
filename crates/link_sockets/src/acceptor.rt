//! Opens a client's links: accepts its connections, one after the other.

ghost use Rattle.std.specs.Prelude.{◌≡◌, ◌<◌, ◌+◌, ◌^◌};

use crate::stream::{SocketCloser, SocketReader, SocketWriter, link_of};
use crate::turns::wait_a_second;
use gate_serving::{LinkEnd, Opened, Opener};
use link_io::LinkFault;
use std::io;
use std::io::ErrorKind;
use std::net::{Net, TcpListener, TcpStream};
use std::os::fd::OwnedFd;
use std::sync::atomic::{AtomicBool, Ordering};
use std::time::{Clock, Duration};

/// How long an accept blocks before it checks whether the line has ended.
fn longest_accept() -> Duration {
    Duration::from_millis(250)
}

/// Accepts a number of links at an address, one after the other. While one is open, the next peer waits in the system's
/// queue.
#[derive(Drop)]
pub struct Acceptor<'a, R> {
    rt: &'a R,
    address: &'a str,
    listener: Option<TcpListener>,
    opened: u32,
    left: u32,
    is_over: &'a AtomicBool,
    ghost room: { opened + left < 2 ^ 32 },
}

impl<'a, R> Acceptor<'a, R> {
    /// For this many links at an address, until `is_over` is set. Binds at the first of them. Takes no memory.
    pub fn new(rt: &'a R, address: &'a str, links: u32, is_over: &'a AtomicBool) -> Acceptor<'a, R>
        ensures { (result.opened ≡ 0) × (result.left ≡ links) }
    {
        Acceptor {
            rt,
            address,
            listener: None,
            opened: 0,
            left: links,
            is_over,
        }
    }

    /// The same over a listener that is bound already. Takes no memory.
    pub fn of_listener(
        rt: &'a R,
        listener: TcpListener,
        links: u32,
        is_over: &'a AtomicBool,
    ) -> Acceptor<'a, R>
        ensures { (result.opened ≡ 0) × (result.left ≡ links) }
    {
        let _ = is_timed(&listener);
        Acceptor {
            rt,
            address: "",
            listener: Some(listener),
            opened: 0,
            left: links,
            is_over,
        }
    }
}

/// Binds an address. An accept there returns after a while if no peer has come.
fn bound<R: Net<Listener = TcpListener, Stream = TcpStream>>(
    rt: &R,
    address: &str,
) -> io::Result<TcpListener> {
    let listener = TcpListener::bind(rt, address)?;
    is_timed(&listener)?;
    Ok(listener)
}

/// Makes accepts of a listener return after a while if no peer has come.
fn is_timed(listener: &TcpListener) -> io::Result<()> {
    let options = TcpStream::from(OwnedFd::from(listener.try_clone()?));
    options.set_read_timeout(Some(longest_accept()))
}

/// The next peer's stream; `None` if the line ends before one comes.
fn accepted(listener: &TcpListener, is_over: &AtomicBool) -> io::Result<Option<TcpStream>> {
    for _ in 0..u64::MAX {
        if is_over.load(Ordering::SeqCst) {
            return Ok(None);
        }
        match listener.accept() {
            Ok((stream, _)) => return Ok(Some(stream)),
            Err(error) => match error.kind() {
                ErrorKind::WouldBlock | ErrorKind::TimedOut | ErrorKind::Interrupted => {}
                _ => return Err(error),
            },
        }
    }
    Ok(None)
}

impl<'a, R: Net<Listener = TcpListener, Stream = TcpStream> + Clock> Acceptor<'a, R> {
    /// The next link's stream; `None` if the line has ended.
    fn next_stream(&mut self) -> io::Result<Option<TcpStream>>
        ensures same { (self.new.opened ≡ self.old.opened) × (self.new.left ≡ self.old.left) }
    {
        if let Some(listener) = &self.listener {
            return accepted(listener, self.is_over);
        }
        let listener = bound(self.rt, self.address)?;
        let stream = accepted(&listener, self.is_over);
        self.listener = Some(listener);
        stream
    }
}

impl<'a, R: Net<Listener = TcpListener, Stream = TcpStream> + Clock> Opener for Acceptor<'a, R> {
    ghost opened = { λ o. o.opened };

    ghost has_ended = { λ o. o.left ≡ 0 };

    type Reader = SocketReader<'a>;

    type Writer = SocketWriter;

    type Closer = SocketCloser<'a, R>;

    fn open(
        &mut self,
    ) -> Option<Result<Opened<SocketReader<'a>, SocketWriter, SocketCloser<'a, R>>, LinkFault>> {
        if self.left == 0 {
            return None;
        }
        self.left -= 1;
        let opened = match self.next_stream() {
            Ok(None) => {
                self.left = 0;
                return None;
            }
            Ok(Some(stream)) => link_of(self.rt, stream, self.is_over),
            Err(error) => Err(error),
        };
        match opened {
            Ok(link) => {
                self.opened += 1;
                Some(Ok(link))
            }
            Err(_) => {
                wait_a_second(self.rt, self.is_over);
                Some(Err(LinkFault::ReadFailed))
            }
        }
    }

    fn ended(&mut self, _end: LinkEnd) {}
}
