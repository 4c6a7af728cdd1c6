//! Opens a port's links: connects to the market.

ghost use Rattle.std.specs.Prelude.{◌≡◌, ◌<◌, ◌+◌, ◌^◌};

use crate::stream::{SocketCloser, SocketReader, SocketWriter, link_of};
use crate::turns::wait_a_second;
use gate_serving::{LinkEnd, Opened, Opener};
use link_io::LinkFault;
use std::io;
use std::io::ErrorKind;
use std::net::{Net, TcpListener, TcpStream, ToSocketAddrs};
use std::sync::atomic::{AtomicBool, Ordering};
use std::time::{Clock, Duration};

/// How long a connect waits for the market.
fn longest_connect() -> Duration {
    Duration::from_secs(10)
}

/// Connects to an address a number of times, again a second after a link has ended or couldn't be opened. A connect
/// that fails isn't counted.
#[derive(Drop)]
pub struct Connector<'a, R> {
    rt: &'a R,
    address: &'a str,
    opened: u32,
    left: u32,
    is_first: bool,
    is_over: &'a AtomicBool,
    ghost room: { opened + left < 2 ^ 32 },
}

impl<'a, R> Connector<'a, R> {
    /// For this many links to an address, until `is_over` is set. Takes no memory.
    pub fn new(rt: &'a R, address: &'a str, links: u32, is_over: &'a AtomicBool) -> Connector<'a, R>
        ensures { (result.opened ≡ 0) × (result.left ≡ links) }
    {
        Connector {
            rt,
            address,
            opened: 0,
            left: links,
            is_first: true,
            is_over,
        }
    }
}

/// A stream to this address: a host and a TCP port. Each address of the host is tried in turn, for ten seconds each;
/// the error is the last one's.
pub fn connected<R: Net<Listener = TcpListener, Stream = TcpStream>>(
    rt: &R,
    address: &str,
) -> io::Result<TcpStream> {
    let mut last = io::Error::from(ErrorKind::NotFound);
    for found in address.to_socket_addrs(rt)? {
        match TcpStream::connect_timeout(rt, &found, longest_connect()) {
            Ok(stream) => return Ok(stream),
            Err(error) => last = error,
        }
    }
    Err(last)
}

impl<'a, R: Net<Listener = TcpListener, Stream = TcpStream> + Clock> Opener for Connector<'a, R> {
    ghost opened = { λ o. o.opened };

    ghost has_ended = { λ o. o.left ≡ 0 };

    type Reader = SocketReader<'a>;

    type Writer = SocketWriter;

    type Closer = SocketCloser<'a, R>;

    fn open(
        &mut self,
    ) -> Option<Result<Opened<SocketReader<'a>, SocketWriter, SocketCloser<'a, R>>, LinkFault>> {
        if self.left == 0 {
            return None;
        }
        if !self.is_first {
            wait_a_second(self.rt, self.is_over);
        }
        if self.is_over.load(Ordering::SeqCst) {
            self.left = 0;
            return None;
        }
        self.is_first = false;
        let opened = match connected(self.rt, self.address) {
            Ok(stream) => link_of(self.rt, stream, self.is_over),
            Err(error) => Err(error),
        };
        match opened {
            Ok(link) => {
                self.left -= 1;
                self.opened += 1;
                Some(Ok(link))
            }
            Err(_) => Some(Err(LinkFault::ReadFailed)),
        }
    }

    fn ended(&mut self, _end: LinkEnd) {}
}
