//! A connection with a deadline.

ghost use Rattle.std.specs.Prelude.{◌≡◌, IfSome};

use crate::control::DayControl;
use std::io;
use std::io::{ErrorKind, Read, Write};
use std::net::TcpStream;
use std::time::{Clock, Duration, Instant};

/// How long a request and its answer may take.
fn longest_connection() -> Duration {
    Duration::from_secs(5)
}

/// How long a connection may say nothing at first.
fn longest_silence() -> Duration {
    Duration::from_secs(1)
}

/// How long a read or write waits before it looks at the deadline.
pub(crate) fn look() -> Duration {
    Duration::from_millis(100)
}

/// One side of a connection, whose reads and writes fail once its time is up, or the day is over.
#[derive(Drop)]
pub(crate) struct Timed<'a, R> {
    rt: &'a R,
    stream: &'a TcpStream,
    since: Instant,
    control: &'a DayControl,
    has_read: bool,
}

impl<'a, R: Clock> Timed<'a, R> {
    /// A side of this connection, which came at that moment. Takes no memory.
    pub(crate) fn new(
        rt: &'a R,
        stream: &'a TcpStream,
        since: Instant,
        control: &'a DayControl,
    ) -> Timed<'a, R> {
        Timed {
            rt,
            stream,
            since,
            control,
            has_read: false,
        }
    }

    /// Whether its time is up.
    fn is_late(&self, most: Duration) -> bool {
        if self.control.is_over() {
            return true;
        }
        match self.since.elapsed(self.rt) {
            Ok(spent) => spent >= most,
            Err(_) => true,
        }
    }
}

/// What a read or write has answered; `None` where it may be tried again.
fn settled(answer: io::Result<usize>) -> Option<io::Result<usize>>
    ensures { IfSome result (λ same. same ≡ answer) }
{
    if let Err(error) = &answer {
        if is_passing(error) {
            return None;
        }
    }
    Some(answer)
}

/// Whether what failed may be tried again.
fn is_passing(error: &io::Error) -> bool {
    matches!(
        error.kind(),
        ErrorKind::WouldBlock | ErrorKind::TimedOut | ErrorKind::Interrupted
    )
}

impl<'a, R: Clock> Read for Timed<'a, R> {
    fn read(&mut self, buf: &mut [u8]) -> io::Result<usize> {
        let most = if self.has_read {
            longest_connection()
        } else {
            longest_silence()
        };
        for _ in 0..u64::MAX {
            let mut stream = self.stream;
            if let Some(answer) = settled(stream.read(buf)) {
                self.has_read = self.has_read || answer.is_ok();
                return answer;
            }
            if self.is_late(most) {
                break;
            }
        }
        Err(ErrorKind::TimedOut.into())
    }
}

impl<'a, R: Clock> Write for Timed<'a, R> {
    fn write(&mut self, buf: &[u8]) -> io::Result<usize> {
        for _ in 0..u64::MAX {
            let mut stream = self.stream;
            if let Some(answer) = settled(stream.write(buf)) {
                return answer;
            }
            if self.is_late(longest_connection()) {
                break;
            }
        }
        Err(ErrorKind::TimedOut.into())
    }

    fn flush(&mut self) -> io::Result<()> {
        Ok(())
    }
}
