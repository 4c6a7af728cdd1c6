//! The two directions of a link's stream, and its closing.

use gate_serving::{Closer, Opened};
use link_io::Prompt;
use std::io::{ErrorKind, Read, Write};
use std::net::{Shutdown, TcpStream};
use std::sync::atomic::{AtomicBool, Ordering};
use std::time::{Clock, Duration};
use std::{io, thread};

/// How long a read blocks before it checks whether the line has ended.
fn longest_read() -> Duration {
    Duration::from_millis(250)
}

/// How long a prompt write waits for a peer that doesn't read. Then it ends with the bytes that went out, and fails if
/// none did.
fn longest_prompt_write() -> Duration {
    Duration::from_millis(10)
}

/// How many prompt writes a write makes before it fails: a quarter of a second of them. A link's writer tries it again
/// as long as its link holds up nobody (`BatchWriter::step` of `link_io`).
const MOST_TRIES: u32 = 25;

/// How often, and how long each time, a closer looks whether the peer has closed too.
const LOOKS: u32 = 100;

fn look() -> Duration {
    Duration::from_millis(10)
}

/// Reads a stream until its peer has closed it or the line has ended; both are the stream's end.
#[derive(Drop)]
pub struct SocketReader<'a> {
    stream: TcpStream,
    is_over: &'a AtomicBool,
    /// How the wait for bytes failed: a socket tells its failure once.
    failed: Option<ErrorKind>,
}

impl<'a> SocketReader<'a> {
    /// Waits until there is something to read: bytes, the stream's end, or its failure.
    fn wait(&mut self) {
        let mut first = [0u8; 1];
        for _ in 0..u64::MAX {
            match self.stream.peek(&mut first) {
                Ok(_) => return,
                Err(error) => match error.kind() {
                    ErrorKind::WouldBlock | ErrorKind::TimedOut | ErrorKind::Interrupted => {}
                    kind => {
                        self.failed = Some(kind);
                        return;
                    }
                },
            }
            if self.is_over.load(Ordering::SeqCst) {
                return;
            }
        }
    }
}

impl<'a> Read for SocketReader<'a> {
    /// A read into no place waits until there is something to read.
    fn read(&mut self, buf: &mut [u8]) -> io::Result<usize> {
        if buf.is_empty() {
            self.wait();
            return Ok(0);
        }
        if let Some(kind) = self.failed {
            return Err(io::Error::from(kind));
        }
        for _ in 0..u64::MAX {
            match self.stream.read(buf) {
                Ok(n) => return Ok(n),
                Err(error) => match error.kind() {
                    ErrorKind::WouldBlock | ErrorKind::TimedOut | ErrorKind::Interrupted => {}
                    _ => return Err(error),
                },
            }
            if self.is_over.load(Ordering::SeqCst) {
                return Ok(0);
            }
        }
        Ok(0)
    }
}

/// Writes a stream. A write fails if the peer reads nothing for a quarter of a second, a prompt one if it reads nothing
/// for ten milliseconds.
#[derive(Drop)]
pub struct SocketWriter {
    stream: TcpStream,
}

impl Write for SocketWriter {
    fn write(&mut self, buf: &[u8]) -> io::Result<usize> {
        for _ in 1..MOST_TRIES {
            match self.stream.write(buf) {
                Ok(count) => return Ok(count),
                Err(error) => match error.kind() {
                    ErrorKind::WouldBlock | ErrorKind::TimedOut => {}
                    _ => return Err(error),
                },
            }
        }
        self.stream.write(buf)
    }

    fn flush(&mut self) -> io::Result<()> {
        self.stream.flush()
    }
}

impl Prompt for SocketWriter {
    ghost did_try = { λ _ _ _ _. Unit {0} };

    fn write_promptly(&mut self, buf: &[u8]) -> io::Result<usize> {
        self.stream.write(buf)
    }
}

/// Shuts a stream down: for writing at once, so that the peer gets what was written; for reading as soon as the peer
/// has closed too, or after a second. Cut, it is shut down for both at once; the system still sends what was written.
#[derive(Drop)]
pub struct SocketCloser<'a, R> {
    rt: &'a R,
    stream: TcpStream,
}

impl<'a, R: Clock> Closer for SocketCloser<'a, R> {
    fn close(&mut self, is_read: &AtomicBool) {
        let _ = self.stream.shutdown(Shutdown::Write);
        for _ in 0..LOOKS {
            if is_read.load(Ordering::SeqCst) {
                return;
            }
            thread::sleep(self.rt, look());
        }
        let _ = self.stream.shutdown(Shutdown::Both);
    }

    fn cut(&mut self, _is_read: &AtomicBool) {
        let _ = self.stream.shutdown(Shutdown::Both);
    }
}

/// A link over this stream: what is written goes out at once (TCP_NODELAY). Its reader is at its end once `is_over` is
/// set. Takes no memory.
pub fn link_of<'a, R>(
    rt: &'a R,
    stream: TcpStream,
    is_over: &'a AtomicBool,
) -> io::Result<Opened<SocketReader<'a>, SocketWriter, SocketCloser<'a, R>>> {
    stream.set_nodelay(true)?;
    stream.set_read_timeout(Some(longest_read()))?;
    stream.set_write_timeout(Some(longest_prompt_write()))?;
    let written = stream.try_clone()?;
    let closed = stream.try_clone()?;
    Ok(Opened {
        reader: SocketReader {
            stream,
            is_over,
            failed: None,
        },
        writer: SocketWriter { stream: written },
        closer: SocketCloser { rt, stream: closed },
    })
}
