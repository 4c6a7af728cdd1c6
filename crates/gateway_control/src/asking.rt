//! How a gateway that runs is told to end.

use std::alloc::Global;
use std::io::{ErrorKind, Read, Write};
use std::net::{Net, TcpListener, TcpStream, ToSocketAddrs};
use std::time::{Clock, Duration};
use std::{io, thread};
use wire_bytes::{are_digits, number_of};

/// How long a connect, a read and a write may take.
fn longest_wait() -> Duration {
    Duration::from_secs(5)
}

/// How long an answer may be.
const LONGEST_ANSWER: usize = 4_096;

/// How often, at most, it is looked whether the gateway has ended: for 60 seconds.
const LOOKS: u32 = 600;

fn look() -> Duration {
    Duration::from_millis(100)
}

/// What came of telling a gateway to end.
#[derive(Clone, Copy, Debug, PartialEq, Eq)]
pub enum EndReply {
    /// It has ended.
    Ended,
    /// It was told to, and hasn't within 60 seconds.
    StillThere,
    /// It refused, with this status of HTTP: 401 where the token is wrong, say.
    Refused(u16),
    /// Nobody answered at its address.
    Nobody,
}

/// Tells the gateway whose endpoint is at this address to end, at once or after its while, and waits until it has:
/// until nobody listens there any more, 60 seconds at most. Out of memory comes as an error of that kind.
pub fn ask_end<R>(
    rt: &R,
    alloc: Global,
    address: &str,
    token: Option<&[u8]>,
    is_hurried: bool,
) -> io::Result<EndReply>
where
    R: Net<Listener = TcpListener, Stream = TcpStream> + Clock,
{
    let request = request_of(alloc, address, token, is_hurried)?;
    let Ok(status) = asked(rt, alloc, address, request.as_slice()) else {
        return Ok(EndReply::Nobody);
    };
    if status != 200 {
        return Ok(EndReply::Refused(status));
    }
    for _ in 0..LOOKS {
        if connected(rt, address).is_err() {
            return Ok(EndReply::Ended);
        }
        thread::sleep(rt, look());
    }
    Ok(EndReply::StillThere)
}

/// The request that tells it.
fn request_of(
    alloc: Global,
    address: &str,
    token: Option<&[u8]>,
    is_hurried: bool,
) -> io::Result<Vec<u8>> {
    let mut text = Vec::new(alloc);
    let path = if is_hurried { "/end?now" } else { "/end" };
    write!(
        text,
        "POST {path} HTTP/1.1\r\nHost: {address}\r\nContent-Length: 0\r\n"
    )?;
    if let Some(token) = token {
        text.write_all(b"Authorization: Bearer ")?;
        text.write_all(token)?;
        text.write_all(b"\r\n")?;
    }
    text.write_all(b"Connection: close\r\n\r\n")?;
    Ok(text)
}

/// A connection to this address.
fn connected<R: Net<Listener = TcpListener, Stream = TcpStream>>(
    rt: &R,
    address: &str,
) -> io::Result<TcpStream> {
    let mut last = io::Error::from(ErrorKind::NotFound);
    for found in address.to_socket_addrs(rt)? {
        match TcpStream::connect_timeout(rt, &found, longest_wait()) {
            Ok(stream) => return Ok(stream),
            Err(error) => last = error,
        }
    }
    Err(last)
}

/// The status that a request is answered with.
fn asked<R: Net<Listener = TcpListener, Stream = TcpStream>>(
    rt: &R,
    alloc: Global,
    address: &str,
    request: &[u8],
) -> io::Result<u16> {
    let mut stream = connected(rt, address)?;
    stream.set_read_timeout(Some(longest_wait()))?;
    stream.set_write_timeout(Some(longest_wait()))?;
    stream.write_all(request)?;
    let answer = read_answer(alloc, &mut stream)?;
    match status_in(answer.as_slice()) {
        Some(status) => Ok(status),
        None => Err(ErrorKind::InvalidData.into()),
    }
}

/// What comes of an answer until its stream ends, or it is too long.
fn read_answer(alloc: Global, stream: &mut TcpStream) -> io::Result<Vec<u8>> {
    let mut answer = Vec::new(alloc);
    let mut piece = [0u8; 512];
    for _ in 0..LONGEST_ANSWER {
        let count = stream.read(&mut piece)?;
        if count == 0 {
            break;
        }
        answer.extend_from_slice(piece.get(..count).unwrap_or(&[]))?;
        if answer.len() > LONGEST_ANSWER {
            break;
        }
    }
    Ok(answer)
}

/// The status of an answer: three digits behind `HTTP/1.1` and a space.
fn status_in(answer: &[u8]) -> Option<u16> {
    let digits = answer.strip_prefix(b"HTTP/1.1 ")?.get(..3)?;
    if !are_digits(digits) {
        return None;
    }
    u16::try_from(number_of(digits)?).ok()
}
