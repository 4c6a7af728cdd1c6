//! The endpoint's threads.

use crate::answers::Answers;
use crate::control::DayControl;
use crate::served::Served;
use crate::timed::{Timed, look};
use control_guard::Rules;
use http_server::{Config, Connection, serve};
use status_page::DayNames;
use std::alloc::{AllocError, Global};
use std::hash::RandomState;
use std::net::{TcpListener, TcpStream};
use std::os::fd::OwnedFd;
use std::random::RandomSource;
use std::sync::{Arc, Wait};
use std::thread::{JoinHandle, Threads};
use std::time::{Clock, Duration, Instant};
use std::{io, thread};

/// How many connections are served at once. A browser opens some ahead of need, which say nothing.
const THREADS: u32 = 4;

/// How long a body may be. No request has one.
const LONGEST_BODY: usize = 1_024;

/// How long an accept waits before it looks whether the day is over.
fn longest_accept() -> Duration {
    Duration::from_millis(250)
}

/// An endpoint whose threads run.
#[derive(Drop)]
pub struct Endpoint {
    threads: Vec<JoinHandle<()>>,
}

impl Endpoint {
    /// Waits for its threads, which end once the day is over.
    pub fn join<R: Threads + Wait>(self, rt: &R) {
        let Endpoint { threads } = self;
        for thread in threads {
            thread.join(rt);
        }
    }
}

/// Serves the endpoint at this listener until the day is over, by these rules, in threads of its own, and shows the day
/// by these names. Where a thread can't be had, those are enough that could; `None` where none could, or the listener
/// is of no use.
pub fn serve_endpoint<R>(
    rt: &R,
    alloc: Global,
    listener: TcpListener,
    rules: Rules,
    names: DayNames,
    control: &Arc<DayControl>,
) -> Result<Option<Endpoint>, AllocError>
where
    R: Threads + Wait + Clock + RandomSource + Copy + Send + Drop + 'static,
{
    if is_timed(&listener).is_err() {
        return Ok(None);
    }
    let served = Arc::new(alloc, Served { rules, names })?;
    let mut threads = Vec::with_capacity(alloc, THREADS as usize)?;
    for _ in 0..THREADS {
        match thread_of(rt, alloc, &listener, &served, control)? {
            Some(thread) => threads.push(thread)?,
            None => break,
        }
    }
    if threads.is_empty() {
        return Ok(None);
    }
    Ok(Some(Endpoint { threads }))
}

/// A thread that serves connections one after the other; `None` where it can't be had.
fn thread_of<R>(
    rt: &R,
    alloc: Global,
    listener: &TcpListener,
    served: &Arc<Served>,
    control: &Arc<DayControl>,
) -> Result<Option<JoinHandle<()>>, AllocError>
where
    R: Threads + Wait + Clock + RandomSource + Copy + Send + Drop + 'static,
{
    let served = Arc::try_clone(served)?;
    let control = Arc::try_clone(control)?;
    let Ok(listener) = listener.try_clone() else {
        return Ok(None);
    };
    let own = *rt;
    let thread = thread::spawn(
        rt,
        move || serve_all(&own, alloc, &listener, &served, &control),
    );
    Ok(thread.ok())
}

/// Has accepts of a listener come back after a while where no peer has come.
fn is_timed(listener: &TcpListener) -> io::Result<()> {
    let options = TcpStream::from(OwnedFd::from(listener.try_clone()?));
    options.set_read_timeout(Some(longest_accept()))
}

/// Serves connections one after the other until the day is over. What fails is over with its connection.
fn serve_all<R: Wait + Clock + RandomSource>(
    rt: &R,
    alloc: Global,
    listener: &TcpListener,
    served: &Served,
    control: &DayControl,
) {
    let Ok(keys) = RandomState::new(rt) else {
        return;
    };
    for _ in 0..u64::MAX {
        if control.is_over() {
            return;
        }
        match listener.accept() {
            Ok((stream, _)) => {
                if let Ok(keys) = keys.clone() {
                    let _ = serve_one(rt, alloc, keys, &stream, served, control);
                }
            }
            Err(_) => {}
        }
    }
}

/// Serves one connection.
fn serve_one<R: Wait + Clock>(
    rt: &R,
    alloc: Global,
    keys: RandomState,
    stream: &TcpStream,
    served: &Served,
    control: &DayControl,
) -> io::Result<()> {
    let since = begun(rt, stream)?;
    let mut reader = Timed::new(rt, stream, since, control);
    let mut writer = Timed::new(rt, stream, since, control);
    let config = Config {
        max_body_len: LONGEST_BODY,
        ..Config::default()
    };
    let mut connection = Connection::new(alloc, keys, config);
    let mut answers = Answers::new(rt, alloc, served, control);
    serve(&mut connection, &mut answers, &mut reader, &mut writer)
}

/// Has a connection's reads and writes come back after a while; answers the moment.
fn begun<R: Clock>(rt: &R, stream: &TcpStream) -> io::Result<Instant> {
    stream.set_nodelay(true)?;
    stream.set_read_timeout(Some(look()))?;
    stream.set_write_timeout(Some(look()))?;
    Instant::now(rt)
}
