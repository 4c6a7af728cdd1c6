//! Two clients and a market that trade slowly, for as long as their gateway is served.

use crate::client::Client;
use crate::fault::DemoFault;
use crate::market::Market;
use crate::showing::connected;
use gate_serving::{Opened, Opener};
use link_sockets::Acceptor;
use std::alloc::{AllocError, Global};
use std::io::{Read, Write};
use std::net::{Net, TcpListener, TcpStream};
use std::sync::atomic::{AtomicBool, Ordering};
use std::sync::{Arc, Wait};
use std::thread;
use std::thread::{JoinHandle, Threads};
use std::time::{Clock, Duration};

/// How often it is looked whether it is over, while a client rests.
const LOOKS: u32 = 20;

/// A look is so long: a client rests for a second behind each order.
fn look() -> Duration {
    Duration::from_millis(50)
}

/// A market and two clients that trade, each in a thread of its own.
#[derive(Drop)]
pub struct Traders {
    is_over: Arc<AtomicBool>,
    threads: Vec<JoinHandle<()>>,
}

impl Traders {
    /// Begins with the market at this listener, and the clients `C1` and `C2` of the gateway that listens for them at
    /// these addresses. Who can't connect, or loses its link, tries again a second after. `NoThread` and `NoMemory`
    /// leave no thread behind.
    pub fn start<R>(
        rt: &R,
        alloc: Global,
        market: TcpListener,
        first: String,
        second: String,
    ) -> Result<Traders, DemoFault>
    where
        R: Threads
            + Wait
            + Clock
            + Net<Listener = TcpListener, Stream = TcpStream>
            + Copy
            + Send
            + Drop
            + 'static,
    {
        let mut traders = Traders {
            is_over: flag_of(alloc)?,
            threads: Vec::with_capacity(alloc, 3)?,
        };
        let began = traders.begin(rt, alloc, market, first, second);
        match began {
            Ok(()) => Ok(traders),
            Err(fault) => {
                traders.end(rt);
                Err(fault)
            }
        }
    }

    /// Starts the three threads.
    fn begin<R>(
        &mut self,
        rt: &R,
        alloc: Global,
        market: TcpListener,
        first: String,
        second: String,
    ) -> Result<(), DemoFault>
    where
        R: Threads
            + Wait
            + Clock
            + Net<Listener = TcpListener, Stream = TcpStream>
            + Copy
            + Send
            + Drop
            + 'static,
    {
        let market = market_thread(rt, alloc, market, Arc::try_clone(&self.is_over)?);
        self.keep(market)?;
        let one = client_thread(rt, alloc, "C1", first, Arc::try_clone(&self.is_over)?);
        self.keep(one)?;
        let two = client_thread(rt, alloc, "C2", second, Arc::try_clone(&self.is_over)?);
        self.keep(two)
    }

    /// Keeps a thread, if it could be had.
    fn keep(&mut self, thread: Option<JoinHandle<()>>) -> Result<(), DemoFault> {
        match thread {
            Some(thread) => {
                self.threads.push(thread)?;
                Ok(())
            }
            None => Err(DemoFault::NoThread),
        }
    }

    /// Ends them, and waits until each has ended.
    pub fn end<R: Threads + Wait>(self, rt: &R) {
        let Traders { is_over, threads } = self;
        is_over.store(true, Ordering::SeqCst);
        for thread in threads {
            thread.join(rt);
        }
    }
}

/// A flag that isn't set.
fn flag_of(alloc: Global) -> Result<Arc<AtomicBool>, AllocError> {
    Ok(Arc::new(alloc, AtomicBool::new(false))?)
}

/// The market's thread; `None` where it can't be had.
fn market_thread<R>(
    rt: &R,
    alloc: Global,
    listener: TcpListener,
    is_over: Arc<AtomicBool>,
) -> Option<JoinHandle<()>>
where
    R: Threads
        + Wait
        + Clock
        + Net<Listener = TcpListener, Stream = TcpStream>
        + Copy
        + Send
        + Drop
        + 'static,
{
    let own = *rt;
    thread::spawn(rt, move || serve_links(&own, alloc, listener, &is_over)).ok()
}

/// A client's thread; `None` where it can't be had.
fn client_thread<R>(
    rt: &R,
    alloc: Global,
    name: &'static str,
    address: String,
    is_over: Arc<AtomicBool>,
) -> Option<JoinHandle<()>>
where
    R: Threads
        + Wait
        + Clock
        + Net<Listener = TcpListener, Stream = TcpStream>
        + Copy
        + Send
        + Drop
        + 'static,
{
    let own = *rt;
    thread::spawn(
        rt,
        move || trade_on(&own, alloc, name, address.as_str(), &is_over),
    )
    .ok()
}

/// Serves the gateway's port as a market, one link after the other, until it is over.
fn serve_links<R: Clock + Net<Listener = TcpListener, Stream = TcpStream>>(
    rt: &R,
    alloc: Global,
    listener: TcpListener,
    is_over: &AtomicBool,
) {
    let mut market = Market::new(alloc);
    let mut links = Acceptor::of_listener(rt, listener, u32::MAX, is_over);
    for _ in 0..u64::MAX {
        match links.open() {
            Some(Ok(link)) => serve_link(&mut market, link),
            Some(Err(_)) => {}
            None => return,
        }
    }
}

/// Serves a link until it ends.
fn serve_link<S: Read + Drop, W: Write + Drop, C: Drop>(
    market: &mut Market,
    link: Opened<S, W, C>,
) {
    let Opened {
        mut reader,
        mut writer,
        ..
    } = link;
    let _ = market.serve(&mut reader, &mut writer);
}

/// Trades as the client of this name, on one link after the other, until it is over.
fn trade_on<R: Clock + Net<Listener = TcpListener, Stream = TcpStream>>(
    rt: &R,
    alloc: Global,
    name: &'static str,
    address: &str,
    is_over: &AtomicBool,
) {
    let mut orders = 0;
    for _ in 0..u64::MAX {
        if is_over.load(Ordering::SeqCst) {
            return;
        }
        if let Ok(stream) = connected(rt, address) {
            let mut client = Client::new(rt, alloc, name, stream);
            let _ = trade(rt, &mut client, &mut orders, is_over);
        }
        rest(rt, is_over);
    }
}

/// Trades on a link: logs on, with numbers that begin again, enters an order and waits until it is filled, and so on,
/// until it is over.
fn trade<R: Clock, S: Read + Write + Drop>(
    rt: &R,
    client: &mut Client<'_, R, S>,
    orders: &mut u64,
    is_over: &AtomicBool,
) -> Result<(), DemoFault> {
    client.log_on_anew()?;
    for _ in 0..u64::MAX {
        if is_over.load(Ordering::SeqCst) {
            break;
        }
        let number = orders.saturating_add(1);
        *orders = number;
        client.enter(number)?;
        client.wait_for_fills(1)?;
        rest(rt, is_over);
    }
    client.log_out()
}

/// Rests for a second, or until it is over.
fn rest<R: Clock>(rt: &R, is_over: &AtomicBool) {
    for _ in 0..LOOKS {
        if is_over.load(Ordering::SeqCst) {
            return;
        }
        thread::sleep(rt, look());
    }
}
