//! All of it at once.

ghost use Rattle.std.specs.Prelude.{◌≡◌, ◌≤◌};
ghost use Rattle.gateway_day.specs.Audits.{AuditIsWritten};

use crate::client::Client;
use crate::fault::DemoFault;
use crate::market::Market;
use crate::settings::demo_settings;
use gate_serving::{Opened, Opener};
use gateway_run::{Day, LinkRules, RunFault, RunPlan, audit_day, run};
use link_sockets::{Acceptor, Connector};
use std::alloc::{AllocError, Global};
use std::hash::RandomState;
use std::io::{Read, Write};
use std::net::{Net, TcpListener, TcpStream};
use std::sync::Wait;
use std::sync::atomic::{AtomicBool, Ordering};
use std::thread;
use std::thread::{JoinHandle, Threads};
use std::time::{Clock, Duration};

/// A listener on loopback, and its address.
pub(crate) fn loopback<R: Net<Listener = TcpListener, Stream = TcpStream>>(
    rt: &R,
    alloc: Global,
) -> Result<(TcpListener, String), DemoFault> {
    let listener = TcpListener::bind(rt, "127.0.0.1:0")?;
    let port = listener.local_addr()?.port();
    let address = format!(in alloc; "127.0.0.1:{port}")?;
    Ok((listener, address))
}

/// How long a client waits at most for each thing that is to come.
fn patience() -> Duration {
    Duration::from_secs(10)
}

/// A client's stream to an address.
pub(crate) fn connected<R: Net<Listener = TcpListener, Stream = TcpStream>>(
    rt: &R,
    address: &str,
) -> Result<TcpStream, DemoFault> {
    let stream = TcpStream::connect(rt, address)?;
    stream.set_nodelay(true)?;
    stream.set_read_timeout(Some(patience()))?;
    Ok(stream)
}

/// Runs the demonstration (`demo`), and writes the audit of its day to `output`.
///
/// Answers its program's status: 0 where both accounts of each order agree; else 1, with a line on `faults`: `demo: not
/// finished` where a client waited ten seconds for what didn't come, `gateway: link fault n` for a socket that couldn't
/// be had or failed, `gateway: no thread`, `out of memory`, and what `audit_day` tells.
pub fn show_demo<R, W: Write, F: Write>(
    rt: &R,
    alloc: Global,
    hasher: RandomState,
    output: &mut W,
    faults: &mut F,
) -> u8
where
    R: Threads + Wait + Sync + Clock + Eprint + Net<Listener = TcpListener, Stream = TcpStream>,
    ensures status { result ≤ 1 }
    ensures written { result ≡ 0 → AuditIsWritten (W.contents output.old) (W.contents output.new) }
{
    match demo(rt, alloc, hasher) {
        Ok(day) => audit_day(alloc, day, output, faults),
        Err(fault) => write_fault(fault, faults),
    }
}

/// Tells why the demonstration did not come to its end, and answers its program's status.
fn write_fault<F: Write>(fault: DemoFault, faults: &mut F) -> u8
    ensures { result ≡ 1 }
{
    let _ = match fault {
        DemoFault::NoMemory => writeln!(faults, "out of memory"),
        DemoFault::NoThread => writeln!(faults, "gateway: no thread"),
        DemoFault::Link(fault) => writeln!(faults, "gateway: link fault {}", fault.number()),
        DemoFault::NotFinished => writeln!(faults, "demo: not finished"),
    };
    1
}

/// Runs the gateway on loopback between two clients and a market, until each client's three orders are filled, and
/// gives its day. The gateway's indexes are over a hasher.
fn demo<R>(rt: &R, alloc: Global, hasher: RandomState) -> Result<Day, DemoFault>
where
    R: Threads + Wait + Sync + Clock + Eprint + Net<Listener = TcpListener, Stream = TcpStream>,
{
    let is_over = AtomicBool::new(false);
    let is_past = AtomicBool::new(false);
    demonstrate(rt, alloc, hasher, &is_over, &is_past)
}

/// The same with these flags: `is_over` ends the gateway, and `is_past` the market behind it.
fn demonstrate<R>(
    rt: &R,
    alloc: Global,
    hasher: RandomState,
    is_over: &AtomicBool,
    is_past: &AtomicBool,
) -> Result<Day, DemoFault>
where
    R: Threads + Wait + Sync + Clock + Eprint + Net<Listener = TcpListener, Stream = TcpStream>,
{
    let (first, first_address) = loopback(rt, alloc)?;
    let (second, second_address) = loopback(rt, alloc)?;
    let (market, market_address) = loopback(rt, alloc)?;
    let plan = plan_of(rt, alloc, first, second, &market_address, is_over)?;
    let settings = demo_settings(alloc)?;
    let (first, second) = (first_address.as_str(), second_address.as_str());
    thread::scope(thread::scope_env(), rt, |scope| {
        let market = scope
            .spawn(move || serve_market(rt, alloc, market, is_past))
            .ok();
        let one = scope
            .spawn(move || trade(rt, alloc, "C1", first, is_over))
            .ok();
        let two = scope
            .spawn(move || trade(rt, alloc, "C2", second, is_over))
            .ok();
        if market.is_none() || one.is_none() || two.is_none() {
            is_over.store(true, Ordering::SeqCst);
        }
        let ran = run(rt, alloc, hasher, settings, plan, is_over);
        is_over.store(true, Ordering::SeqCst);
        is_past.store(true, Ordering::SeqCst);
        ended(rt, ran, market, one, two)
    })
}

/// A market or a client, in a thread of its own.
type Trader = JoinHandle<Result<(), DemoFault>>;

/// The day of a gateway that has ended, once its market and its clients have; `NoThread` where one of them had none.
fn ended<R: Threads + Wait>(
    rt: &R,
    ran: Result<Day, RunFault>,
    market: Option<Trader>,
    one: Option<Trader>,
    two: Option<Trader>,
) -> Result<Day, DemoFault> {
    let (Some(market), Some(one), Some(two)) = (market, one, two) else {
        return Err(DemoFault::NoThread);
    };
    let (market, one, two) = (market.join(rt), one.join(rt), two.join(rt));
    day_of(ran, market, one.and(two))
}

/// The day of a gateway that ran to its end, where its clients have done all that they do; else why they have not: by
/// the gateway's fault, one of its links', the market's or the clients', whichever there is first.
fn day_of(
    ran: Result<Day, RunFault>,
    market: Result<(), DemoFault>,
    clients: Result<(), DemoFault>,
) -> Result<Day, DemoFault> {
    let day = ran?;
    if clients.is_ok() {
        return Ok(day);
    }
    if let Some(fault) = day.fault() {
        return Err(DemoFault::Link(fault));
    }
    market?;
    clients?;
    Ok(day)
}

/// One link for each client and for the port.
fn plan_of<'a, R>(
    rt: &'a R,
    alloc: Global,
    first: TcpListener,
    second: TcpListener,
    market: &'a str,
    is_over: &'a AtomicBool,
) -> Result<RunPlan<Acceptor<'a, R>, Connector<'a, R>>, AllocError> {
    Ok(RunPlan {
        clients: vec![in alloc;
            Acceptor::of_listener(rt, first, 1, is_over),
            Acceptor::of_listener(rt, second, 1, is_over),
        ]?,
        ports: vec![in alloc; Connector::new(rt, market, 1, is_over)]?,
        rules: LinkRules {
            logs_frames: false,
            leaves_alone: false,
        },
    })
}

/// Serves the link of the gateway's port, until it is closed or `is_past` is set.
fn serve_market<'a, R: Clock + Net<Listener = TcpListener, Stream = TcpStream>>(
    rt: &'a R,
    alloc: Global,
    listener: TcpListener,
    is_past: &'a AtomicBool,
) -> Result<(), DemoFault> {
    let mut links = Acceptor::of_listener(rt, listener, 1, is_past);
    let Some(link) = links.open() else {
        return Ok(());
    };
    let Opened {
        mut reader,
        mut writer,
        ..
    } = link.map_err(DemoFault::Link)?;
    Market::new(alloc).serve(&mut reader, &mut writer)
}

/// Connects a client, and has it buy all that is to be bought. Where it can't, `is_over` is set: nobody else waits.
fn trade<R: Clock + Net<Listener = TcpListener, Stream = TcpStream>>(
    rt: &R,
    alloc: Global,
    name: &'static str,
    address: &str,
    is_over: &AtomicBool,
) -> Result<(), DemoFault> {
    let traded = match connected(rt, address) {
        Ok(stream) => buy_all(Client::new(rt, alloc, name, stream)),
        Err(fault) => Err(fault),
    };
    if traded.is_err() {
        is_over.store(true, Ordering::SeqCst);
    }
    traded
}

/// Logs on, buys, waits until all is filled, and logs out.
fn buy_all<R: Clock, S: Read + Write + Drop>(mut client: Client<R, S>) -> Result<(), DemoFault> {
    client.log_on()?;
    for number in 1..4 {
        client.enter(number)?;
    }
    client.wait_for_fills(3)?;
    client.log_out()
}
