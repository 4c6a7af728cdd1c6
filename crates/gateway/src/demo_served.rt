//! The demonstration that goes on until it is told to end.

use super::days::{AskedDay, have_day};
use super::out_of_memory;
use gateway_demo::{DemoFault, ServedDemo, Traders, served_demo};
use gateway_run::read;
use gateway_serve::bind_all;
use operator_settings::read_operator;
use std::alloc::Global;
use std::fs::{File, Files};
use std::io::Write;
use std::net::{Net, TcpListener, TcpStream};
use std::process::ExitCode;
use std::random::RandomSource;
use std::sync::Wait;
use std::thread::Threads;
use std::time::Clock;

/// A demonstration that is to be served: what its settings ask for, and where its market and clients are.
#[derive(Drop)]
pub(crate) struct AskedDemo {
    asked: AskedDay,
    market: TcpListener,
    first: String,
    second: String,
}

/// A demonstration on loopback, with all listeners bound, once its settings are printed, the page's address in front;
/// or the status where it can't be had.
pub(crate) fn asked_demo(rt: &HostRuntime) -> Result<AskedDemo, ExitCode> {
    let demo = match served_demo(rt, rt.alloc()) {
        Ok(demo) => demo,
        Err(fault) => return Err(untold(fault, &mut rt.stderr())),
    };
    let asked = asked_by(rt, demo.settings.as_str())?;
    let _ = rt.print(demo.settings.as_str());
    let ServedDemo {
        market,
        first,
        second,
        ..
    } = demo;
    Ok(AskedDemo {
        asked,
        market,
        first,
        second,
    })
}

/// What these settings ask for, with all listeners bound, or the status where they can't be had.
fn asked_by(rt: &HostRuntime, settings: &str) -> Result<AskedDay, ExitCode> {
    let Ok(file) = read(rt.alloc(), settings.as_bytes()) else {
        return Err(out_of_memory(rt));
    };
    let Ok(operator) = read_operator(rt.alloc(), settings.as_bytes()) else {
        return Err(out_of_memory(rt));
    };
    match bind_all(rt, rt.alloc(), &file.listens, &operator.control) {
        Ok(Some(bound)) => Ok(AskedDay::Serve {
            file,
            journal: None,
            operator,
            bound,
        }),
        Ok(None) => Err(ExitCode::from(2)),
        Err(_) => Err(out_of_memory(rt)),
    }
}

/// Serves a gateway between two clients and a market that trade, until it is told to end, and ends its day.
pub(crate) fn serve_demo<R, F: Write>(
    rt: &R,
    alloc: Global,
    demo: AskedDemo,
    faults: &mut F,
) -> ExitCode
where
    R: Threads
        + Wait
        + Sync
        + Clock
        + Net<Listener = TcpListener, Stream = TcpStream>
        + RandomSource
        + Files<File = File>
        + Print
        + Eprint
        + Copy
        + Send
        + Drop
        + 'static,
{
    let AskedDemo {
        asked,
        market,
        first,
        second,
    } = demo;
    match Traders::start(rt, alloc, market, first, second) {
        Ok(traders) => {
            let status = have_day(rt, alloc, asked, None, faults);
            traders.end(rt);
            status
        }
        Err(fault) => untold(fault, faults),
    }
}

/// Tells why the demonstration can't begin, and gives the status to end with.
fn untold<F: Write>(fault: DemoFault, faults: &mut F) -> ExitCode {
    let _ = match fault {
        DemoFault::NoMemory => writeln!(faults, "out of memory"),
        DemoFault::NoThread => writeln!(faults, "gateway: no thread"),
        DemoFault::Link(_) => writeln!(faults, "gateway: no address on loopback can be had"),
        DemoFault::NotFinished => writeln!(faults, "demo: not finished"),
    };
    ExitCode::from(1)
}
