//! The settings of a demonstration that is served.

use crate::fault::DemoFault;
use crate::showing::loopback;
use std::alloc::Global;
use std::net::{Net, TcpListener, TcpStream};

/// A demonstration that is to be served: its market's listener, and where all else is.
#[derive(Drop)]
pub struct ServedDemo {
    /// The market listens here.
    pub market: TcpListener,
    /// Where the gateway listens for its first client.
    pub first: String,
    /// Where it listens for its second.
    pub second: String,
    /// Its settings, in TOML, with the page's address and how it is ended in front.
    pub settings: String,
}

/// A demonstration on loopback, at addresses where nobody listens: those of the clients and of the endpoint are held
/// until all are there, and then free for the gateway to bind.
///
/// `Link` where the system has none, `NoMemory` where memory runs out.
pub fn served_demo<R: Net<Listener = TcpListener, Stream = TcpStream>>(
    rt: &R,
    alloc: Global,
) -> Result<ServedDemo, DemoFault> {
    let (market, at) = loopback(rt, alloc)?;
    let (_first, first) = loopback(rt, alloc)?;
    let (_second, second) = loopback(rt, alloc)?;
    let (_control, control) = loopback(rt, alloc)?;
    let settings = settings_of(
        alloc,
        at.as_str(),
        first.as_str(),
        second.as_str(),
        control.as_str(),
    )?;
    Ok(ServedDemo {
        market,
        first,
        second,
        settings,
    })
}

/// Its settings, with its market, its clients and its endpoint at these addresses.
fn settings_of(
    alloc: Global,
    market: &str,
    first: &str,
    second: &str,
    control: &str,
) -> Result<String, DemoFault> {
    let mut settings = String::new(alloc);
    push_head(&mut settings, control)?;
    push_port(&mut settings, market)?;
    push_client(&mut settings, "C1", first)?;
    push_client(&mut settings, "C2", second)?;
    Ok(settings)
}

/// Adds where the page is and how it ends, as comments, and the gateway with its endpoint.
fn push_head(text: &mut String, control: &str) -> Result<(), DemoFault> {
    text.push_str("# the page: http://")?;
    text.push_str(control)?;
    text.push_str(
        "/\n# it ends by Ctrl-C, or by gateway end --settings FILE, with these lines in FILE\n",
    )?;
    text.push_str("comp = \"GATE\"\n[day]\nlinger = 1\n[control]\nlisten = \"")?;
    text.push_str(control)?;
    text.push_str("\"\n")?;
    Ok(())
}

/// Adds the port.
fn push_port(text: &mut String, address: &str) -> Result<(), DemoFault> {
    text.push_str("[[port]]\nname = \"P1\"\naddress = \"")?;
    text.push_str(address)?;
    text.push_str("\"\nuser = \"USER01\"\npassword = \"PASSWORD\"\n")?;
    Ok(())
}

/// Adds a client.
fn push_client(text: &mut String, name: &str, address: &str) -> Result<(), DemoFault> {
    text.push_str("[[client]]\ncomp = \"")?;
    text.push_str(name)?;
    text.push_str("\"\nlisten = \"")?;
    text.push_str(address)?;
    text.push_str("\"\nport = \"P1\"\nfirm = \"FIRM\"\ncapacity = \"A\"\ncustomer = \"R\"\n")?;
    Ok(())
}
