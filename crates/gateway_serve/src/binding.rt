//! Listeners, all of them before anything is connected.

use control_guard::Rules;
use operator_settings::ControlSettings;
use std::alloc::{AllocError, Global};
use std::net::{Net, TcpListener, TcpStream};

/// Listeners that are bound: one for each client, and the control endpoint's, where there is one.
#[derive(Drop)]
pub struct Bound {
    pub(crate) clients: Vec<TcpListener>,
    pub(crate) control: Option<(TcpListener, Rules)>,
}

/// Binds all listeners of a gateway, before anything is connected. Each one that can't be had is told on standard error
/// with its address and reason; then it is `None`, and none is bound.
pub fn bind_all<R: Net<Listener = TcpListener, Stream = TcpStream> + Eprint>(
    rt: &R,
    alloc: Global,
    listens: &[String],
    control: &Option<ControlSettings>,
) -> Result<Option<Bound>, AllocError> {
    let clients = listeners_at(rt, alloc, listens)?;
    let control = match control {
        Some(settings) => match endpoint_at(rt, alloc, settings, listens.len())? {
            Some(endpoint) => Some(endpoint),
            None => return Ok(None),
        },
        None => None,
    };
    if clients.len() < listens.len() {
        return Ok(None);
    }
    Ok(Some(Bound { clients, control }))
}

/// The listeners that can be had at these addresses.
fn listeners_at<R: Net<Listener = TcpListener, Stream = TcpStream> + Eprint>(
    rt: &R,
    alloc: Global,
    addresses: &[String],
) -> Result<Vec<TcpListener>, AllocError> {
    let mut listeners = Vec::with_capacity(alloc, addresses.len())?;
    for address in addresses {
        if let Some(listener) = listener_at(rt, address.as_str()) {
            listeners.push(listener)?;
        }
    }
    Ok(listeners)
}

/// An endpoint's listener and rules, with so many clients; `None` where the listener can't be had.
fn endpoint_at<R: Net<Listener = TcpListener, Stream = TcpStream> + Eprint>(
    rt: &R,
    alloc: Global,
    settings: &ControlSettings,
    clients: usize,
) -> Result<Option<(TcpListener, Rules)>, AllocError> {
    match listener_at(rt, settings.listen.as_str()) {
        Some(listener) => {
            let rules = rules_of(alloc, settings, clients)?;
            Ok(Some((listener, rules)))
        }
        None => Ok(None),
    }
}

/// A listener at this address; `None`, told with its address and reason, where it can't be had.
fn listener_at<R: Net<Listener = TcpListener, Stream = TcpStream> + Eprint>(
    rt: &R,
    address: &str,
) -> Option<TcpListener> {
    match TcpListener::bind(rt, address) {
        Ok(listener) => Some(listener),
        Err(error) => {
            let _ = eprintln!(rt; "gateway: cannot listen at {address}: {error}");
            None
        }
    }
}

/// The rules of an endpoint: its own names are the address that it listens at, those of this machine at the same TCP
/// port, and the one that is set. There are so many clients.
fn rules_of(
    alloc: Global,
    settings: &ControlSettings,
    clients: usize,
) -> Result<Rules, AllocError> {
    let hosts = hosts_of(alloc, settings)?;
    let token = match &settings.token {
        Some(token) => Some(Vec::from_slice(alloc, token.as_bytes())?),
        None => None,
    };
    Ok(Rules {
        hosts,
        token,
        clients: u16::try_from(clients).unwrap_or(0),
    })
}

/// The names of an endpoint.
fn hosts_of(alloc: Global, settings: &ControlSettings) -> Result<Vec<Vec<u8>>, AllocError> {
    let mut hosts = Vec::new(alloc);
    let listen = settings.listen.as_str();
    push_copy(alloc, &mut hosts, listen)?;
    if let Some((_, port)) = listen.rsplit_once(':') {
        push_own(alloc, &mut hosts, port)?;
    }
    if let Some(host) = &settings.host {
        push_copy(alloc, &mut hosts, host.as_str())?;
    }
    Ok(hosts)
}

/// Adds this machine's names, with this TCP port.
fn push_own(alloc: Global, hosts: &mut Vec<Vec<u8>>, port: &str) -> Result<(), AllocError> {
    for host in ["127.0.0.1", "localhost", "[::1]"] {
        let name = format!(in alloc; "{host}:{port}")?;
        push_copy(alloc, hosts, name.as_str())?;
    }
    Ok(())
}

/// Adds a name.
fn push_copy(alloc: Global, hosts: &mut Vec<Vec<u8>>, name: &str) -> Result<(), AllocError> {
    let copy = Vec::from_slice(alloc, name.as_bytes())?;
    hosts.push(copy)?;
    Ok(())
}
