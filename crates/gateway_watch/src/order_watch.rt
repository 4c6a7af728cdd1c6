//! What is told of orders that wait at a port that isn't up.

ghost use Rattle.std.specs.Prelude.{◌≡◌, ◌<◌, IfOk};
ghost use Rattle.gateway_watch.specs.ClientPorts as spec;

use crate::wait::{PortWait, due_since, wait_after};
use crate::waiting::{orders_at, orders_wait};
use desk_steps::Status;
use fix_stamp::stamp;
use gate_core::PortRow;
use gate_settings::Settings;
use gateway_log::{LinkLog, Whose};
use std::alloc::{AllocError, Global};
use std::fmt::{Display, Formatter};
use std::time::Clock;
use std::{fmt, str};

/// How many ports there are at most.
const PORTS: usize = 16;

/// Of each client, in the order of the settings, the port that it is on, by its number from 1.
pub fn ports_of_clients(alloc: Global, settings: &Settings) -> Result<Vec<u16>, AllocError>
    ensures { IfOk result (λ ports. ports.items ≡ spec.ports_of_clients settings.now) }
{
    let mut ports = Vec::new(alloc);
    for client in settings.clients() {
        ports.push(client.terms.port)?;
    }
    Ok(ports)
}

/// Tells of each port on which orders wait, once they have for ten seconds, and at each doubling.
#[derive(Drop)]
pub struct OrderWatch<'a, R> {
    rt: &'a R,
    /// Of each client the port that it is on.
    clients: &'a [u16],
    /// Of each port in its place how long orders wait there.
    waits: [Option<PortWait>; PORTS],
}

impl<'a, R: Clock + Eprint> OrderWatch<'a, R> {
    /// No orders wait yet; of each client this is its port. Takes no memory.
    pub fn new(rt: &'a R, clients: &'a [u16]) -> OrderWatch<'a, R> {
        OrderWatch {
            rt,
            clients,
            waits: [None; PORTS],
        }
    }

    /// Looks how all stand at this moment, and tells what is due.
    pub fn look(&mut self, status: &Status, now: u64) {
        for (place, port) in status.ports().iter().enumerate() {
            if place < PORTS {
                self.look_at(place, port, status, now);
            }
        }
    }

    /// The same of the port in this place.
    fn look_at(&mut self, place: usize, port: &PortRow, status: &Status, now: u64)
        requires { place < 16 }
    {
        let number = place + 1;
        let orders = orders_at(number as u16, self.clients, status.clients());
        let is_waiting = orders_wait(port, orders);
        let before = self.waits[place];
        self.waits[place] = wait_after(before, is_waiting, now);
        if let Some(since) = due_since(before, is_waiting, now) {
            LinkLog::new(self.rt, Whose::Port(number)).log_of(&OrdersWait { orders, since });
        }
    }
}

/// That so many orders wait, since this moment, in milliseconds since 1970.
#[derive(Drop)]
struct OrdersWait {
    orders: usize,
    since: u64,
}

impl Display for OrdersWait {
    fn fmt<W: fmt::Write>(&self, f: &mut Formatter<W>) -> fmt::Result {
        let (orders, at) = (self.orders, stamp(self.since));
        let time = str::from_utf8(&at[9..17]).unwrap_or("");
        write!(f, "{orders} orders wait, since {time}")
    }
}
