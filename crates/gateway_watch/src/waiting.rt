//! The orders at a port, by the board.

ghost use Rattle.std.specs.Prelude.{◌≡◌};
ghost use Rattle.gateway_watch.specs.Waits as spec;

use gate_core::{ClientRow, PortRow};

/// How many orders at a port aren't closed: those of its clients, by their rows. Of each client in its place `ports`
/// has the port that it is on; ports are numbered from 1.
pub fn orders_at(port: u16, ports: &[u16], clients: &[ClientRow]) -> usize
    ensures { result ≡ spec.orders_at port ports.now clients.now }
{
    match ports {
        [own, ports @ ..] => match clients {
            [client, clients @ ..] => {
                orders_of(port, *own, client).saturating_add(orders_at(port, ports, clients))
            }
            [] => 0,
        },
        [] => 0,
    }
}

/// The same of a client that is on this port.
fn orders_of(port: u16, own: u16, client: &ClientRow) -> usize
    ensures { result ≡ spec.orders_of port own client.now }
{
    if own == port { client.open_orders } else { 0 }
}

/// Whether orders wait at a port: it isn't up, and there are some.
pub fn orders_wait(port: &PortRow, orders: usize) -> bool
    ensures { result ≡ spec.orders_wait port.now orders }
{
    !port.state.is_up() && orders != 0
}
