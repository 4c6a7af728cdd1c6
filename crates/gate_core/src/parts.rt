//! The parts of the core, and the events that step them.

mod client_frames;
mod client_links;
mod client_messages;
mod due;
mod event_targets;
mod events;
pub(crate) mod new;
mod port_links;
mod port_packets;
mod port_payloads;
mod settling;

ghost use Rattle.std.specs.Prelude.{◌≡◌, ◌<◌, ◌+◌, ◌&&◌, nat_le, is_some, IfSome};

use gate_sessions::{Clients, Ports};
use order_core::OrderCore;
use std::hash::{BuildHasher, BuildHasherDefault, FoldHasher};

/// The lines of all clients and ports, and the order level.
pub(crate) struct Parts<S: BuildHasher + Drop = BuildHasherDefault<FoldHasher>> {
    pub(crate) clients: Clients,
    pub(crate) ports: Ports,
    /// The port of each client, by the client's place.
    pub(crate) client_ports: Vec<u16>,
    pub(crate) orders: OrderCore<S>,
}

// Not derived: then each way out drops it in one call (docs/DECISIONS.md, "Drops").
impl<S: BuildHasher + Drop> Drop for Parts<S> {
    fn drop(self) {
        let Parts {
            clients: _,
            ports: _,
            client_ports: _,
            orders: _,
        } = self;
    }
}

/// The index of a number from 1 among this many, if it is one of them.
fn place_of(number: u16, count: usize) -> Option<usize>
    ensures known { is_some result ≡ (nat_le 1 number && nat_le number count) }
    ensures place { IfSome result (λ place. (number ≡ place + 1) × (place < count)) }
{
    let place = usize::from(number).checked_sub(1)?;
    if place < count { Some(place) } else { None }
}
