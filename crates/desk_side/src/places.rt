//! The places of producers.

ghost use Rattle.std.specs.Prelude.{◌≡◌, ◌<◌, ◌+◌, ◌^◌};
ghost use Rattle.desk_side.specs.Places.{client_place, port_place};

use gate_events::{ClientNumber, PortNumber};

/// The place of the producer for a client.
pub(crate) fn place_of_client(clients: usize, number: Option<u16>) -> Option<usize>
    ensures { result ≡ client_place clients number }
{
    let place = usize::from(number?).checked_sub(1)?;
    if place < clients { Some(place) } else { None }
}

/// The place of the producer for a port.
pub(crate) fn place_of_port(clients: usize, ports: usize, number: Option<u16>) -> Option<usize>
    requires few { clients + ports < 2 ^ 64 }
    ensures { result ≡ port_place clients ports number }
{
    let place = usize::from(number?).checked_sub(1)?;
    if place < ports {
        Some(clients + place)
    } else {
        None
    }
}

/// A client's number, where there is one.
pub(crate) fn client_number(client: Option<ClientNumber>) -> Option<u16>
    ensures { result ≡ client }
{
    match client {
        Some(client) => Some(client.number()),
        None => None,
    }
}

/// A port's number, where there is one.
pub(crate) fn port_number(port: Option<PortNumber>) -> Option<u16>
    ensures { result ≡ port }
{
    match port {
        Some(port) => Some(port.number()),
        None => None,
    }
}
