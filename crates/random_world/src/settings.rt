//! The settings of a world.

use fix_fields::is_value;
use gate_core::{ClientSettings, ClientTerms, PortSettings, Settings, Text};
use std::alloc::{AllocError, Global};

/// The settings of a world with so many clients and ports: gateway `GATE`, clients `C1`, `C2` and so on, which take the
/// ports in turn. `None` where there would be none of either, more than 64 clients or more than 16 ports.
pub fn world_settings(
    alloc: Global,
    clients: u16,
    ports: u16,
) -> Result<Option<Settings>, AllocError> {
    let gate = Text::copied(alloc, b"GATE")?;
    let clients = clients_of(alloc, clients, ports)?;
    let ports = ports_of(alloc, ports)?;
    if !Settings::are_served(&gate, ports.as_slice(), clients.as_slice()) {
        return Ok(None);
    }
    Ok(Some(Settings::new(gate, ports, clients)))
}

/// So many ports.
fn ports_of(alloc: Global, count: u16) -> Result<Vec<PortSettings>, AllocError> {
    let mut ports = Vec::new(alloc);
    for _ in 0..count {
        ports.push(PortSettings {
            user: Vec::from_slice(alloc, b"USER01")?,
            password: Vec::from_slice(alloc, b"PASSWORD")?,
        })?;
    }
    Ok(ports)
}

/// So many clients, which take so many ports in turn.
fn clients_of(alloc: Global, count: u16, ports: u16) -> Result<Vec<ClientSettings>, AllocError> {
    let mut clients = Vec::new(alloc);
    for place in 0..count {
        clients.push(client(alloc, place, ports)?)?;
    }
    Ok(clients)
}

/// The client at a place.
fn client(alloc: Global, place: u16, ports: u16) -> Result<ClientSettings, AllocError> {
    let port = if ports == 0 { 1 } else { place % ports + 1 };
    Ok(ClientSettings {
        comp: client_name(alloc, place)?,
        terms: ClientTerms {
            port,
            firm: *b"FIRM",
            capacity: b'A',
            customer: b'R',
        },
    })
}

/// The name of the client at a place: `C` and its number.
fn client_name(alloc: Global, place: u16) -> Result<Text, AllocError> {
    let name = format!(in alloc; "C{}", u32::from(place) + 1)?;
    let bytes = name.as_str().as_bytes();
    if !is_value(bytes) {
        // digits are values; settings with a client of no name aren't served
        return Text::copied(alloc, &[]);
    }
    Text::copied(alloc, bytes)
}
