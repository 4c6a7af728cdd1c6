//! Which settings are served: a function for each line of the definition.

ghost use Rattle.std.specs.Prelude.{◌≡◌, [], map, bytes_eq};
ghost use Rattle.std.specs.List.{list_all, list_any};
ghost use Rattle.gate_law.specs.Settings as law;
ghost use Rattle.gate_law.specs.Limits as limits;
ghost use Rattle.gate_settings.specs.Seen.{settings_of};

use crate::client_settings::ClientSettings;
use crate::port_settings::PortSettings;
use wire_law::are_visible;

/// Whether so many are from the least to the most.
pub fn is_between(least: usize, most: usize, count: usize) -> bool
    ensures { result ≡ limits.is_between least most count }
{
    least <= count && count <= most
}

/// Whether these bytes may be a name, of the gateway or of a client: 1 to 20 of them, each from 33 to 126.
pub fn is_name(name: &[u8]) -> bool
    ensures { result ≡ limits.is_name name.now }
{
    is_between(1, 20, name.len()) && are_visible(name)
}

/// Whether a letter is one of these.
fn is_one_of(letters: &[u8], letter: u8) -> bool
    ensures { result ≡ limits.is_byte_of letters.now letter }
{
    letters.iter().any(|known| *known == letter)
}

/// Whether a session can log in so: a user of 1 to 6 bytes, a password of at most 10.
fn is_port(port: &PortSettings) -> bool
    ensures { result ≡ limits.is_port port.now }
{
    is_between(1, 6, port.user.len()) && port.password.len() <= 10
}

/// Whether each port can be logged in.
pub fn are_ports(ports: &[PortSettings]) -> bool
    ensures { result ≡ list_all limits.is_port ports.now }
{
    ports.iter().all(|port| is_port(port))
}

/// Whether there is a port of this number, from 1.
fn has_port(ports: &[PortSettings], port: u16) -> bool
    ensures { result ≡ law.has_port (settings_of [] ports.now []) port }
{
    1 <= port && usize::from(port) <= ports.len()
}

/// Whether a client beside these ports is served: its name, its port, its capacity and its customer. Its firm always
/// has four bytes from 32 to 126, by its type.
fn is_client(ports: &[PortSettings], client: &ClientSettings) -> bool
    ensures { result ≡ limits.is_client (settings_of [] ports.now []) client.now }
{
    is_name(client.comp.as_slice())
        && has_port(ports, client.terms.port)
        && is_one_of(b"APR", client.terms.capacity)
        && is_one_of(b"RN ", client.terms.customer)
}

/// Whether each client beside these ports is served.
pub fn are_clients(ports: &[PortSettings], clients: &[ClientSettings]) -> bool
    ensures { result ≡ list_all (limits.is_client (settings_of [] ports.now [])) clients.now }
{
    clients.iter().all(|client| is_client(ports, client))
}

/// Whether one of these clients has this name.
fn is_named(name: &[u8], clients: &[ClientSettings]) -> bool
    ensures { result ≡ list_any (λ c. bytes_eq name.now c.comp) clients.now }
{
    clients.iter().any(|client| has_name(name, client))
}

/// Whether a client has this name.
fn has_name(name: &[u8], client: &ClientSettings) -> bool
    ensures { result ≡ bytes_eq name.now client.now.comp }
{
    name == client.comp.as_slice()
}

/// Whether no two of these clients have the same name.
pub fn is_each_own(clients: &[ClientSettings]) -> bool
    ensures { result ≡ limits.is_each_own (map (λ (c : law.ClientSettings). c.comp) clients.now) }
{
    let [first, rest @ ..] = clients else {
        return true;
    };
    !is_named(first.comp.as_slice(), rest) && is_each_own(rest)
}
