//! The settings of the core.

ghost use Rattle.std.specs.Prelude.{◌≡◌, ◌≤◌, All, length, true};
ghost use Rattle.gate_law.specs.fix_fields.Field.{IsValue};
ghost use Rattle.gate_law.specs.Limits as limits;
ghost use Rattle.gate_law.specs.Limits.{is_served};
ghost use Rattle.gate_settings.specs.Kept.{CanLogIn, IsNamed, IsOnPort};
ghost use Rattle.gate_settings.specs.Seen.{settings_of};

use crate::client_settings::ClientSettings;
use crate::limits::{are_clients, are_ports, is_between, is_each_own, is_name};
use crate::port_settings::PortSettings;
use fix_fields::Text;
use std::marker::Model;

/// The gateway's name, its ports and its clients, each numbered from 1 in this order. Contracts see the law's
/// settings, and all of them are served.
#[derive(Drop)]
pub struct Settings {
    comp: Text,
    ports: Vec<PortSettings>,
    clients: Vec<ClientSettings>,
}

impl Model for Settings {
    ghost use Rattle.std.specs.Prelude.{◌≡◌, true};
    ghost use Rattle.gate_law.specs.Settings as law;
    ghost use Rattle.gate_law.specs.Limits.{is_served};
    ghost use Rattle.gate_settings.specs.Seen.{settings_of};

    ghost Value = { law.Settings };

    ghost view = { λ s. settings_of s.comp s.ports.items s.clients.items };

    ghost invariant = { λ s. is_served (settings_of s.comp s.ports.items s.clients.items) ≡ true };
}

impl Settings {
    /// These settings, which are served: `are_served` tells. Takes no memory.
    pub fn new(comp: Text, ports: Vec<PortSettings>, clients: Vec<ClientSettings>) -> Settings
        requires { is_served (settings_of comp ports.items clients.items) ≡ true }
        ensures { result ≡ settings_of comp ports.items clients.items }
    {
        Settings {
            comp,
            ports,
            clients,
        }
    }

    /// Whether these settings are served, so that `new` may be called with them. Takes no memory.
    ///
    /// Names have 1 to 20 bytes from 33 to 126, users 1 to 6 bytes, passwords at most 10. There are 1 to 16 ports and
    /// 1 to 64 clients, each client with a name of its own, on one of the ports, with a capacity of A, P or R and a
    /// customer of R, N or a space.
    ///
    /// Source: FIX 4.4 Volume 2, "Standard Message Header"; SoupBinTCP 3.00, "Login Request Packet"; OUCH 4.2, "Enter
    /// Order Message". How many there may be, and how long a name, is this gateway's own.
    pub fn are_served(comp: &Text, ports: &[PortSettings], clients: &[ClientSettings]) -> bool
        ensures { result ≡ is_served (settings_of comp.now ports.now clients.now) }
    {
        is_name(comp.as_slice())
            && is_between(1, 16, ports.len())
            && are_ports(ports)
            && is_between(1, 64, clients.len())
            && are_clients(ports, clients)
            && is_each_own(clients)
    }

    /// The gateway's own name: the TargetCompID (56) of what clients send, the SenderCompID (49) of what they are
    /// sent. 1 to 20 bytes from 33 to 126.
    ///
    /// Source: FIX 4.4 Volume 2, "Standard Message Header".
    pub fn comp(&self) -> &[u8]
        ensures comp { result.now ≡ self.now.comp }
        ensures value { IsValue result.now }
        ensures served { is_served self.now ≡ true }
    {
        self.comp.as_slice()
    }

    /// The ports, 1 to 16, the first of them number 1.
    pub fn ports(&self) -> &[PortSettings]
        ensures ports { result.now ≡ self.now.ports }
        ensures count { (1 ≤ length result.now) × (length result.now ≤ 16) }
        ensures logins { All CanLogIn result.now }
    {
        self.ports.as_slice()
    }

    /// The clients, 1 to 64, the first of them number 1.
    pub fn clients(&self) -> &[ClientSettings]
        ensures clients { result.now ≡ self.now.clients }
        ensures count { (1 ≤ length result.now) × (length result.now ≤ 64) }
        ensures ports { All (IsOnPort (length self.now.ports)) result.now }
        ensures names { All IsNamed result.now }
    {
        self.clients.as_slice()
    }
}
