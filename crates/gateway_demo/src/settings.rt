//! The settings of the demonstration.

ghost use Rattle.std.specs.Prelude.{◌≡◌, IfOk};
ghost use Rattle.gate_core.specs.fix_fields.Field.{IsValue};
ghost use Rattle.gateway_demo.specs.Settings as spec;

use gate_core::{ClientSettings, ClientTerms, PortSettings, Settings, Text};
use std::alloc::{AllocError, Global};

/// Gateway `GATE`; clients `C1` and `C2` of the firm `FIRM` on one port, whose user is `USER01` and its password
/// `PASSWORD`.
pub(crate) fn demo_settings(alloc: Global) -> Result<Settings, AllocError>
    ensures { IfOk result (λ settings. settings ≡ spec.demo_settings) }
{
    let gate = Text::copied(alloc, b"GATE")?;
    let ports = vec![in alloc; port(alloc)?]?;
    let clients = vec![in alloc; client(alloc, b"C1")?, client(alloc, b"C2")?]?;
    Ok(Settings::new(gate, ports, clients))
}

/// Who logs in on the port.
fn port(alloc: Global) -> Result<PortSettings, AllocError>
    ensures { IfOk result (λ port. port ≡ spec.demo_login) }
{
    Ok(PortSettings {
        user: Vec::from_slice(alloc, b"USER01")?,
        password: Vec::from_slice(alloc, b"PASSWORD")?,
    })
}

/// A client of this name.
fn client(alloc: Global, name: &[u8; 2]) -> Result<ClientSettings, AllocError>
    requires { IsValue name.now }
    ensures { IfOk result (λ client. client ≡ spec.demo_client name.now) }
{
    Ok(ClientSettings {
        comp: Text::copied(alloc, name)?,
        terms: ClientTerms {
            port: 1,
            firm: *b"FIRM",
            capacity: b'A',
            customer: b'R',
        },
    })
}
