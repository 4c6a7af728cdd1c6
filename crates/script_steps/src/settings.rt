//! The fixed settings of a script.

ghost use Rattle.std.specs.Prelude.{◌≡◌, IfOk};
ghost use Rattle.fix_fields.specs.Field.{IsValue};
ghost use Rattle.script_lines.specs.Names.{port_number};
ghost use Rattle.script_steps.specs.Settings as spec;

use fix_fields::Text;
use gate_core::{ClientSettings, ClientTerms, PortSettings, Settings};
use script_lines::Port;
use std::alloc::{AllocError, Global};

/// The settings of a script: gateway `GATE`; clients `C1` and `C2` on port 1, `C3` on port 2, each of the firm `FIRM`
/// with capacity `A` and customer `R`; the user of each port `USER01`, its password `PASSWORD`.
pub fn fixed_settings(alloc: Global) -> Result<Settings, AllocError>
    ensures { IfOk result (λ settings. settings ≡ spec.fixed) }
{
    let gate = Text::copied(alloc, b"GATE")?;
    let ports = vec![in alloc; port(alloc)?, port(alloc)?]?;
    let clients = vec![in alloc;
        client(alloc, b"C1", Port::First)?,
        client(alloc, b"C2", Port::First)?,
        client(alloc, b"C3", Port::Second)?,
    ]?;
    Ok(Settings::new(gate, ports, clients))
}

/// Who logs in on each port.
fn port(alloc: Global) -> Result<PortSettings, AllocError>
    ensures { IfOk result (λ port. port ≡ spec.fixed_login) }
{
    Ok(PortSettings {
        user: Vec::from_slice(alloc, b"USER01")?,
        password: Vec::from_slice(alloc, b"PASSWORD")?,
    })
}

/// A client of this name on a port.
fn client(alloc: Global, name: &[u8; 2], port: Port) -> Result<ClientSettings, AllocError>
    requires { IsValue name.now }
    ensures { IfOk result (λ client. client ≡ spec.fixed_client name.now (port_number port)) }
{
    Ok(ClientSettings {
        comp: Text::copied(alloc, name)?,
        terms: ClientTerms {
            port: port.number(),
            firm: *b"FIRM",
            capacity: b'A',
            customer: b'R',
        },
    })
}
