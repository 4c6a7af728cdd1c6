//! The lines of a port: what stands behind its name and a space.
//!
//! | Line | Event |
//! |---|---|
//! | `up`, `gone` | the link comes up, or is gone |
//! | `tick` | time passes |
//! | `end` | an End of Session packet comes |
//! | `login S N` | a Login Accepted packet comes, by `login.rt` |
//! | `pkt HEX` | these bytes come on the link, each by two hexadecimal digits of either case |
//! | `A ..`, `E ..`, .. | the market's message, by the table of `script_lines` |

ghost use Rattle.std.specs.Prelude.{◌≡◌, IfOk, IsErrOf, true};
ghost use Rattle.script_lines.specs.MarketLines.{IsReadWhere};
ghost use Rattle.script_lines.specs.Lines as spec;
ghost use Rattle.script_lines.specs.Understood.{is_port_line, is_port_input, port_takes_memory};

use crate::fault::LineFault;
use crate::hexadecimal::bytes_of;
use crate::line::Line;
use crate::login::login_of;
use crate::market::market_message;
use crate::port::Port;
use std::alloc::Global;

/// What stands behind a port's name.
#[tactic(auto, unfolding(crate::specs::Understood::is_port_line))]
pub fn port_line(alloc: Global, port: Port, rest: &[u8]) -> Result<Line, LineFault>
    ensures said { IfOk result (spec.SaysPort port rest.now) }
    ensures understood { IsReadWhere (is_port_line rest.now) result }
    ensures memory { IsErrOf result LineFault.NoMemory → port_takes_memory rest.now ≡ true }
{
    if rest == b"up".as_slice() {
        return Ok(Line::PortUp(port));
    }
    if rest == b"gone".as_slice() {
        return Ok(Line::PortGone(port));
    }
    if rest == b"tick".as_slice() {
        return Ok(Line::PortTick(port));
    }
    if rest == b"end".as_slice() {
        return Ok(Line::PortEnd(port));
    }
    port_input(alloc, port, rest)
}

/// What comes on a port's link.
fn port_input(alloc: Global, port: Port, rest: &[u8]) -> Result<Line, LineFault>
    ensures said { IfOk result (spec.SaysPort port rest.now) }
    ensures understood { IsReadWhere (is_port_input rest.now) result }
    ensures memory { IsErrOf result LineFault.NoMemory → port_takes_memory rest.now ≡ true }
{
    if let Some(words) = rest.strip_prefix(b"login ") {
        return match login_of(words) {
            Some(login) => Ok(Line::PortLogin {
                port,
                session: login.session,
                number: login.number,
            }),
            None => Err(LineFault::NotUnderstood),
        };
    }
    if let Some(digits) = rest.strip_prefix(b"pkt ") {
        return Ok(Line::PortBytes(port, bytes_of(alloc, digits)?));
    }
    match market_message(rest) {
        Some(message) => Ok(Line::Market(port, message)),
        None => Err(LineFault::NotUnderstood),
    }
}
