//! The lines of a client: what stands behind its name and a space.
//!
//! | Line | Event |
//! |---|---|
//! | `up`, `gone` | the link comes up, or is gone |
//! | `tick` | time passes |
//! | `msg 35=..\|..` | a frame of these fields; `\|` stands for SOH, the last one is left out |
//! | `raw ..` | these bytes come on the link; `\|` stands for SOH |

ghost use Rattle.std.specs.Prelude.{◌≡◌, IfOk, IsErrOf, true};
ghost use Rattle.script_lines.specs.MarketLines.{IsReadWhere};
ghost use Rattle.script_lines.specs.Lines as spec;
ghost use Rattle.script_lines.specs.Understood.{is_client_line, is_client_input, client_takes_memory, is_msg_text};

use crate::bars::{soh_for_bars, split_bars};
use crate::client::Client;
use crate::fault::LineFault;
use crate::line::Line;
use fix_fields::Fields;
use std::alloc::Global;

/// MsgType, the first field of a message.
///
/// Source: FIX 4.4 Volume 2, "Standard Message Header".
const MSG_TYPE: u32 = 35;

/// What stands behind a client's name.
#[tactic(auto, unfolding(crate::specs::Understood::is_client_line))]
pub fn client_line(alloc: Global, client: Client, rest: &[u8]) -> Result<Line, LineFault>
    ensures said { IfOk result (spec.SaysClient client rest.now) }
    ensures understood { IsReadWhere (is_client_line rest.now) result }
    ensures memory { IsErrOf result LineFault.NoMemory → client_takes_memory rest.now ≡ true }
{
    if rest == b"up".as_slice() {
        return Ok(Line::ClientUp(client));
    }
    if rest == b"gone".as_slice() {
        return Ok(Line::ClientGone(client));
    }
    if rest == b"tick".as_slice() {
        return Ok(Line::ClientTick(client));
    }
    client_input(alloc, client, rest)
}

/// What comes on a client's link.
fn client_input(alloc: Global, client: Client, rest: &[u8]) -> Result<Line, LineFault>
    ensures said { IfOk result (spec.SaysClient client rest.now) }
    ensures understood { IsReadWhere (is_client_input rest.now) result }
    ensures memory { IsErrOf result LineFault.NoMemory → client_takes_memory rest.now ≡ true }
{
    if let Some(text) = rest.strip_prefix(b"msg ") {
        return Ok(Line::ClientMessage(client, message_fields(alloc, text)?));
    }
    if let Some(text) = rest.strip_prefix(b"raw ") {
        return Ok(Line::ClientBytes(client, soh_for_bars(alloc, text)?));
    }
    Err(LineFault::NotUnderstood)
}

/// The fields of a text, the first of which is MsgType (35).
#[tactic(auto, unfolding(crate::specs::Understood::is_msg_text))]
fn message_fields(alloc: Global, text: &[u8]) -> Result<Fields, LineFault>
    ensures said { IfOk result (spec.SaysFields text.now) }
    ensures understood { IsReadWhere (is_msg_text text.now) result }
{
    let fields = split_bars(alloc, text)?;
    if fields.is_empty() {
        return Err(LineFault::NotUnderstood);
    }
    if fields.at(0).tag != MSG_TYPE {
        return Err(LineFault::NotUnderstood);
    }
    Ok(fields)
}
