//! What a line of a script asks for.
//!
//! | Line | Event |
//! |---|---|
//! | nothing | none |
//! | `at N` | the moment from here on, in milliseconds |
//! | `C1 up`, `C1 msg 35=..`, .. | what happens at a client, by the table in `client_lines.rt` |
//! | `P1 up`, `P1 A ..`, .. | what happens at a port, by the table in `port_lines.rt` |
//!
//! Any other line isn't understood.

ghost use Rattle.std.specs.Prelude.{◌≡◌, IfOk, IsErrOf, true};
ghost use Rattle.script_lines.specs.MarketLines.{IsReadWhere};
ghost use Rattle.script_lines.specs.Forms.{is_number64};
ghost use Rattle.script_lines.specs.Lines as spec;
ghost use Rattle.script_lines.specs.Understood.{is_understood, takes_memory};

use crate::client::Client;
use crate::client_lines::client_line;
use crate::fault::LineFault;
use crate::port::Port;
use crate::port_lines::port_line;
use crate::words::number;
use fix_fields::Fields;
use ouch_codec::Outbound;
use std::alloc::Global;

/// What a line asks for.
#[derive(Drop)]
pub enum Line {
    /// Nothing: the line is empty.
    Empty,
    /// The moment from here on, in milliseconds.
    At(u64),
    /// A client's link comes up.
    ClientUp(Client),
    /// A client's link is gone.
    ClientGone(Client),
    /// Time passes for a client.
    ClientTick(Client),
    /// The fields of a `msg` line, as the line gives them: MsgType (35) first, with any value. Behind it any tags may
    /// stand in any order, also 8, 9, 10, 49, 52 and 56, more than once, and with empty values: a session judges them.
    /// A given MsgSeqNum (34) stays where it stands. What else a frame has is added by who steps it: SenderCompID (49),
    /// TargetCompID (56), SendingTime (52), and 34 unless it is given. How long the frame is isn't looked at.
    ///
    /// Source: FIX 4.4 Volume 2, "Standard Message Header".
    ClientMessage(Client, Fields),
    /// Bytes that come on a client's link.
    ClientBytes(Client, Vec<u8>),
    /// A port's link comes up.
    PortUp(Port),
    /// A port's link is gone.
    PortGone(Port),
    /// Time passes for a port.
    PortTick(Port),
    /// A port's End of Session packet.
    PortEnd(Port),
    /// A port's Login Accepted packet.
    ///
    /// Source: SoupBinTCP 3.00, "Login Accepted Packet".
    PortLogin {
        /// The port that it comes to.
        port: Port,
        /// The session, 1 to 10 bytes padded left with spaces.
        session: [u8; 10],
        /// The number of the next sequenced packet, 1 to 20 digits padded left with spaces: any that the field can
        /// have.
        number: [u8; 20],
    },
    /// Bytes that come on a port's link.
    PortBytes(Port, Vec<u8>),
    /// The market's message in a sequenced packet of a port.
    Market(Port, Outbound),
}

/// What a line asks for.
///
/// One space stands between words, and none before the first or behind the last. `NotUnderstood` where the line isn't
/// one of the tables of this crate; `NoMemory` where a growth for a client's fields or for bytes was refused, which
/// only lines that have these can answer.
pub fn line_of(alloc: Global, text: &[u8]) -> Result<Line, LineFault>
    ensures said { IfOk result (spec.SaysLine text.now) }
    ensures understood { IsReadWhere (is_understood text.now) result }
    ensures memory { IsErrOf result LineFault.NoMemory → takes_memory text.now ≡ true }
{
    if text.is_empty() {
        return Ok(Line::Empty);
    }
    if let Some(rest) = text.strip_prefix(b"at ") {
        return moment(rest);
    }
    if let Some(rest) = text.strip_prefix(b"C1 ") {
        return client_line(alloc, Client::First, rest);
    }
    if let Some(rest) = text.strip_prefix(b"C2 ") {
        return client_line(alloc, Client::Second, rest);
    }
    if let Some(rest) = text.strip_prefix(b"C3 ") {
        return client_line(alloc, Client::Third, rest);
    }
    if let Some(rest) = text.strip_prefix(b"P1 ") {
        return port_line(alloc, Port::First, rest);
    }
    if let Some(rest) = text.strip_prefix(b"P2 ") {
        return port_line(alloc, Port::Second, rest);
    }
    Err(LineFault::NotUnderstood)
}

/// `N` of `at N`.
fn moment(rest: &[u8]) -> Result<Line, LineFault>
    ensures said { IfOk result (spec.SaysMoment rest.now) }
    ensures understood { IsReadWhere (is_number64 rest.now) result }
    ensures memory { IsErrOf result LineFault.NoMemory → ⊥ }
{
    match number(rest) {
        Some(moment) => Ok(Line::At(moment)),
        None => Err(LineFault::NotUnderstood),
    }
}
