//! Sending several messages on a port, one after another.

ghost use Rattle.std.specs.Prelude.{◌≡◌, ◌<◌, ◌+◌, ℕ, List, ◌++◌, Option, IfOk, length, map};
ghost use Rattle.gate_law.specs.order_law.ouch_codec.Inbound.{inbound_bytes};
ghost use Rattle.gate_law.specs.Settings.{Settings};
ghost use Rattle.gate_law.specs.Sessions.{port_answer, port_outs, sends, to_port};
ghost use Rattle.gate_sessions.specs.Lines.{PortsCalled, PortsStayLinked, PortsStaySettled, PortsStayWithin};
ghost use Rattle.gate_sessions.specs.Lines.{PortsLeave, PortLinks, IsUpAt, called_all};
ghost use Rattle.gate_law.specs.soup_session.Table.{PortCall, Send};
ghost use Rattle.gate_events.specs.Seen.{link_out_seen};

use crate::link_outs::tell_port;
use crate::port_lines::Ports;
use gate_events::{LinkOut, ShortList};
use ouch_codec::Inbound;
use std::alloc::{AllocError, Global};

/// Sends messages, in their order, each once, while the port is up, and gives the output to the current link.
///
/// `AllocError` leaves every link and the number of lines as they were; how many of the messages were sent isn't said.
pub fn port_send_all(
    ports: &mut Ports,
    alloc: Global,
    place: usize,
    messages: &[Inbound],
    at: u64,
) -> Result<ShortList<LinkOut>, AllocError>
    requires place { place < length ports.old.lines.items }
    requires up { IsUpAt place ports.old.lines.items }
    ensures leave { IfOk result (λ outs. (s : Settings) (calls : ℕ → List PortCall)
        → PortsLeave s calls ports.old.lines.items
        → PortsLeave s (called_all (place + 1) (sends at (map inbound_bytes messages.now)) calls)
        ports.new.lines.items) }
    ensures outs { IfOk result (λ outs. (s : Settings) (calls : ℕ → List PortCall) (links : ℕ → Option ℕ)
        → PortsLeave s calls ports.old.lines.items → PortLinks links ports.old.lines.items
        → map link_out_seen outs.items ≡ to_port (links (place + 1))
        (port_outs s (place + 1) (calls (place + 1)) (sends at (map inbound_bytes messages.now)))) }
    ensures links { PortsStayLinked ports.old ports.new }
    ensures next { PortsStayWithin ports.old ports.new }
    ensures up { IfOk result (λ outs. IsUpAt place ports.new.lines.items) }
    ensures settled { PortsStaySettled ports.old ports.new }
    ensures length { length ports.new.lines.items ≡ length ports.old.lines.items }
{
    let link = ports.lines[place].link;
    let mut outs = ShortList::new();
    for message in messages {
        send_one(ports, alloc, place, link, message, at, &mut outs)?;
    }
    Ok(outs)
}

/// Sends a message, and adds its output.
fn send_one(
    ports: &mut Ports,
    alloc: Global,
    place: usize,
    link: Option<u64>,
    message: &Inbound,
    at: u64,
    outs: &mut ShortList<LinkOut>,
) -> Result<(), AllocError>
    requires place { place < length ports.old.lines.items }
    requires up { IsUpAt place ports.old.lines.items }
    ensures leave { IfOk result (λ u. PortsCalled place (Send (inbound_bytes message.now) at) ports.old ports.new) }
    ensures outs { IfOk result (λ u. (s : Settings) (calls : ℕ → List PortCall)
        → PortsLeave s calls ports.old.lines.items
        → map link_out_seen outs.new.items ≡ map link_out_seen outs.old.items ++ to_port link
        (port_answer s (place + 1) (calls (place + 1)) (Send (inbound_bytes message.now) at)).outs) }
    ensures links { PortsStayLinked ports.old ports.new }
    ensures next { PortsStayWithin ports.old ports.new }
    ensures up { IfOk result (λ u. IsUpAt place ports.new.lines.items) }
    ensures settled { PortsStaySettled ports.old ports.new }
    ensures length { length ports.new.lines.items ≡ length ports.old.lines.items }
{
    let turn = ports.send(alloc, place, message, at)?;
    tell_port(alloc, link, turn.out, outs)
}
