//! Whether a link's output closes it.

ghost use Rattle.std.specs.Prelude.{◌≡◌, map};
ghost use Rattle.gate_law.specs.After.{is_close};
ghost use Rattle.gate_events.specs.Closing.{is_link_closed};
ghost use Rattle.gate_events.specs.Seen.{link_out_seen};

use crate::batch::LinkOut;

/// Whether the current link is closed by one of these.
pub fn closes_link(link: Option<u64>, outs: &[LinkOut]) -> bool
    ensures { result ≡ is_link_closed link (map link_out_seen outs.now) }
{
    for out in outs {
        if is_close_of(link, out) {
            return true;
        }
    }
    false
}

/// Whether this one closes the current link.
fn is_close_of(link: Option<u64>, out: &LinkOut) -> bool
    ensures { result ≡ is_close link (link_out_seen out.now) }
{
    match out {
        LinkOut::Write { .. } => false,
        LinkOut::Close { link: closed } => link == Some(*closed),
    }
}
