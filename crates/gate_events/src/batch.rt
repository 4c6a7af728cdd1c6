//! A batch: all that one event produces.

ghost use Rattle.std.specs.Prelude.{◌≡◌, ◌==◌, ◌&&◌, not, is_some, length};

use crate::number::{ClientNumber, PortNumber};
use crate::output::Output;
use crate::short_list::ShortList;
use session_law::IssuedReport;
use soup_session::PortFault;

/// One output to a link.
#[derive(Debug, Drop)]
pub enum LinkOut {
    /// The bytes of one frame or packet are to be written.
    Write { link: u64, bytes: Vec<u8> },
    /// The link is to be closed.
    Close { link: u64 },
}

/// All that one event produces. It names a client just if there is something for one, and a port likewise.
#[derive(Debug)]
pub struct Batch {
    /// The client that something is for, where there is one.
    pub client: Option<ClientNumber>,
    /// Each report and reject as it was issued, with its number, be its frame written or not: the fields from MsgType
    /// (35) on.
    pub reports: ShortList<IssuedReport>,
    /// The output to the client's link, in order.
    pub client_out: ShortList<LinkOut>,
    /// The port that something is for, where there is one.
    pub port: Option<PortNumber>,
    /// The output to the port's link, in order.
    pub port_out: ShortList<LinkOut>,
    /// The fault of the port's packet or payload: the port stays closed.
    pub fault: Option<PortFault>,
    ghost for_client: { is_some client ≡ not ((length reports.items == 0) && (length client_out.items == 0)) },
    ghost for_port: { is_some port ≡ not ((length port_out.items == 0) && not (is_some fault)) },
}

// Not derived: then each way out drops it in one call (docs/DECISIONS.md, "Drops").
impl Drop for Batch {
    fn drop(self) {
        let Batch {
            client: _,
            reports: _,
            client_out: _,
            port: _,
            port_out: _,
            fault: _,
        } = self;
    }
}

impl Batch {
    ghost use Rattle.std.specs.Prelude.{◌≡◌, map};
    ghost use Rattle.gate_events.specs.Seen.{link_out_seen};

    /// The outputs to its client's link and to its port's, moved out. Takes no memory.
    pub fn into_outputs(self) -> (Output, Output)
        ensures client { result.0 ≡ map link_out_seen self.client_out.items }
        ensures port { result.1 ≡ map link_out_seen self.port_out.items }
    {
        let Batch {
            client: _,
            reports: _,
            client_out,
            port: _,
            port_out,
            fault: _,
        } = self;
        (Output::of(client_out), Output::of(port_out))
    }
}
