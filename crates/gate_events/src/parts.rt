//! Batches of their parts.

ghost use Rattle.std.specs.Prelude.{◌≡◌, [], ◌∷◌, None, IfOk, map};
ghost use Rattle.gate_law.specs.Events.{empty, is_the_number, Close};
ghost use Rattle.gate_events.specs.Seen.{batch_seen, link_out_seen};
ghost use Rattle.gate_events.specs.Batches.{batch_of};

use crate::batch::{Batch, LinkOut};
use crate::number::{ClientNumber, PortNumber};
use crate::short_list::ShortList;
use session_law::IssuedReport;
use soup_session::PortFault;
use std::alloc::{AllocError, Global};

impl Batch {
    /// A batch with nothing in it.
    pub fn empty(_alloc: Global) -> Batch
        ensures { batch_seen result ≡ empty }
    {
        Batch {
            client: None,
            reports: ShortList::new(),
            client_out: ShortList::new(),
            port: None,
            port_out: ShortList::new(),
            fault: None,
        }
    }

    /// Whether it names this client. Takes no memory.
    pub fn names_client(&self, client: ClientNumber) -> bool
        ensures { result ≡ is_the_number client (batch_seen self.now).client }
    {
        self.client == Some(client)
    }

    /// Whether it names this port. Takes no memory.
    pub fn names_port(&self, port: PortNumber) -> bool
        ensures { result ≡ is_the_number port (batch_seen self.now).port }
    {
        self.port == Some(port)
    }

    /// A batch of these parts: it names the client and the port where there is something for them.
    pub fn of_parts(
        client: ClientNumber,
        reports: ShortList<IssuedReport>,
        client_out: ShortList<LinkOut>,
        port: PortNumber,
        port_out: ShortList<LinkOut>,
        fault: Option<PortFault>,
    ) -> Batch
        ensures { batch_seen result ≡ batch_of client reports.items (map link_out_seen client_out.items) port
            (map link_out_seen port_out.items) fault }
    {
        let is_for_client = !(reports.is_empty() && client_out.is_empty());
        let is_for_port = !(port_out.is_empty() && fault.is_none());
        Batch {
            client: is_for_client.then_some(client),
            reports,
            client_out,
            port: is_for_port.then_some(port),
            port_out,
            fault,
        }
    }

    /// A batch with something for a client at most.
    pub fn for_client(
        _alloc: Global,
        client: ClientNumber,
        reports: ShortList<IssuedReport>,
        client_out: ShortList<LinkOut>,
    ) -> Batch
        ensures { batch_seen result ≡ batch_of client reports.items (map link_out_seen client_out.items) 0 [] None }
    {
        let is_for_client = !(reports.is_empty() && client_out.is_empty());
        Batch {
            client: is_for_client.then_some(client),
            reports,
            client_out,
            port: None,
            port_out: ShortList::new(),
            fault: None,
        }
    }

    /// A new link beside a client's current one is closed.
    pub fn refused_client(
        alloc: Global,
        client: ClientNumber,
        link: u64,
    ) -> Result<Batch, AllocError>
        ensures { IfOk result (λ b. batch_seen b ≡ batch_of client [] (Close link ∷ []) 0 [] None) }
    {
        let outs = ShortList::of(LinkOut::Close { link });
        Ok(Batch::for_client(alloc, client, ShortList::new(), outs))
    }

    /// A batch with something for a port at most.
    pub fn for_port(
        _alloc: Global,
        port: PortNumber,
        port_out: ShortList<LinkOut>,
        fault: Option<PortFault>,
    ) -> Batch
        ensures { batch_seen result ≡ batch_of 0 [] [] port (map link_out_seen port_out.items) fault }
    {
        let is_for_port = !(port_out.is_empty() && fault.is_none());
        Batch {
            client: None,
            reports: ShortList::new(),
            client_out: ShortList::new(),
            port: is_for_port.then_some(port),
            port_out,
            fault,
        }
    }

    /// A new link beside a port's current one is closed.
    pub fn refused_port(alloc: Global, port: PortNumber, link: u64) -> Result<Batch, AllocError>
        ensures { IfOk result (λ b. batch_seen b ≡ batch_of 0 [] [] port (Close link ∷ []) None) }
    {
        let outs = ShortList::of(LinkOut::Close { link });
        Ok(Batch::for_port(alloc, port, outs, None))
    }
}
