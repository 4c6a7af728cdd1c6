//! Where the links of a gateway's lines come from.

ghost use Rattle.gateway_log.specs.Openers.{run_ended, run_opened};

use gate_serving::{LinkEnd, Opened, Opener};
use link_io::LinkFault;

/// Opens the links of a client, or of a port.
#[derive(Drop)]
pub enum RunOpener<A, C> {
    Client(A),
    Port(C),
}

impl<A, C> Opener for RunOpener<A, C>
where
    A: Opener,
    C: Opener<Reader = A::Reader, Writer = A::Writer, Closer = A::Closer>,
{
    ghost opened = { λ o. run_opened A.opened C.opened o };

    ghost has_ended = { λ o. run_ended A.has_ended C.has_ended o };

    type Reader = A::Reader;

    type Writer = A::Writer;

    type Closer = A::Closer;

    fn open(&mut self) -> Option<Result<Opened<A::Reader, A::Writer, A::Closer>, LinkFault>> {
        match self {
            RunOpener::Client(links) => links.open(),
            RunOpener::Port(links) => links.open(),
        }
    }

    fn ended(&mut self, end: LinkEnd) {
        match self {
            RunOpener::Client(links) => links.ended(end),
            RunOpener::Port(links) => links.ended(end),
        }
    }
}
