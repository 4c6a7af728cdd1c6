//! Events of clients: links and ticks.

ghost use Rattle.std.specs.Prelude.{◌≡◌, ◌<◌, ◌+◌, ◌&&◌, length, is_some, IfOk, IfSome};
ghost use Rattle.gate_law.specs.Settings.{Settings, has_client};
ghost use Rattle.gate_law.specs.Events.{ClientUp, ClientGone, ClientTick, is_the_number};
ghost use Rattle.gate_law.specs.Lists.{Lists};
ghost use Rattle.gate_events.specs.Seen.{batch_seen};
ghost use Rattle.gate_core.specs.State.{ArePartsOf};
ghost use Rattle.gate_core.specs.Steps.{Grows, Ready, Stepped};
ghost use Rattle.gate_core.specs.Expected.{logon_fault_now, next_expected};

use super::{Parts, place_of};
use fix_fields::Fields;
use fix_session::LogonFault;
use gate_events::{Batch, ClientNumber, ShortList};
use gate_sessions::{only_outs, told_client};
use std::alloc::{AllocError, Global};
use std::hash::BuildHasher;

impl<S: BuildHasher + Drop> Parts<S> {
    /// A client's link is up: it becomes the session's; if another is current, the new one is closed.
    pub(crate) fn client_up(
        &mut self,
        alloc: Global,
        client: ClientNumber,
        link: u64,
        at: u64,
    ) -> Result<Batch, AllocError>
        ensures step { IfOk result (λ b. (s : Settings) (v : Lists) → Ready s v self.old
            → Stepped s (ClientUp client link at) (batch_seen b) v self.new) }
        ensures grows { Grows 0 0 self.old self.new }
    {
        let Some(place) = self.client_place(client) else {
            return Ok(Batch::empty(alloc));
        };
        match self.client_link(place) {
            None => {
                self.clients.up(alloc, place, link, at);
                Ok(Batch::empty(alloc))
            }
            Some(current) if current == link => Ok(Batch::empty(alloc)),
            Some(_) => Batch::refused_client(alloc, client, link),
        }
    }

    /// A client's current link is gone.
    pub(crate) fn client_gone(
        &mut self,
        alloc: Global,
        client: ClientNumber,
        link: u64,
        at: u64,
    ) -> Batch
        ensures step { (s : Settings) (v : Lists) → Ready s v self.old
            → Stepped s (ClientGone client link at) (batch_seen result) v self.new }
        ensures grows { Grows 0 0 self.old self.new }
    {
        let Some(place) = self.client_on(client, link) else {
            return Batch::empty(alloc);
        };
        self.clients.gone(alloc, place, at);
        Batch::empty(alloc)
    }

    /// Time passes for a client's session.
    pub(crate) fn client_tick(
        &mut self,
        alloc: Global,
        client: ClientNumber,
        at: u64,
    ) -> Result<Batch, AllocError>
        ensures step { IfOk result (λ b. (s : Settings) (v : Lists) → Ready s v self.old
            → Stepped s (ClientTick client at) (batch_seen b) v self.new) }
        ensures grows { Grows 0 0 self.old self.new }
    {
        let Some(place) = self.client_place(client) else {
            return Ok(Batch::empty(alloc));
        };
        let said = only_outs(self.clients.tick(alloc, place, at)?);
        let outs = told_client(&mut self.clients, alloc, place, said, ShortList::new())?;
        Ok(Batch::for_client(alloc, client, ShortList::new(), outs))
    }

    /// The index of a client, if the settings have it.
    pub(crate) fn client_place(&self, client: ClientNumber) -> Option<usize>
        ensures known { (s : Settings) (v : Lists) → ArePartsOf s v self.now → is_some result ≡ has_client s client }
        ensures place { IfSome result (λ place. (client ≡ place + 1) × (place < length self.now.clients.lines.items)) }
    {
        place_of(client.number(), self.clients.lines.len())
    }

    /// The current link of the client at an index.
    pub(crate) fn client_link(&self, place: usize) -> Option<u64>
        requires place { place < length self.now.clients.lines.items }
        ensures link { (s : Settings) (v : Lists) → ArePartsOf s v self.now → result ≡ v.client_link (place + 1) }
    {
        self.clients.lines[place].link
    }

    /// The index of a client whose current link this is.
    pub(crate) fn client_on(&self, client: ClientNumber, link: u64) -> Option<usize>
        ensures on { (s : Settings) (v : Lists) → ArePartsOf s v self.now
            → is_some result ≡ (has_client s client && is_the_number link (v.client_link client)) }
        ensures place { IfSome result (λ place. (client ≡ place + 1) × (place < length self.now.clients.lines.items)) }
    {
        let place = self.client_place(client)?;
        if self.client_link(place) == Some(link) {
            Some(place)
        } else {
            None
        }
    }

    /// Why a link's first frame is answered by nothing but the link's end.
    pub(crate) fn logon_fault(&self, client: ClientNumber, frame: &Fields) -> Option<LogonFault>
        ensures { (s : Settings) (v : Lists) → ArePartsOf s v self.now
            → result ≡ logon_fault_now s client (v.client_calls client) frame.now }
    {
        let place = self.client_place(client)?;
        self.clients.lines[place].logon_fault(frame)
    }

    /// The number that is expected of the next frame of a client, where the settings have the client.
    pub(crate) fn next_in(&self, client: u16) -> Option<u64>
        ensures { (s : Settings) (v : Lists) → ArePartsOf s v self.now
            → result ≡ next_expected s client (v.client_calls client) }
    {
        let place = self.client_place(ClientNumber::of(client)?)?;
        Some(self.clients.lines[place].next_in())
    }
}
