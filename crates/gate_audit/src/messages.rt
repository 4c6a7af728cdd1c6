//! The market's messages on a port that a run handled.

ghost use Rattle.std.specs.Prelude.{◌≡◌, ◌≤◌, ◌+◌, ◌^◌, ◌∷◌, [], ℕ, IfOk, length, reverse};
ghost use Rattle.order_law.specs.History as orders;
ghost use Rattle.gate_law.specs.Settings.{port_terms};
ghost use Rattle.gate_law.specs.After.{order_turns};
ghost use Rattle.gate_law.specs.Holds.{Holds};
ghost use Rattle.gate_law.specs.Events as law;
ghost use Rattle.gate_core.specs.gate_settings.Kept.{CanLogIn};
ghost use Rattle.gate_core.specs.soup_session.Table.{LoginTerms};
ghost use Rattle.gate_core.specs.soup_session.Calls.{next_of};
ghost use Rattle.gate_events.specs.Seen.{batch_seen};
ghost use Rattle.gate_journal.specs.Kept.{kept_turn, turns};
ghost use Rattle.gate_audit.specs.Again.{called_again};

use crate::port_again::PortAgain;
use gate_core::{Batch, Event, PortNumber, PortSettings, Settings};
use gate_journal::History;
use ouch_codec::Outbound;
use std::alloc::{AllocError, Global};

/// So many turns of a history are stepped: any that came later changed nothing.
const MOST_EVENTS: u64 = 1 << 48;

/// The messages of a port that the order level handled: what the payloads that the port's session delivered are
/// decoded as, where that is a message and was no fault, the oldest first.
///
/// The session is called once more with the links and packets of the history; that it was silent or refused shows in
/// the links that batches close. `port` is one of the settings', from 1.
///
/// Source: SoupBinTCP 3.00, "Sequenced Data Packet".
pub fn handled_messages(
    alloc: Global,
    history: &History,
    settings: &Settings,
    port: PortNumber,
) -> Result<Vec<Outbound>, AllocError>
    requires known { port ≤ length settings.now.ports }
    ensures read { IfOk result (λ handled. handled.items
        ≡ reverse (called_again (port_terms settings.now port) port (turns history.now)).handled) }
    ensures run { IfOk result (λ handled. Holds settings.now (turns history.now)
        → handled.items ≡ reverse (orders.handled port (order_turns settings.now (turns history.now)))) }
{
    let terms = &settings.ports()[usize::from(port.number()) - 1];
    let mut so_far = HandledSoFar::new(alloc, terms, port);
    let mut ahead = history.turns();
    while let Some((event, batch, behind)) = ahead.split_first(alloc)? {
        so_far.take(alloc, &event, &batch)?;
        ahead = behind;
    }
    Ok(so_far.again.handled)
}

/// What a port's session delivered in the turns so far, when it is called once more with them. Sequence numbers stay
/// far below the most that there are.
#[derive(Drop)]
pub struct HandledSoFar {
    port: PortNumber,
    again: PortAgain,
    /// How many turns were stepped.
    stepped: u64,
    ghost few_stepped: { stepped ≤ 2 ^ 48 },
    ghost few_delivered: { next_of again.session.port ≤ stepped + 1 },
}

impl HandledSoFar {
    ghost use Rattle.gate_audit.specs.Called.{IsHandled, heard_on};

    /// Before any turn of the port of this number.
    pub fn new(alloc: Global, settings: &PortSettings, port: PortNumber) -> HandledSoFar
        requires { CanLogIn settings.now }
        ensures { IsHandled settings.now port [] result }
    {
        HandledSoFar {
            port,
            again: PortAgain::new(alloc, settings),
            stepped: 0,
        }
    }

    /// One turn more.
    pub fn take(&mut self, alloc: Global, event: &Event, batch: &Batch) -> Result<(), AllocError>
        ensures { IfOk result (λ u. (terms : LoginTerms) (p : ℕ) (h : law.History)
            → IsHandled terms p h self.old
            → IsHandled terms p (kept_turn event.now (batch_seen batch.now) ∷ h) self.new) }
    {
        if self.stepped < MOST_EVENTS {
            self.stepped += 1;
            self.again.step(alloc, self.port, event, batch)?;
        }
        Ok(())
    }

    /// What the session delivered, the oldest first.
    pub fn into_handled(self) -> Vec<Outbound>
        ensures { result.items ≡ heard_on self }
    {
        self.again.handled
    }
}
