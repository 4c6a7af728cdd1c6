//! The audit of a day, one turn after another.

ghost use Rattle.std.specs.Prelude.{◌≡◌, ◌∷◌, [], IfOk, OnOk, IsErrOf, length};
ghost use Rattle.gate_law.specs.Settings as law;
ghost use Rattle.gate_law.specs.Events.{History};
ghost use Rattle.gate_law.specs.Holds.{Holds};
ghost use Rattle.gate_events.specs.Seen.{batch_seen};
ghost use Rattle.gate_journal.specs.Kept.{kept_turn};
ghost use Rattle.gate_audit.specs.Auditing.{IsAuditing};
ghost use Rattle.gate_audit.specs.Called.{AreHandled};
ghost use Rattle.gate_audit.specs.Pairs as read;
ghost use Rattle.gate_audit.specs.Passes.{told_whole};
ghost use Rattle.gate_audit.specs.Read.{accepted_new_orders};

use crate::fix_accounts::fix_accounts;
use crate::kept_readings::KeptReadings;
use crate::lives::lives_of;
use crate::messages::HandledSoFar;
use crate::openings::Openings;
use crate::order_pair::OrderPair;
use crate::paired::paired;
use crate::told::hear_batch;
use gate_core::{Batch, Event, PortNumber, Settings};
use order_accounts::ReadingFault;
use std::alloc::{AllocError, Global};

/// The audit of a day so far, told one turn after another: the orders that were accepted, what was read of each order,
/// and the messages of each port that were handled. No turn stays in memory.
#[derive(Drop)]
pub struct DayAudit {
    pub(crate) openings: Openings,
    pub(crate) readings: KeptReadings,
    /// One for each port, the first of them number 1.
    pub(crate) ports: Vec<HandledSoFar>,
}

impl DayAudit {
    /// Before any turn.
    pub fn new(alloc: Global, settings: &Settings) -> Result<DayAudit, AllocError>
        ensures { IfOk result (IsAuditing settings.now []) }
    {
        Ok(DayAudit {
            openings: Openings::new(alloc),
            readings: KeptReadings::new(alloc),
            ports: ports_of(alloc, settings)?,
        })
    }

    /// One turn more. `TooLarge` where it gives more tokens than there are, or else `NoMemory`. After an error nothing
    /// is said of the audit.
    pub fn take(&mut self, alloc: Global, event: &Event, batch: &Batch) -> Result<(), ReadingFault>
        ensures heard { IfOk result (λ u. (s : law.Settings) (h : History) → IsAuditing s h self.old
            → IsAuditing s (kept_turn event.now (batch_seen batch.now) ∷ h) self.new) }
        ensures large { IsErrOf result ReadingFault.TooLarge → (s : law.Settings) (h : History)
            → IsAuditing s h self.old
            → read.HasTokenNumbers (told_whole (kept_turn event.now (batch_seen batch.now) ∷ h)) → ⊥ }
    {
        hear_batch(alloc, batch, &mut self.openings, &mut self.readings)?;
        take_each(alloc, event, batch, &mut self.ports)?;
        Ok(())
    }

    /// Each order that was accepted by both of its accounts, as `audit` has them, where these are the settings that the
    /// audit was begun with. With other settings nothing is said of what is given.
    pub fn pairs(self, alloc: Global, settings: &Settings) -> Result<Vec<OrderPair>, ReadingFault>
        ensures read { IfOk result (λ list. (h : History) → IsAuditing settings.now h self
            → list.items ≡ read.pairs settings.now h) }
        ensures run { IfOk result (λ list. (h : History) → IsAuditing settings.now h self → Holds settings.now h
            → list.items ≡ read.accepted_pairs settings.now h) }
        ensures held { OnOk result ((h : History) → IsAuditing settings.now h self
            → read.AllHeld settings.now h × read.HasTokenNumbers (read.said_to_clients h)) }
        ensures large { IsErrOf result ReadingFault.TooLarge → (h : History) → IsAuditing settings.now h self
            → read.AllHeld settings.now h → ⊥ }
        ensures ascending { IfOk result (λ list. (h : History)
            → read.AreByOrder (accepted_new_orders settings.now h)) }
    {
        let DayAudit {
            openings,
            mut readings,
            ports,
        } = self;
        if ports.len() != settings.ports().len() {
            return Ok(Vec::new(alloc));
        }
        readings.shrink();
        let clients = settings.clients().len();
        let orders = openings.orders.as_slice();
        let fix = fix_accounts(alloc, clients, orders, readings)?;
        let said = lives_of(alloc, settings, &openings, ports)?;
        Ok(paired(alloc, clients, orders, fix.as_slice(), said.as_slice())?)
    }
}

/// The ports before any turn.
fn ports_of(alloc: Global, settings: &Settings) -> Result<Vec<HandledSoFar>, AllocError>
    ensures handled { IfOk result (λ ports. AreHandled settings.now [] 0 ports.items) }
    ensures many { IfOk result (λ ports. length ports.items ≡ length settings.now.ports) }
{
    let mut ports = Vec::new(alloc);
    for place in 0..settings.ports().len() {
        let terms = &settings.ports()[place];
        ports.push(HandledSoFar::new(alloc, terms, PortNumber::at_place(place)))?;
    }
    Ok(ports)
}

/// One turn more, for each port.
fn take_each(
    alloc: Global,
    event: &Event,
    batch: &Batch,
    ports: &mut Vec<HandledSoFar>,
) -> Result<(), AllocError>
    ensures many { IfOk result (λ u. length ports.new.items ≡ length ports.old.items) }
    ensures handled { IfOk result (λ u. (s : law.Settings) (h : History) → AreHandled s h 0 ports.old.items
        → AreHandled s (kept_turn event.now (batch_seen batch.now) ∷ h) 0 ports.new.items) }
{
    for i in 0..ports.len() {
        ports[i].take(alloc, event, batch)?;
    }
    Ok(())
}
