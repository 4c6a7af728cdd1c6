//! The value, and the call that steps it.

ghost use Rattle.std.specs.Prelude.{◌≡◌, ◌++◌, ◌∷◌, [], IfOk, OnErr};
ghost use Rattle.gate_journal.specs.Kept.{Kept, turns};
ghost use Rattle.gate_core.specs.Core.{turn_of};
ghost use Rattle.desk_side.specs.BatchOutput.{IsOutputOf};

use crate::status::Status;
use desk_side::BatchOutput;
use fix_fields::Fields;
use fix_session::LogonFault;
use gate_core::{Batch, ClientNumber, Core, Event, PortFault, Settings, Targets};
use gate_journal::GrowingHistory;
use std::alloc::{AllocError, Global};
use std::hash::{BuildHasher, BuildHasherDefault, FoldHasher};
use std::marker::Model;

/// A core with the history of all that it was stepped by. Contracts see its settings and what the history keeps; the
/// core is the one that the history leaves. Its indexes are over any hasher.
pub struct RecordedCore<S: BuildHasher + Drop = BuildHasherDefault<FoldHasher>> {
    settings: Settings,
    core: Core<S>,
    history: GrowingHistory,
}

// Not derived: then each way out drops it in one call (docs/DECISIONS.md, "Drops").
impl<S: BuildHasher + Drop> Drop for RecordedCore<S> {
    fn drop(self) {
        let RecordedCore {
            settings: _,
            core: _,
            history: _,
        } = self;
    }
}

impl<S: BuildHasher + Drop> Model for RecordedCore<S> {
    ghost use Rattle.gate_core.specs.Core.{IsAfter};
    ghost use Rattle.gate_journal.specs.Kept.{turns};
    ghost use Rattle.desk_steps.specs.Recorded.{Recorded};

    ghost Value = { Recorded };

    ghost view = { λ r. record { settings = r.settings; kept = r.history } };

    ghost invariant = { λ r. IsAfter r.settings (turns r.history) r.core };
}

impl RecordedCore {
    ghost use Rattle.std.specs.Prelude.{◌≡◌, IfOk};
    ghost use Rattle.gate_journal.specs.Kept.{nothing_kept};

    /// The core of these settings before the first event, with the fixed seed. `AllocError` gives the settings up.
    pub fn new(alloc: Global, settings: Settings) -> Result<RecordedCore, AllocError>
        ensures settings { IfOk result (λ r. r.settings ≡ settings) }
        ensures kept { IfOk result (λ r. r.kept ≡ nothing_kept) }
    {
        let core = Core::new(alloc, &settings)?;
        Ok(RecordedCore {
            settings,
            core,
            history: GrowingHistory::new(alloc),
        })
    }
}

impl<S: BuildHasher + Clone + Drop> RecordedCore<S> {
    ghost use Rattle.std.specs.Prelude.{◌≡◌, IfOk};
    ghost use Rattle.gate_journal.specs.Kept.{nothing_kept};

    /// The core of these settings before the first event, with a hasher. `AllocError` gives the settings up.
    pub fn with_hasher(
        alloc: Global,
        hasher: S,
        settings: Settings,
    ) -> Result<RecordedCore<S>, AllocError>
        ensures settings { IfOk result (λ r. r.settings ≡ settings) }
        ensures kept { IfOk result (λ r. r.kept ≡ nothing_kept) }
    {
        let core = Core::with_hasher(alloc, hasher, &settings)?;
        Ok(RecordedCore {
            settings,
            core,
            history: GrowingHistory::new(alloc),
        })
    }
}

impl<S: BuildHasher + Drop> RecordedCore<S> {
    ghost use Rattle.std.specs.Prelude.{◌≡◌, ◌∷◌, IfOk, OnErr};
    ghost use Rattle.gate_journal.specs.gate_law.Events as law;
    ghost use Rattle.gate_journal.specs.gate_law.After.{lists};
    ghost use Rattle.gate_journal.specs.gate_law.Holds.{Holds};
    ghost use Rattle.gate_journal.specs.gate_law.Promises.{IsAmong};
    ghost use Rattle.gate_events.specs.Seen.{event_seen};
    ghost use Rattle.gate_core.specs.Board.{IsBoard};
    ghost use Rattle.gate_core.specs.Expected.{event_due, fault_now, logon_fault_now};
    ghost use Rattle.gate_core.specs.Targets.{client_for, port_for};
    ghost use Rattle.gate_journal.specs.Kept.{turns};
    ghost use Rattle.desk_steps.specs.Recorded.{IsKeptStep};

    /// Whom the batch of this event may name, if it is stepped next. Takes no memory.
    pub fn targets(&self, event: &Event) -> Targets
        ensures client { result.client
            ≡ client_for self.now.settings (event_seen event.now) (lists self.now.settings (turns self.now.kept)) }
        ensures port { result.port ≡ port_for self.now.settings (event_seen event.now) }
        ensures named { (batch : law.Batch)
            → Holds self.now.settings (record { event = event_seen event.now; batch = batch } ∷ turns self.now.kept)
            → IsAmong batch.client result.client × IsAmong batch.port result.port }
    {
        self.core.targets(event)
    }

    /// Steps an event, keeps it with its batch, and gives what the batch tells. `AllocError` leaves all as it was: the
    /// event may be stepped again, or another one.
    pub fn step(&mut self, alloc: Global, event: &Event) -> Result<BatchOutput, AllocError>
        ensures ok { IfOk result (λ output. IsKeptStep event.now output self.old self.new) }
        ensures err { OnErr result (self.new ≡ self.old) }
    {
        let batch = self.core.step(alloc, event)?;
        match self.history.push(event, &batch) {
            Ok(()) => Ok(BatchOutput::of(batch)),
            // Returned at once, so that what is said isn't copied where both producers meet.
            Err(error) => {
                self.core.undo();
                return Err(error);
            }
        }
    }

    /// Whether this event is none that only says that time passes and gives nothing (`Core::is_due`). Takes no memory.
    pub fn is_due(&self, alloc: Global, event: &Event) -> bool
        ensures { result ≡ event_due self.now.settings (lists self.now.settings (turns self.now.kept))
            (event_seen event.now) }
    {
        self.core.is_due(alloc, event)
    }

    /// Why a frame of a client's link that isn't logged on is answered by the link's end alone (`Core::logon_fault`).
    /// Takes no memory.
    pub fn logon_fault(&self, client: ClientNumber, frame: &Fields) -> Option<LogonFault>
        ensures { result ≡ logon_fault_now self.now.settings client
            ((lists self.now.settings (turns self.now.kept)).client_calls client) frame.now }
    {
        self.core.logon_fault(client, frame)
    }

    /// Why a port is faulted; `None` of one that isn't, and of one that the settings don't have. Takes no memory.
    pub fn port_fault(&self, port: u16) -> Option<PortFault>
        ensures { result ≡ fault_now self.now.settings port
            ((lists self.now.settings (turns self.now.kept)).port_calls port) }
    {
        self.core.port_fault(port)
    }

    /// How all clients and ports stand now. It goes through no order.
    pub fn status(&self, alloc: Global) -> Result<Status, AllocError>
        ensures { IfOk result (λ status. IsBoard self.now.settings (turns self.now.kept) status) }
    {
        let board = self.core.board(alloc)?;
        Ok(Status::new(board))
    }

    /// The settings.
    pub fn settings(&self) -> &Settings
        ensures { result.now ≡ self.now.settings }
    {
        &self.settings
    }

    /// The history: all that is promised holds of it.
    pub fn history(&self) -> &GrowingHistory
        ensures value { result.now ≡ self.now.kept }
        ensures holds { Holds self.now.settings (turns self.now.kept) }
    {
        &self.history
    }

    /// Has all pages of the history but the last leave memory (`GrowingHistory::drop_older`). Takes no memory.
    pub fn drop_older(&mut self)
        ensures { self.new ≡ self.old }
    {
        self.history.drop_older();
    }

    /// The settings and the history: all that is promised holds of it.
    pub fn into_parts(self) -> (Settings, GrowingHistory)
        ensures settings { result.0 ≡ self.settings }
        ensures history { result.1 ≡ self.kept }
        ensures holds { Holds self.settings (turns self.kept) }
    {
        let RecordedCore {
            settings,
            core: _,
            history,
        } = self;
        (settings, history)
    }
}
