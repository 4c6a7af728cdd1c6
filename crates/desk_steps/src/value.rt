//! What lies under the lock.

ghost use Rattle.std.specs.Prelude.{◌≡◌, OnOk};
ghost use Rattle.gate_law.specs.Holds.{Holds};
ghost use Rattle.gate_journal.specs.Kept.{turns};
ghost use Rattle.desk_steps.specs.Ahead.{Ends, HasStill};

use crate::closing::settle;
use crate::recorded::RecordedCore;
use crate::status::Status;
use crate::turned::Turned;
use crate::turning::round;
use desk_rings::{DeskName, Finished};
use desk_side::Side;
use fix_fields::Fields;
use fix_session::LogonFault;
use gate_core::Settings;
use gate_events::{ClientNumber, Event};
use gate_journal::GrowingHistory;
use journal_log::{DayLog, HostFile, LogFault, TurnLog};
use soup_session::PortFault;
use std::alloc::{AllocError, Global};
use std::hash::{BuildHasher, BuildHasherDefault, FoldHasher};
use std::marker::{Model, PhantomData};

/// What lies under the lock of a desk: the core with its history, and the desk's side of the rings. Contracts see both.
///
/// Its type keeps that they agree, whichever thread had the lock: the core is the one that the history leaves, with all
/// that is promised of that; the ends are those that the desk's name names; what came out of an inlet's ring is what
/// the history has of its source; what went into an outlet's ring is what the batches told it, or a beginning of that.
///
/// Where it has a journal, what a step tells waits beside the rings until the step is in the journal's file, durably:
/// its type keeps that what went into an outlet's ring is a beginning of what the file's day tells.
pub struct Desk<K: DeskName, S: BuildHasher + Drop = BuildHasherDefault<FoldHasher>> {
    recorded: RecordedCore<S>,
    side: Side,
    journal: Option<TurnLog<HostFile>>,
    of: PhantomData<K>,
}

// Not derived: then each way out drops it in one call (docs/DECISIONS.md, "Drops").
impl<K: DeskName, S: BuildHasher + Drop> Drop for Desk<K, S> {
    fn drop(self) {
        let Desk {
            recorded: _,
            side: _,
            journal: _,
            of: _,
        } = self;
    }
}

impl<K: DeskName, S: BuildHasher + Drop> Model for Desk<K, S> {
    ghost use Rattle.desk_steps.specs.Agreeing.{Agrees, DeskState};
    ghost use Rattle.desk_steps.specs.Ahead.{KeepsAhead};

    ghost Value = { DeskState };

    ghost view = { λ d. record { recorded = d.recorded; side = d.side } };

    ghost invariant = { λ d. Agrees K.inlets K.outlets (record { recorded = d.recorded; side = d.side })
        × KeepsAhead d.journal (record { recorded = d.recorded; side = d.side }) };
}

/// What is left of a desk that was closed: its history, of which the older pages may have left memory where it has a
/// journal; the settings of its core; its journal, if it had one, and why that doesn't have all, if it doesn't.
#[derive(Drop)]
pub struct Closed {
    pub history: GrowingHistory,
    pub settings: Settings,
    pub journal: Option<TurnLog<HostFile>>,
    pub lost: Option<LogFault>,
}

impl<K: DeskName, S: BuildHasher + Drop> Desk<K, S> {
    ghost use Rattle.std.specs.Prelude.{◌≡◌, IfErr, IfOk, List, MatchOption, None, OnOk, OnErr};
    ghost use Rattle.desk_steps.specs.Ahead.{IsEnded, OutputIsKept};
    ghost use Rattle.gate_law.specs.After.{lists};
    ghost use Rattle.gate_law.specs.Holds.{Holds};
    ghost use Rattle.gate_core.specs.Board.{IsBoard};
    ghost use Rattle.gate_core.specs.Expected.{event_due, fault_now, logon_fault_now};
    ghost use Rattle.gate_events.specs.Seen.{event_seen};
    ghost use Rattle.gate_journal.specs.Kept.{turns};
    ghost use Rattle.desk_steps.specs.Agreeing.{Agrees, AreNamed};
    ghost use Rattle.desk_rings.specs.Rings.{Done};
    ghost use Rattle.desk_steps.specs.Settling.{AreReleased, AreSettled, HistoryGoesOn};
    ghost use Rattle.desk_steps.specs.Turning.{RoundIsRefused, Rounds};
    ghost use Rattle.journal_log.specs.Seen.{host_may_leave, host_seen};
    ghost use Rattle.journal_log.specs.Kept.{HasAll};

    /// A desk of parts that agree.
    pub fn new(recorded: RecordedCore<S>, side: Side) -> Desk<K, S>
        requires agree { Agrees K.inlets K.outlets (record { recorded = recorded; side = side }) }
        ensures { result ≡ record { recorded = recorded; side = side } }
    {
        Desk {
            recorded,
            side,
            journal: None,
            of: PhantomData,
        }
    }

    /// From now on what is stepped is written into this log before anybody is told: the log has all of the history so
    /// far. `AllocError` gives the log up.
    pub fn begin_journal(&mut self, log: DayLog<HostFile>) -> Result<(), AllocError>
        requires has { HasAll host_seen host_may_leave self.old.recorded.kept.pages log.file }
        ensures recorded { self.new.recorded ≡ self.old.recorded }
    {
        self.side.stage()?;
        self.journal = Some(TurnLog::of(log, self.recorded.history()));
        Ok(())
    }

    /// Has all that was stepped in the journal, durably, and then lets out what it told. Where there is none it does
    /// nothing. `Failed` where the journal's file fails, and from then on: nobody is told anything any more. `NoMemory`
    /// leaves all as it was.
    pub fn keep(&mut self, alloc: Global) -> Result<(), LogFault>
        ensures recorded { self.new.recorded ≡ self.old.recorded }
        ensures released { (finished : List Done) → AreReleased finished self.old.side.producers
            → AreReleased finished self.new.side.producers }
    {
        let Some(journal) = &mut self.journal else {
            return Ok(());
        };
        journal.keep(alloc, self.recorded.history())?;
        self.side.release();
        Ok(())
    }

    /// Has the older pages of the history leave memory, where the journal has all of it. Takes no memory.
    pub fn drop_older(&mut self)
        ensures { self.new ≡ self.old }
    {
        let Some(journal) = &self.journal else {
            return;
        };
        if journal.has_all(self.recorded.history()) {
            self.recorded.drop_older();
        }
    }

    /// Has the older pages of the history leave memory, for who has all of it written elsewhere. Takes no memory.
    pub fn drop_written(&mut self)
        ensures { self.new ≡ self.old }
    {
        self.recorded.drop_older();
    }

    /// Whether it has a journal.
    pub fn has_journal(&self) -> bool {
        self.journal.is_some()
    }

    /// Goes once round the inlets, in order, and steps an event of each at most. An event waits where a ring is full to
    /// somebody whom its batch may tell something, and is dropped where it isn't of its inlet's source.
    ///
    /// Where memory is refused the event stays first in its inlet's ring, and the other inlets have their turns.
    /// `AllocError` comes where it was refused for one, and no step was made.
    pub fn round(&mut self, alloc: Global) -> Result<Turned, AllocError>
        ensures ok { IfOk result (λ turned. Rounds turned self.old self.new) }
        ensures err { OnErr result (RoundIsRefused self.old self.new) }
    {
        round(&mut self.recorded, &mut self.side, alloc)
    }

    /// The outlets to which something was told since the last call that isn't to wait: a bit for each, by position.
    pub fn take_prompt(&mut self) -> u128
        ensures { self.new ≡ self.old }
    {
        self.side.take_prompt()
    }

    /// The outlets to which something was told since the last call that may wait, and nothing since that isn't to: a
    /// bit for each, by position.
    pub fn take_waiting(&mut self) -> u128
        ensures { self.new ≡ self.old }
    {
        self.side.take_waiting()
    }

    /// Whether this event is none that only says that time passes and gives nothing (`Core::is_due`). Takes no memory.
    pub fn is_due(&self, alloc: Global, event: &Event) -> bool
        ensures { result ≡ event_due self.now.recorded.settings
            (lists self.now.recorded.settings (turns self.now.recorded.kept)) (event_seen event.now) }
    {
        self.recorded.is_due(alloc, event)
    }

    /// Why a frame of a client's link that isn't logged on is answered by the link's end alone (`Core::logon_fault`).
    /// Takes no memory.
    pub fn logon_fault(&self, client: ClientNumber, frame: &Fields) -> Option<LogonFault>
        ensures { result ≡ logon_fault_now self.now.recorded.settings client
            ((lists self.now.recorded.settings (turns self.now.recorded.kept)).client_calls client) frame.now }
    {
        self.recorded.logon_fault(client, frame)
    }

    /// Why a port is faulted; `None` of one that isn't, and of one that the settings don't have. Takes no memory.
    pub fn port_fault(&self, port: u16) -> Option<PortFault>
        ensures { result ≡ fault_now self.now.recorded.settings port
            ((lists self.now.recorded.settings (turns self.now.recorded.kept)).port_calls port) }
    {
        self.recorded.port_fault(port)
    }

    /// How all clients and ports stand now. It goes through no order.
    pub fn status(&self, alloc: Global) -> Result<Status, AllocError>
        ensures { IfOk result (λ status. IsBoard self.now.recorded.settings (turns self.now.recorded.kept) status) }
    {
        self.recorded.status(alloc)
    }

    /// The history so far: all that is promised holds of it.
    pub fn history(&self) -> &GrowingHistory
        ensures value { result.now ≡ self.now.recorded.kept }
        ensures holds { Holds self.now.recorded.settings (turns result.now) }
    {
        self.recorded.history()
    }

    /// Steps what is left of what finished inlets put, and compares what finished outlets took.
    ///
    /// No outlet is waited for: a list that finds no room stands in the history alone. `AllocError` leaves the steps
    /// before it standing, and the call may be made again.
    pub fn settle(
        &mut self,
        alloc: Global,
        finished: &mut Vec<Finished<K>>,
    ) -> Result<(), AllocError>
        ensures same { finished.new.items ≡ finished.old.items }
        ensures goes_on { HistoryGoesOn self.old.recorded self.new.recorded }
        ensures settled { OnOk result (AreSettled finished.old.items self.new.recorded.kept) }
        ensures released { AreReleased finished.old.items self.new.side.producers }
    {
        settle(&mut self.recorded, &mut self.side, alloc, finished)
    }

    /// Ends the desk, and its journal, where there is one: that has all, and its end, or it is said why not. All that
    /// is promised holds of its history, which has no events but those of the inlets' sources.
    ///
    /// Where memory is refused for the journal the desk is given back: the call may be made again.
    pub fn close(self, alloc: Global) -> Result<Closed, Desk<K, S>>
        ensures history { IfOk result (λ closed. closed.history ≡ self.recorded.kept) }
        ensures settings { IfOk result (λ closed. closed.settings ≡ self.recorded.settings) }
        ensures holds { IfOk result (λ closed. Holds closed.settings (turns closed.history)) }
        ensures named { IfOk result (λ closed. AreNamed K.inlets closed.history.events) }
        ensures output { IfOk result (λ closed. (finished : List Done) → AreReleased finished self.side.producers
            → OutputIsKept finished closed.journal) }
        ensures ended { IfOk result (λ closed. closed.lost ≡ None → IsEnded closed.history closed.journal) }
        ensures err { IfErr result (λ same. same ≡ self) }
    {
        let Desk {
            recorded,
            side,
            journal,
            of,
        } = self;
        let mut journal = journal;
        match end_journal(&mut journal, alloc, recorded.history()) {
            Ok(()) => Ok(closed_of(recorded, journal, None)),
            Err(LogFault::NoMemory) => Err(Desk {
                recorded,
                side,
                journal,
                of,
            }),
            Err(fault) => Ok(closed_of(recorded, journal, Some(fault))),
        }
    }
}

/// Has all of a history in a journal, where there is one, and its end.
fn end_journal(
    journal: &mut Option<TurnLog<HostFile>>,
    alloc: Global,
    history: &GrowingHistory,
) -> Result<(), LogFault>
    ensures ended { OnOk result (Ends history.now journal.old journal.new) }
    ensures kept { HasStill history.now journal.old journal.new }
{
    match journal {
        Some(log) => log.end(alloc, history),
        None => Ok(()),
    }
}

/// What is left of a desk with this core and journal, which lacks something for this reason.
fn closed_of<S: BuildHasher + Drop>(
    recorded: RecordedCore<S>,
    journal: Option<TurnLog<HostFile>>,
    lost: Option<LogFault>,
) -> Closed
    ensures history { result.history ≡ recorded.kept }
    ensures settings { result.settings ≡ recorded.settings }
    ensures holds { Holds result.settings (turns result.history) }
    ensures journal { result.journal ≡ journal }
    ensures lost { result.lost ≡ lost }
{
    let (settings, history) = recorded.into_parts();
    Closed {
        history,
        settings,
        journal,
        lost,
    }
}
