//! A desk that threads share.

ghost use Rattle.std.specs.Prelude.{◌≡◌, [], List, length, vec_len};

use crate::outlet_set::OutletSet;
use crate::replaying::{ReplayFault, Replayed, begin, let_go, put, replay};
use desk_rings::{DeskName, Finished, Inlet, Outlet};
use desk_steps::{Closed, Desk, Status, Turned};
use fix_fields::Fields;
use fix_session::LogonFault;
use gate_events::{ClientNumber, Event};
use journal_log::{HostFile, LogFault, StoppedLog};
use soup_session::PortFault;
use std::alloc::{AllocError, Global};
use std::hash::{BuildHasher, BuildHasherDefault, FoldHasher};
use std::sync::atomic::{AtomicBool, Ordering};
use std::sync::{Mutex, MutexGuard, Wait};
use std::thread::Parker;
use std::time::Duration;

/// So many rounds are made under one lock at most, before what they told is written.
const UNDER_ONE_LOCK: u32 = 8;

/// The same where there is a journal: one write and one sync are behind them all.
const UNDER_ONE_SYNC: u32 = 64;

/// So many rounds step what lies in a ring: it has as many places.
const FOR_OTHERS: u32 = 1_024;

/// How often one call takes the lock at most.
const MOST_LOCKS: u32 = 256;

/// What rounds came to that were made one after another.
#[derive(Clone, Copy, Debug, PartialEq, Eq)]
pub struct Turns {
    /// The rounds that made a step.
    pub rounds: u32,
    /// The steps of all of them.
    pub steps: u32,
}

/// A desk that threads share.
///
/// Beside the lock there is a waker for each outlet: a turn that told it something wakes who waits for it, once the
/// lock is free.
pub struct Shared<K: DeskName, S: BuildHasher + Drop = BuildHasherDefault<FoldHasher>> {
    desk: Mutex<Desk<K, S>>,
    /// Rounds are wanted until one makes no step: by a thread that found the lock taken, or that stopped before.
    wanted: AtomicBool,
    /// Memory was refused for an event in the rounds that were made last.
    is_refused: AtomicBool,
    /// The journal's file failed: no more rounds are made, and nobody is told anything any more.
    is_lost: AtomicBool,
    wakers: Vec<Parker>,
}

// Not derived: then each way out drops it in one call (docs/DECISIONS.md, "Drops").
impl<K: DeskName, S: BuildHasher + Drop> Drop for Shared<K, S> {
    fn drop(self) {
        let Shared {
            desk: _,
            wanted: _,
            is_refused: _,
            is_lost: _,
            wakers: _,
        } = self;
    }
}

impl<K: DeskName, S: BuildHasher + Drop> Shared<K, S> {
    ghost use Rattle.std.specs.Prelude.{◌≡◌, IfOk, IfErr, None, vec_len};
    ghost use Rattle.gate_law.specs.Holds.{Holds};
    ghost use Rattle.desk_steps.specs.gate_journal.Kept.{turns};
    ghost use Rattle.desk_steps.specs.Agreeing.{AreNamed};
    ghost use Rattle.desk_steps.specs.Settling.{AreSettled};
    ghost use Rattle.desk_steps.specs.Ahead.{IsEnded, OutputIsKept};
    ghost use Rattle.journal_log.specs.Whole.{HasJust};

    /// This desk, to be shared, with the wakers of its outlets.
    pub(crate) fn new(desk: Desk<K, S>, wakers: Vec<Parker>) -> Shared<K, S>
        ensures { vec_len result.wakers ≡ vec_len wakers }
    {
        Shared {
            desk: Mutex::new(desk),
            wanted: AtomicBool::new(false),
            is_refused: AtomicBool::new(false),
            is_lost: AtomicBool::new(false),
            wakers,
        }
    }

    /// A round (`Desk::round`) under the lock. Wakes the outlets that were told something, once the lock is free.
    pub fn turn(&self, rt: &impl Wait, alloc: Global) -> Result<Turned, AllocError> {
        let (turned, with_output) = self.turn_locked(rt, alloc)?;
        self.wake_each(with_output);
        Ok(turned)
    }

    /// Has so many rounds made, or fewer where one makes no step, eight at a time under the lock. Behind each eight,
    /// the lock free, `write` is called with the outlets that they told something: all of it lies there then.
    ///
    /// It waits for nobody but `write`. Where another thread has the lock, that one makes rounds until one makes no
    /// step once it is free, and none is counted here. `AllocError` comes only where memory is refused for an event and
    /// no round made a step.
    pub fn turns<F: Fn(OutletSet)>(
        &self,
        alloc: Global,
        wanted: u32,
        write: F,
    ) -> Result<Turns, AllocError>
        requires { F.IsAlwaysCallable write }
    {
        let mut turns = Turns {
            rounds: 0,
            steps: 0,
        };
        let mut left = wanted;
        for _ in 0..MOST_LOCKS {
            let Some(mut guard) = self.lock_or_leave() else {
                return Ok(turns);
            };
            if self.wanted.swap(false, Ordering::SeqCst) {
                left = FOR_OTHERS;
            }
            let desk = &mut *guard;
            let Some(most) = self.most_rounds(desk) else {
                return Ok(turns);
            };
            let made = rounds(desk, alloc, left.min(most), &mut turns);
            let with_output = self.outlets_with_output(desk, alloc);
            drop(guard);
            write(with_output);
            self.note_memory(&made);
            left = match made {
                Ok(made) if made.is_all => left.saturating_sub(most),
                Ok(_) => 0,
                Err(error) => {
                    let _ = self.wanted.swap(true, Ordering::SeqCst);
                    return if turns.rounds == 0 {
                        Err(error)
                    } else {
                        Ok(turns)
                    };
                }
            };
            if self.wanted.swap(false, Ordering::SeqCst) {
                left = FOR_OTHERS;
            }
            if left == 0 {
                return Ok(turns);
            }
        }
        let _ = self.wanted.swap(true, Ordering::SeqCst);
        Ok(turns)
    }

    /// Notes whether memory was refused for an event in these rounds.
    fn note_memory(&self, made: &Result<Made, AllocError>) {
        let is_refused = match made {
            Ok(made) => made.is_refused,
            Err(_) => true,
        };
        if self.is_refused.load(Ordering::SeqCst) != is_refused {
            self.is_refused.store(is_refused, Ordering::SeqCst);
        }
    }

    /// Whether memory was refused for an event in the rounds that were made last: it waits first in its ring.
    pub fn is_memory_refused(&self) -> bool {
        self.is_refused.load(Ordering::SeqCst)
    }

    /// The lock, where it is free; else nothing, and who has it knows that rounds are wanted.
    ///
    /// It is tried once more behind the flag: who has it then looks at the flag after that, once the lock is free.
    fn lock_or_leave(&self) -> Option<MutexGuard<'_, Desk<K, S>>> {
        if let Some(guard) = self.desk.try_lock() {
            return Some(guard);
        }
        let _ = self.wanted.swap(true, Ordering::SeqCst);
        self.desk.try_lock()
    }

    /// A round under the lock, and the outlets that were told something.
    fn turn_locked(
        &self,
        rt: &impl Wait,
        alloc: Global,
    ) -> Result<(Turned, OutletSet), AllocError> {
        let mut guard = self.desk.lock(rt);
        let desk = &mut *guard;
        if self.is_journal_lost() {
            return Ok((
                Turned {
                    steps: 0,
                    held: 0,
                    refused: 0,
                },
                OutletSet::of_bits(0),
            ));
        }
        let turned = desk.round(alloc)?;
        Ok((turned, self.outlets_with_output(desk, alloc)))
    }

    /// How many rounds are made under one lock at most; none any more where the journal is lost.
    fn most_rounds(&self, desk: &Desk<K, S>) -> Option<u32> {
        if self.is_journal_lost() {
            return None;
        }
        Some(if desk.has_journal() {
            UNDER_ONE_SYNC
        } else {
            UNDER_ONE_LOCK
        })
    }

    /// Has what was stepped in the journal, where there is one, and gives the outlets that were told something that
    /// isn't to wait. None where it couldn't be kept: then nobody has it yet. Where memory was refused for it, it is
    /// tried again; where the file failed, never.
    fn outlets_with_output(&self, desk: &mut Desk<K, S>, alloc: Global) -> OutletSet {
        match desk.keep(alloc) {
            Ok(()) => OutletSet::of_bits(desk.take_prompt()),
            Err(LogFault::NoMemory) => {
                let _ = self.wanted.swap(true, Ordering::SeqCst);
                OutletSet::of_bits(0)
            }
            Err(LogFault::Failed | LogFault::Ended) => {
                self.is_lost.store(true, Ordering::SeqCst);
                OutletSet::of_bits(0)
            }
        }
    }

    /// Whether the journal's file failed: no round is made any more, and nobody is told anything.
    pub fn is_journal_lost(&self) -> bool {
        self.is_lost.load(Ordering::SeqCst)
    }

    /// Begins a journal of a day on which nothing came yet, in a file that has nothing, once the lock could be had:
    /// what is stepped from now on is in it, durably, before anybody is told. `false` where something came: then
    /// nothing is done. `AllocError` gives the file up.
    pub fn begin_journal(
        &self,
        rt: &impl Wait,
        alloc: Global,
        file: HostFile,
    ) -> Result<bool, AllocError>
        requires { HasJust [] file }
    {
        let mut guard = self.desk.lock(rt);
        let desk = &mut *guard;
        begin(desk, alloc, file)
    }

    /// Goes on with a day that stopped, of which this is the journal's file, once the lock could be had: steps what it
    /// has again and compares what comes of it, part by part; cuts off what a write that was cut short left; and what
    /// is stepped from now on is in the file, durably, before anybody is told. What the day tells is let go: it was
    /// told before, or is asked for anew. Where `is_later` is set syncs are left for later (`HostFile::synced_later`).
    ///
    /// The ends are to be this desk's. `OtherDay`, `Unread` and `NoMemory` leave the file as it was; `File` comes where
    /// it can't be cut.
    pub fn replay(
        &self,
        rt: &impl Wait,
        alloc: Global,
        stopped: StoppedLog,
        is_later: bool,
        inlets: &mut Vec<Inlet<K>>,
        outlets: &mut Vec<Outlet<K>>,
    ) -> Result<Replayed, ReplayFault>
        ensures { length inlets.new.items ≡ length inlets.old.items }
    {
        let mut guard = self.desk.lock(rt);
        let desk = &mut *guard;
        replay(desk, alloc, stopped, is_later, inlets, outlets)
    }

    /// Puts an event through the inlet of its source, makes a round, and lets go what it told: nobody is woken. For who
    /// steps what is missing before anybody is served. `false` where there is no such inlet, or the round made no step.
    pub fn step_alone(
        &self,
        rt: &impl Wait,
        alloc: Global,
        event: Event,
        inlets: &mut Vec<Inlet<K>>,
        outlets: &mut Vec<Outlet<K>>,
    ) -> Result<bool, AllocError>
        ensures { length inlets.new.items ≡ length inlets.old.items }
    {
        if !put(inlets, event) {
            return Ok(false);
        }
        let mut guard = self.desk.lock(rt);
        let desk = &mut *guard;
        let turned = desk.round(alloc)?;
        let prompt = self.outlets_with_output(desk, alloc);
        let waiting = OutletSet::of_bits(desk.take_waiting());
        let_go(outlets, prompt.and(waiting));
        Ok(turned.steps != 0)
    }

    /// Has the older pages of the history leave memory, where there is a journal that has all of it, once the lock
    /// could be had.
    pub fn drop_older(&self, rt: &impl Wait) {
        let mut guard = self.desk.lock(rt);
        let desk = &mut *guard;
        desk.drop_older();
    }

    /// Wakes the outlets that were told something that may wait, and nothing since that isn't to (`Side::send`), once
    /// the lock could be had: their writers write it.
    pub fn wake_waiting(&self, rt: &impl Wait) {
        let waiting = self.take_waiting(rt);
        self.wake_each(waiting);
    }

    /// Makes the rounds that are wanted, where some are: a thread may have found the lock taken by one that makes none,
    /// and left them to it. Whoever calls it each millisecond lets no event lie longer. Memory that is refused is told
    /// by `is_memory_refused`.
    pub fn turns_wanted(&self, alloc: Global) {
        if self.wanted.load(Ordering::SeqCst) {
            let _ = self.turns(alloc, 1, |with_output| self.wake_each(with_output));
        }
    }

    /// The outlets that were told something that may wait, once the lock could be had.
    fn take_waiting(&self, rt: &impl Wait) -> OutletSet {
        let mut guard = self.desk.lock(rt);
        let desk = &mut *guard;
        OutletSet::of_bits(desk.take_waiting())
    }

    /// Waits until an outlet is woken, at most so long; it may wait less. Where it was woken since the last wait, this
    /// one ends at once. One thread at a time waits for an outlet.
    pub fn nap(&self, rt: &impl Wait, outlet: usize, most: Duration) {
        if let Some(waker) = self.wakers.get(outlet) {
            waker.park_timeout(rt, most);
        }
    }

    /// Wakes who waits for an outlet.
    pub fn wake(&self, outlet: usize) {
        if let Some(waker) = self.wakers.get(outlet) {
            waker.unpark();
        }
    }

    /// Wakes these outlets, the last one first: ports stand behind clients, and what a port is told is what its market
    /// waits for.
    pub fn wake_each(&self, with_output: OutletSet) {
        if with_output.is_empty() {
            return;
        }
        for at in (0..self.wakers.len()).rev() {
            if with_output.contains(at) {
                self.wake(at);
            }
        }
    }

    /// Whether this event is none that only says that time passes and gives nothing (`Core::is_due`), once the lock
    /// could be had.
    pub fn is_due(&self, rt: &impl Wait, alloc: Global, event: &Event) -> bool {
        let guard = self.desk.lock(rt);
        let desk = &*guard;
        desk.is_due(alloc, event)
    }

    /// Why a frame of a client's link that isn't logged on is answered by the link's end alone (`Core::logon_fault`),
    /// once the lock could be had.
    pub fn logon_fault(
        &self,
        rt: &impl Wait,
        client: ClientNumber,
        frame: &Fields,
    ) -> Option<LogonFault> {
        let guard = self.desk.lock(rt);
        let desk = &*guard;
        desk.logon_fault(client, frame)
    }

    /// Why a port is faulted, once the lock could be had; `None` of one that isn't.
    pub fn port_fault(&self, rt: &impl Wait, port: u16) -> Option<PortFault> {
        let guard = self.desk.lock(rt);
        let desk = &*guard;
        desk.port_fault(port)
    }

    /// How all clients and ports stand at one moment, once the lock could be had. It goes through no order.
    pub fn status(&self, rt: &impl Wait, alloc: Global) -> Result<Status, AllocError> {
        let guard = self.desk.lock(rt);
        let desk = &*guard;
        desk.status(alloc)
    }

    /// Ends the desk: steps what is left of what finished inlets put, and gives the history and the settings.
    ///
    /// Of each inlet that is handed in the history has just what was put, and each outlet took a beginning of what the
    /// history tells it; where there is a journal, a beginning of what the day tells it that each crash leaves in the
    /// file, whether the file has all or was lost. Where memory is refused, all is given back, with the steps made so
    /// far: the call may be made again.
    pub fn close(
        self,
        alloc: Global,
        finished: Vec<Finished<K>>,
    ) -> Result<Closed, (AllocError, Shared<K, S>, Vec<Finished<K>>)>
        ensures holds { IfOk result (λ closed. Holds closed.settings (turns closed.history)) }
        ensures settled { IfOk result (λ closed. AreSettled finished.items closed.history) }
        ensures named { IfOk result (λ closed. AreNamed K.inlets closed.history.events) }
        ensures output { IfOk result (λ closed. OutputIsKept finished.items closed.journal) }
        ensures ended { IfOk result (λ closed. closed.lost ≡ None → IsEnded closed.history closed.journal) }
        ensures err { IfErr result (λ e. e.2.items ≡ finished.items) }
    {
        let Shared {
            desk,
            wanted: _,
            is_refused: _,
            is_lost: _,
            wakers,
        } = self;
        let mut desk = desk.into_inner();
        let mut finished = finished;
        match desk.settle(alloc, &mut finished) {
            Ok(()) => match desk.close(alloc) {
                Ok(closed) => Ok(closed),
                Err(desk) => Err((AllocError, Shared::new(desk, wakers), finished)),
            },
            Err(error) => Err((error, Shared::new(desk, wakers), finished)),
        }
    }
}

/// What rounds came to.
#[derive(Clone, Copy)]
struct Made {
    /// Each of them made a step.
    is_all: bool,
    /// Memory was refused for an event in the last of them.
    is_refused: bool,
}

/// Rounds, so many at most, until one makes no step, beside those that were made. `AllocError` leaves those that made
/// one counted.
fn rounds<K: DeskName, S: BuildHasher + Drop>(
    desk: &mut Desk<K, S>,
    alloc: Global,
    most: u32,
    turns: &mut Turns,
) -> Result<Made, AllocError> {
    let mut is_refused = false;
    for _ in 0..most {
        let turned = desk.round(alloc)?;
        is_refused = turned.refused != 0;
        if turned.steps == 0 {
            return Ok(Made {
                is_all: false,
                is_refused,
            });
        }
        turns.rounds = turns.rounds.saturating_add(1);
        turns.steps = turns.steps.saturating_add(turned.steps);
    }
    Ok(Made {
        is_all: true,
        is_refused,
    })
}
