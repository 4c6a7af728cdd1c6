//! The core with the script's settings, and the links of its clients and ports.

ghost use Rattle.std.specs.Prelude.{◌≡◌, ◌++◌, ◌∷◌, [], IfOk, OnOk, IsErrOf};
ghost use Rattle.std.specs.List.{FoldsTo};
ghost use Rattle.gate_journal.specs.Kept.{nothing_kept};
ghost use Rattle.script_steps.specs.Lines.{MayStop, MayStopAt};
ghost use Rattle.script_steps.specs.Standing.{IsCold, IsStep, IsWarm, StepsText, logs_in_lines, logs_on_lines};
ghost use Rattle.script_steps.specs.Standing.{opening_lines};
ghost use Rattle.script_steps.specs.Standing as spec;
ghost use Rattle.script_steps.specs.Steps.{ScriptGoesOn, KeepsLine};

use crate::events::Links;
use crate::settings::fixed_settings;
use fix_fields::Fields;
use gate_core::{Core, Event};
use gate_journal::History;
use script_lines::{Client, Line, LineFault, Port, line_of};
use std::alloc::{AllocError, Global};
use std::hash::{BuildHasher, BuildHasherDefault, FoldHasher};
use std::marker::Model;

/// The gateway's core with the settings of a script, and what the script's lines have told of links and of the time.
///
/// The core's indexes are over any hasher, which changes nothing but how fast they are.
pub struct Runner<S: BuildHasher + Drop = BuildHasherDefault<FoldHasher>> {
    core: Core<S>,
    links: Links,
}

// Not derived: then each way out drops it in one call (docs/DECISIONS.md, "Drops").
impl<S: BuildHasher + Drop> Drop for Runner<S> {
    fn drop(self) {
        let Runner { core: _, links: _ } = self;
    }
}

impl<S: BuildHasher + Drop> Model for Runner<S> {
    ghost use Rattle.script_steps.specs.Standing as standing;

    ghost Value = { standing.Runner };

    ghost view = { λ r. record { core = r.core; links = r.links } };
}

impl Runner {
    /// A runner of which no line was stepped, with the fixed seed. No link is up.
    pub fn cold(alloc: Global) -> Result<Runner, AllocError>
        ensures { IfOk result IsCold }
    {
        let settings = fixed_settings(alloc)?;
        Ok(Runner {
            core: Core::new(alloc, &settings)?,
            links: Links::new(alloc),
        })
    }
}

impl<S: BuildHasher + Clone + Drop> Runner<S> {
    /// A runner of which no line was stepped, with a hasher. No link is up.
    pub fn cold_with_hasher(alloc: Global, hasher: S) -> Result<Runner<S>, AllocError>
        ensures { IfOk result IsCold }
    {
        let settings = fixed_settings(alloc)?;
        Ok(Runner {
            core: Core::with_hasher(alloc, hasher, &settings)?,
            links: Links::new(alloc),
        })
    }
}

impl<S: BuildHasher + Drop> Runner<S> {
    /// Steps the line of this text, and keeps its events with the batches that they give. `NotUnderstood` where it is
    /// none of the tables' lines, and where `step` answers it.
    pub fn take(&mut self, alloc: Global, text: &[u8], kept: &mut History) -> Result<(), LineFault>
        ensures stepped { OnOk result (StepsText self.old kept.old text.now self.new kept.new) }
        ensures stopped { IsErrOf result LineFault.NotUnderstood → MayStopAt text.now }
    {
        let line = line_of(alloc, text)?;
        self.step(alloc, line, kept)?;
        Ok(())
    }

    /// Steps a line, and keeps its events with the batches that they give. `NotUnderstood` where `Links::events_of`
    /// answers it.
    pub fn step(&mut self, alloc: Global, line: Line, kept: &mut History) -> Result<(), LineFault>
        ensures on { OnOk result (ScriptGoesOn self.old.core kept.old self.new.core kept.new) }
        ensures line { OnOk result (KeepsLine self.old.core line self.old.links self.new.links kept.old kept.new) }
        ensures stopped { IsErrOf result LineFault.NotUnderstood → MayStop line }
    {
        let events = self.links.events_of(alloc, &self.core, line)?;
        Ok(step_events(alloc, &mut self.core, events, kept)?)
    }
}

/// Steps events in their order, and keeps each with its batch.
fn step_events<S: BuildHasher + Drop>(
    alloc: Global,
    core: &mut Core<S>,
    events: Vec<Event>,
    kept: &mut History,
) -> Result<(), AllocError>
    ensures on { OnOk result (ScriptGoesOn core.old kept.old core.new kept.new) }
    ensures events { OnOk result (kept.new.events ≡ kept.old.events ++ events.items) }
{
    for event in events {
        step_event(alloc, core, event, kept)?;
    }
    Ok(())
}

/// Steps an event, and keeps it with its batch.
fn step_event<S: BuildHasher + Drop>(
    alloc: Global,
    core: &mut Core<S>,
    event: Event,
    kept: &mut History,
) -> Result<(), AllocError>
    ensures on { OnOk result (ScriptGoesOn core.old kept.old core.new kept.new) }
    ensures event { OnOk result (kept.new.events ≡ kept.old.events ++ event ∷ []) }
{
    let batch = core.step(alloc, &event)?;
    kept.push(&event, &batch)?;
    Ok(())
}

/// A runner of which no line was stepped, once its clients are logged on and its ports are logged in, on their first
/// links at moment 0. What was stepped for it is kept.
pub fn warm_runner<S: BuildHasher + Drop>(
    alloc: Global,
    cold: Runner<S>,
    kept: &mut History,
) -> Result<Runner<S>, LineFault>
    requires { IsCold cold }
    ensures { IfOk result (λ runner. kept.old ≡ nothing_kept → IsWarm (record { runner = runner; kept = kept.new })) }
{
    let mut runner = cold;
    open_sessions(alloc, &mut runner, kept)?;
    Ok(runner)
}

/// All clients come up and log on, then all ports come up and are logged in.
fn open_sessions<S: BuildHasher + Drop>(
    alloc: Global,
    runner: &mut Runner<S>,
    kept: &mut History,
) -> Result<(), LineFault>
    ensures { OnOk result (FoldsTo IsStep (record { runner = runner.old; kept = kept.old }) opening_lines
        (record { runner = runner.new; kept = kept.new })) }
{
    log_on(alloc, runner, Client::First, kept)?;
    log_on(alloc, runner, Client::Second, kept)?;
    log_on(alloc, runner, Client::Third, kept)?;
    log_in(alloc, runner, Port::First, kept)?;
    log_in(alloc, runner, Port::Second, kept)?;
    Ok(())
}

/// A client comes up and logs on, with a heartbeat every 30 seconds.
///
/// Source: FIX 4.4 Volume 2, "Logon".
fn log_on<S: BuildHasher + Drop>(
    alloc: Global,
    runner: &mut Runner<S>,
    client: Client,
    kept: &mut History,
) -> Result<(), LineFault>
    ensures { OnOk result (FoldsTo IsStep (record { runner = runner.old; kept = kept.old }) (logs_on_lines client)
        (record { runner = runner.new; kept = kept.new })) }
{
    runner.step(alloc, Line::ClientUp(client), kept)?;
    let logon = logon(alloc)?;
    runner.step(alloc, Line::ClientMessage(client, logon), kept)?;
    Ok(())
}

/// A Logon (A): no encryption, a heartbeat every 30 seconds.
///
/// Source: FIX 4.4 Volume 2, "Logon".
fn logon(alloc: Global) -> Result<Fields, AllocError>
    ensures { IfOk result (λ fields. fields ≡ spec.logon) }
{
    let mut fields = Fields::new(alloc);
    fields.push(35, b"A")?;
    fields.push(98, b"0")?;
    fields.push(108, b"30")?;
    Ok(fields)
}

/// A port comes up and is logged in.
fn log_in<S: BuildHasher + Drop>(
    alloc: Global,
    runner: &mut Runner<S>,
    port: Port,
    kept: &mut History,
) -> Result<(), LineFault>
    ensures { OnOk result (FoldsTo IsStep (record { runner = runner.old; kept = kept.old }) (logs_in_lines port)
        (record { runner = runner.new; kept = kept.new })) }
{
    runner.step(alloc, Line::PortUp(port), kept)?;
    runner.step(
        alloc,
        Line::PortLogin {
            port,
            session: *b"SESSION001",
            number: *b"                   1",
        },
        kept,
    )?;
    Ok(())
}
