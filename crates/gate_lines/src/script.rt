//! A script from its reader to its writers.

ghost use Rattle.std.specs.Prelude.{◌≡◌, ◌≤◌, ◌⊎◌, ℕ, IfOk, IfErr, IfSome, OnOk, Err, map};
ghost use Rattle.std.specs.List.{flat_map, FoldsTo};
ghost use Rattle.std.specs.Io.KnownBytes.{Keeps};
ghost use Rattle.gate_lines.specs.BatchLines.{shown_batch};
ghost use Rattle.gate_events.specs.Seen.{batch_seen};
ghost use Rattle.gate_law.specs.Holds.{Holds};
ghost use Rattle.gate_audit.specs.gate_journal.Kept.{nothing_kept, turns};
ghost use Rattle.wire_streams.specs.Unread.{lines_of};
ghost use Rattle.script_steps.specs.Standing.{IsCold, IsTextStep, IsWarm, StepsText};
ghost use Rattle.script_steps.specs.Steps.{ScriptGoesOn};
ghost use Rattle.gate_lines.specs.Scripts.{BeginsScript, ComesTo, Prints, PrintsAll, PrintsLine, StopsScript};
ghost use Rattle.gate_lines.specs.Scripts.{StopsAmong, WritesNothing};
ghost use Rattle.script_steps.specs.Settings.{fixed};
ghost use Rattle.gate_lines.specs.Status.{IsStopAt, stop_status};

use crate::batch_lines::batch_text;
use crate::flags::Flags;
use crate::stop::Stop;
use gate_events::Batch;
use gate_journal::History;
use script_steps::{Runner, warm_runner};
use std::alloc::{AllocError, Global};
use std::hash::BuildHasher;
use std::io::{Read, Write};
use wire_streams::Lines;

/// The most lines that are counted; no stream has so many within the reads that are made.
const MOST_LINES: u64 = u64::MAX;

/// Runs a script: steps each line that `input` gives, and writes what it prints to `output`, frames as the flags ask
/// for. Unless they ask for `cold`, the clients are logged on and the ports logged in first.
///
/// Answers the status that the script's program ends with: 0 at the script's end; 2 at a line that isn't understood,
/// with `line N: not understood` on `faults`; 1 where memory runs out, with `out of memory`, and where a read or a
/// write fails or the script isn't at its end after 1,000,000,000 reads, with `read or write failed`. Nothing is
/// stepped after that, and what earlier lines printed stays. An output that can't be flushed is a write that failed,
/// whatever else ended the run. The last line needs no newline, and a read that was interrupted is made again.
pub fn run_script<R: Read, W: Write, F: Write>(
    alloc: Global,
    flags: Flags,
    input: &mut R,
    output: &mut W,
    faults: &mut F,
) -> u8
    ensures status { result ≤ 2 }
    ensures printed { result ≡ 0 → IfSome (R.remaining input.old)
        (λ text. PrintsAll flags text (W.contents output.old) (W.contents output.new)) }
    ensures stopped { result ≡ 2 → IfSome (R.remaining input.old)
        (λ text. (number : ℕ) × StopsScript flags text (Stop.NotUnderstood number) (W.contents output.old)
        (W.contents output.new)) }
{
    let ended = run(alloc, flags, Runner::cold(alloc), input, output);
    match flushed(output, ended) {
        Ok(()) => 0,
        Err(stop) => tell(stop, faults),
    }
}

/// Runs a script as `run_script` does, with the core's indexes over a hasher, which changes nothing but how fast they
/// are.
pub fn run_script_with<S: BuildHasher + Clone + Drop, R: Read, W: Write, F: Write>(
    alloc: Global,
    hasher: S,
    flags: Flags,
    input: &mut R,
    output: &mut W,
    faults: &mut F,
) -> u8
    ensures status { result ≤ 2 }
    ensures printed { result ≡ 0 → IfSome (R.remaining input.old)
        (λ text. PrintsAll flags text (W.contents output.old) (W.contents output.new)) }
    ensures stopped { result ≡ 2 → IfSome (R.remaining input.old)
        (λ text. (number : ℕ) × StopsScript flags text (Stop.NotUnderstood number) (W.contents output.old)
        (W.contents output.new)) }
{
    let cold = Runner::cold_with_hasher(alloc, hasher);
    let ended = run(alloc, flags, cold, input, output);
    match flushed(output, ended) {
        Ok(()) => 0,
        Err(stop) => tell(stop, faults),
    }
}

/// Tells why a run stopped, and answers the status that it ends with.
pub fn tell<F: Write>(stop: Stop, faults: &mut F) -> u8
    ensures { result ≡ stop_status stop }
{
    let _ = writeln!(faults, "{stop}");
    stop.status()
}

/// How a run ended, once its output is flushed.
fn flushed<W: Write>(output: &mut W, ended: Result<(), Stop>) -> Result<(), Stop>
    ensures kept { Keeps (W.contents output.old) (W.contents output.new) }
    ensures ended { (result ≡ ended) ⊎ (result ≡ Err Stop.Stream) }
{
    output.flush()?;
    ended
}

/// Steps a script with a runner of which no line was stepped, and prints what each line comes to.
fn run<S: BuildHasher + Drop, R: Read, W: Write>(
    alloc: Global,
    flags: Flags,
    cold: Result<Runner<S>, AllocError>,
    input: &mut R,
    output: &mut W,
) -> Result<(), Stop>
    requires { IfOk cold IsCold }
    ensures printed { OnOk result (IfSome (R.remaining input.old)
        (λ text. PrintsAll flags text (W.contents output.old) (W.contents output.new))) }
    ensures stopped { IfErr result (λ stop. IfSome (R.remaining input.old)
        (λ text. StopsScript flags text stop (W.contents output.old) (W.contents output.new))) }
{
    let mut runner = begun(alloc, flags, cold?)?;
    run_lines(alloc, flags, &mut runner, input, output)?;
    Ok(())
}

/// The runner that a script begins with.
fn begun<S: BuildHasher + Drop>(
    alloc: Global,
    flags: Flags,
    cold: Runner<S>,
) -> Result<Runner<S>, Stop>
    requires { IsCold cold }
    ensures { IfOk result (BeginsScript flags.cold) }
{
    if flags.cold {
        return Ok(cold);
    }
    let mut kept = History::new(alloc);
    let warm = started(alloc, cold, &mut kept)?;
    Ok(warm)
}

/// Steps the lines that `input` gives, to its end, and prints what each comes to.
fn run_lines<S: BuildHasher + Drop, R: Read, W: Write>(
    alloc: Global,
    flags: Flags,
    runner: &mut Runner<S>,
    input: &mut R,
    output: &mut W,
) -> Result<(), Stop>
    ensures printed { OnOk result (IfSome (R.remaining input.old)
        (λ text. Prints flags runner.old (lines_of text) runner.new (W.contents output.old) (W.contents output.new))) }
    ensures stopped { IfErr result (λ stop. IfSome (R.remaining input.old)
        (λ text. StopsAmong flags runner.old text stop (W.contents output.old) (W.contents output.new))) }
{
    let mut lines = Lines::new();
    for number in 1..MOST_LINES {
        let Some(line) = lines.next(alloc, input)? else {
            return Ok(());
        };
        print_line(alloc, flags, runner, number, line.as_slice(), output)?;
    }
    Err(Stop::Stream)
}

/// Steps the line of this number, and prints what it comes to.
fn print_line<S: BuildHasher + Drop, W: Write>(
    alloc: Global,
    flags: Flags,
    runner: &mut Runner<S>,
    number: u64,
    line: &[u8],
    output: &mut W,
) -> Result<(), Stop>
    ensures printed { OnOk result (PrintsLine flags runner.old line.now runner.new (W.contents output.old)
        (W.contents output.new)) }
    ensures stopped { IfErr result (λ stop. WritesNothing number line.now stop (W.contents output.old)
        (W.contents output.new)) }
{
    let mut kept = History::new(alloc);
    step_line(alloc, runner, number, line, &mut kept)?;
    let batches = kept.batches(alloc)?;
    let text = kept_text(alloc, flags, batches.as_slice())?;
    output.write_all(text.as_slice())?;
    Ok(())
}

/// Steps a script, the clients logged on and the ports logged in, and gives its history: the events of the logons and
/// of each line, in their order, each with the batch that it gave. Nothing is printed.
///
/// It stops where `run_script` does, and `tell` has the words and the status. All that is promised of the gateway
/// holds of the history.
pub fn script_history<R: Read>(alloc: Global, input: &mut R) -> Result<History, Stop>
    ensures holds { IfOk result (λ kept. Holds fixed (turns kept)) }
    ensures lines { IfOk result (λ kept. IfSome (R.remaining input.old) (λ text. ComesTo text kept)) }
{
    let mut kept = History::new(alloc);
    let cold = Runner::cold(alloc)?;
    let mut runner = started(alloc, cold, &mut kept)?;
    step_lines(alloc, &mut runner, input, &mut kept)?;
    Ok(kept)
}

/// Steps the lines that `input` gives, to its end.
fn step_lines<S: BuildHasher + Drop, R: Read>(
    alloc: Global,
    runner: &mut Runner<S>,
    input: &mut R,
    kept: &mut History,
) -> Result<(), Stop>
    ensures on { OnOk result (ScriptGoesOn runner.old.core kept.old runner.new.core kept.new) }
    ensures lines { OnOk result (IfSome (R.remaining input.old) (λ text. FoldsTo IsTextStep
        (record { runner = runner.old; kept = kept.old }) (lines_of text)
        (record { runner = runner.new; kept = kept.new }))) }
{
    let mut lines = Lines::new();
    for number in 1..MOST_LINES {
        let Some(line) = lines.next(alloc, input)? else {
            return Ok(());
        };
        step_line(alloc, runner, number, line.as_slice(), kept)?;
    }
    Err(Stop::Stream)
}

/// A runner of which no line was stepped, once its clients are logged on and its ports are logged in. Nothing that this
/// takes isn't understood.
fn started<S: BuildHasher + Drop>(
    alloc: Global,
    cold: Runner<S>,
    kept: &mut History,
) -> Result<Runner<S>, Stop>
    requires { IsCold cold }
    ensures { IfOk result (λ runner. kept.old ≡ nothing_kept → IsWarm (record { runner = runner; kept = kept.new })) }
{
    match warm_runner(alloc, cold, kept) {
        Ok(runner) => Ok(runner),
        Err(fault) => Err(Stop::at_line(fault, 0)),
    }
}

/// Steps the line of this number.
fn step_line<S: BuildHasher + Drop>(
    alloc: Global,
    runner: &mut Runner<S>,
    number: u64,
    line: &[u8],
    kept: &mut History,
) -> Result<(), Stop>
    ensures stepped { OnOk result (StepsText runner.old kept.old line.now runner.new kept.new) }
    ensures stopped { IfErr result (IsStopAt number line.now) }
{
    match runner.take(alloc, line, kept) {
        Ok(()) => Ok(()),
        Err(fault) => Err(Stop::at_line(fault, number)),
    }
}

/// What batches print, one after another.
fn kept_text(alloc: Global, flags: Flags, batches: &[Batch]) -> Result<Vec<u8>, AllocError>
    ensures { IfOk result (λ text. text.items ≡ flat_map (shown_batch flags) (map batch_seen batches.now)) }
{
    let mut text = Vec::new(alloc);
    for batch in batches {
        text.append(&mut batch_text(alloc, flags, batch)?)?;
    }
    Ok(text)
}
