//! The order gateway's program: runs a gateway by its settings, shows one, and audits scripts.
#![tactic(auto)]

ghost use Rattle.std.specs.Prelude.{◌≤◌};

use command_lines::{Asked, Error, asked, is_version, links_of, write_refusal};
use day_export::{ExportFault, Format, export_file, format_of};
use gate_lines::audit_script;
use gateway_demo::show_demo;
use gateway_run::{SettingsFault, SettingsFile, read};
use journal_audit::{audit_file, audit_so_far, script_file};
use journal_file::{Ending, ReadFault};
use std::alloc::Global;
use std::fs::File;
use std::hash::RandomState;
use std::io::{self, BufWriter, ErrorKind, Write};
use std::net::{Net, TcpListener, TcpStream};
use std::process::ExitCode;
use std::random::RandomSource;
use std::sync::Wait;
use std::thread::Threads;
use std::time::Clock;
use std::{env, fs};

mod days;
mod demo_served;
mod journal;
mod played;
mod served;

use days::{AskedDay, have_day};
use demo_served::{asked_demo, serve_demo};
use journal::journal_asked;
use played::{asked_shape, play_world};
use served::{asked_end, asked_serve, end_served};

fn main(rt: HostRuntime) -> ExitCode {
    let words = match words_of(&rt) {
        Ok(words) => words,
        Err(status) => return status,
    };
    match asked(rt.alloc(), words.as_slice()) {
        Ok(Some(Asked::Audit(path))) => with_script(&rt, path, false),
        Ok(Some(Asked::Keep(path))) => with_script(&rt, path, true),
        Ok(
            Some(
                Asked::AuditDay {
                    journal,
                    settings,
                    so_far,
                },
            ),
        ) => audit_journal(&rt, journal, settings, so_far),
        Ok(
            Some(
                Asked::Run {
                    settings,
                    links,
                    journal,
                    sync,
                },
            ),
        ) => match asked_run(&rt, settings, links, journal, sync) {
            Ok(asked) => have_day(&rt, rt.alloc(), asked, journal, &mut rt.stderr()),
            Err(status) => status,
        },
        Ok(
            Some(
                Asked::Serve {
                    settings,
                    journal,
                    sync,
                },
            ),
        ) => match asked_serve(&rt, settings, journal, sync) {
            Ok(asked) => have_day(&rt, rt.alloc(), asked, journal, &mut rt.stderr()),
            Err(status) => status,
        },
        Ok(Some(Asked::End { settings, at_once })) => end_served(&rt, settings, at_once),
        Ok(Some(Asked::EndDay { journal, settings })) => match asked_end(&rt, settings, journal) {
            Ok(asked) => have_day(&rt, rt.alloc(), asked, Some(journal), &mut rt.stderr()),
            Err(status) => status,
        },
        Ok(Some(Asked::Export { journal, format })) => export_journal(&rt, journal, format),
        Ok(
            Some(
                Asked::World {
                    seed,
                    steps,
                    clients,
                    ports,
                },
            ),
        ) => match asked_shape(&rt, seed, steps, clients, ports) {
            Ok(shape) => play_world(&rt, &shape),
            Err(status) => status,
        },
        Ok(Some(Asked::Demo)) => demonstrate(&rt, rt.alloc(), &mut rt.stderr()),
        Ok(Some(Asked::ServedDemo)) => match asked_demo(&rt) {
            Ok(demo) => serve_demo(&rt, rt.alloc(), demo, &mut rt.stderr()),
            Err(status) => status,
        },
        Ok(None) => refused(
            &rt,
            "an audit is of --script FILE, or of --journal FILE with --settings FILE",
        ),
        Err(error) => ExitCode::from(unasked(&error, &mut io::writer(&rt), &mut rt.stderr())),
    }
}

/// Tells what a command line came to that asks for nothing: the version, the help, or why it is refused. The status is
/// 0 for the first two, where they could be written.
fn unasked<W: Write, F: Write>(error: &Error, output: &mut W, faults: &mut F) -> u8
    ensures { result ≤ 2 }
{
    if is_version(error) {
        return u8::from(write!(output, "{error}").is_err());
    }
    write_refusal(error, output, faults)
}

/// The words of the command line, or the status where they can't be had.
fn words_of(rt: &HostRuntime) -> Result<Vec<String>, ExitCode> {
    let args = match env::args(rt) {
        Ok(args) => args,
        Err(error) if error.kind() == ErrorKind::OutOfMemory => return Err(out_of_memory(rt)),
        Err(_) => return Err(refused(rt, "an argument is no text")),
    };
    match args.collect::<Vec<String>>(rt.alloc()) {
        Ok(words) => Ok(words),
        Err(_) => Err(out_of_memory(rt)),
    }
}

/// Audits the script in a file, or writes its day as a journal.
fn with_script(rt: &HostRuntime, path: &str, is_kept: bool) -> ExitCode {
    match file_at(rt, path) {
        Ok(script) => with_lines(rt, script.as_slice(), is_kept),
        Err(status) => status,
    }
}

/// The bytes of a file, or the status where it can't be read.
fn file_at(rt: &HostRuntime, path: &str) -> Result<Vec<u8>, ExitCode> {
    match fs::read(rt, path) {
        Ok(bytes) => Ok(bytes),
        Err(error) if error.kind() == ErrorKind::OutOfMemory => Err(out_of_memory(rt)),
        Err(_) => Err(cannot_read(rt, path)),
    }
}

/// Tells that a file can't be read.
fn cannot_read(rt: &HostRuntime, path: &str) -> ExitCode {
    let _ = eprintln!(rt; "gateway: cannot read {path}");
    ExitCode::from(2)
}

/// Audits a script, or writes its day as a journal.
fn with_lines(rt: &HostRuntime, script: &[u8], is_kept: bool) -> ExitCode {
    let alloc = rt.alloc();
    let Ok(mut output) = BufWriter::new(alloc, io::writer(rt)) else {
        return out_of_memory(rt);
    };
    let mut input = script;
    let status = if is_kept {
        script_file(alloc, &mut input, &mut output, &mut rt.stderr())
    } else {
        audit_script(alloc, &mut input, &mut output, &mut rt.stderr())
    };
    ExitCode::from(status)
}

/// Audits the day that a journal's file keeps: one that is over, or what there is so far.
fn audit_journal(rt: &HostRuntime, journal: &str, settings: &str, is_so_far: bool) -> ExitCode {
    let file = match settings_at(rt, settings) {
        Ok(file) => file,
        Err(status) => return status,
    };
    match opened_at(rt, journal) {
        Ok(day) => audit_day_of(rt, day, &file, is_so_far),
        Err(status) => status,
    }
}

/// A file that is open to be read, or the status where it can't be.
fn opened_at(rt: &HostRuntime, path: &str) -> Result<File, ExitCode> {
    let file = match File::open(rt, path) {
        Ok(file) => file,
        Err(error) if error.kind() == ErrorKind::OutOfMemory => return Err(out_of_memory(rt)),
        Err(_) => return Err(cannot_read(rt, path)),
    };
    match file.metadata() {
        Ok(about) if about.is_dir() => Err(cannot_read(rt, path)),
        _ => Ok(file),
    }
}

/// Audits a day by its settings.
fn audit_day_of(rt: &HostRuntime, day: File, file: &SettingsFile, is_so_far: bool) -> ExitCode {
    let alloc = rt.alloc();
    let Ok(mut output) = BufWriter::new(alloc, io::writer(rt)) else {
        return out_of_memory(rt);
    };
    let mut input = day;
    let status = if is_so_far {
        audit_so_far(
            alloc,
            &mut input,
            &file.settings,
            &mut output,
            &mut rt.stderr(),
        )
    } else {
        audit_file(
            alloc,
            &mut input,
            &file.settings,
            &mut output,
            &mut rt.stderr(),
        )
    };
    ExitCode::from(status)
}

/// Prints the messages of the day that a journal's file keeps.
fn export_journal(rt: &HostRuntime, journal: &str, format: Option<&str>) -> ExitCode {
    let Some(format) = format_of(format) else {
        return refused(rt, "--format is csv, json or messages");
    };
    match opened_at(rt, journal) {
        Ok(day) => export_of(rt, day, format),
        Err(status) => status,
    }
}

/// The same of a journal's file, and tells where its day goes on.
fn export_of(rt: &HostRuntime, day: File, format: Format) -> ExitCode {
    let alloc = rt.alloc();
    let Ok(mut output) = BufWriter::new(alloc, io::writer(rt)) else {
        return out_of_memory(rt);
    };
    let mut input = day;
    match export_file(alloc, format, &mut input, &mut output) {
        Ok(Ending::Over) => ExitCode::from(0),
        Ok(Ending::GoesOn | Ending::Torn(_)) => {
            let _ = eprintln!(rt; "the day goes on");
            ExitCode::from(0)
        }
        Err(fault) => not_exported(rt, &fault),
    }
}

/// Tells why a day isn't exported: 2 where its file is none.
fn not_exported(rt: &HostRuntime, fault: &ExportFault) -> ExitCode {
    let _ = eprintln!(rt; "{fault}");
    match fault {
        ExportFault::File(ReadFault::NoFile(_, _)) => ExitCode::from(2),
        ExportFault::File(_) | ExportFault::Stream(_) => ExitCode::from(1),
    }
}

/// The settings in a file, or the status where they are refused: by the bare key.
fn settings_at(rt: &HostRuntime, path: &str) -> Result<SettingsFile, ExitCode> {
    let text = file_at(rt, path)?;
    match read(rt.alloc(), text.as_slice()) {
        Ok(file) => Ok(file),
        Err(SettingsFault::NoMemory) => Err(out_of_memory(rt)),
        Err(SettingsFault::Refused(refusal)) => Err(refused_key(rt, refusal.key.as_str())),
        Err(SettingsFault::NotToml(_)) => Err(refused_key(rt, "toml")),
    }
}

/// Tells which key of settings is refused.
fn refused_key(rt: &HostRuntime, key: &str) -> ExitCode {
    let _ = eprintln!(rt; "gateway: settings: {key}");
    ExitCode::from(2)
}

/// What `run` asks for, or the status where it is refused. A journal's file is made, or is of a day that goes on.
fn asked_run(
    rt: &HostRuntime,
    settings: &str,
    links: Option<&str>,
    path: Option<&str>,
    sync: Option<&str>,
) -> Result<AskedDay, ExitCode> {
    let Some(links) = links_of(links) else {
        return Err(refused(rt, "--links is a number from 1 to 1000"));
    };
    let file = settings_at(rt, settings)?;
    let journal = journal_asked(rt, path, sync)?;
    Ok(AskedDay::Run {
        file,
        journal,
        links,
    })
}

/// Shows a gateway on loopback.
fn demonstrate<R, F: Write>(rt: &R, alloc: Global, faults: &mut F) -> ExitCode
where
    R: Threads
        + Wait
        + Sync
        + Clock
        + Net<Listener = TcpListener, Stream = TcpStream>
        + RandomSource
        + Print
        + Eprint,
{
    let Ok(hasher) = RandomState::new(rt) else {
        return no_seed(faults);
    };
    let Ok(mut output) = BufWriter::new(alloc, io::writer(rt)) else {
        let _ = writeln!(faults, "out of memory");
        return ExitCode::from(1);
    };
    ExitCode::from(show_demo(rt, alloc, hasher, &mut output, faults))
}

/// Tells that the system has no random number for the seed of the gateway's indexes.
fn no_seed<F: Write>(faults: &mut F) -> ExitCode {
    let _ = writeln!(faults, "gateway: no random number");
    ExitCode::from(1)
}

/// Tells why a command line is refused.
fn refused(rt: &HostRuntime, why: &str) -> ExitCode {
    let _ = eprintln!(rt; "gateway: {why}");
    ExitCode::from(2)
}

fn out_of_memory(rt: &impl Eprint) -> ExitCode {
    let _ = rt.eprintln("out of memory");
    ExitCode::from(1)
}
