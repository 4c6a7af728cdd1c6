//! The command line of `gateway`, as `clap` reads it.

ghost use Rattle.std.specs.Prelude.{◌≡◌, codes, IfOk, map, option_map};
ghost use Rattle.clap.specs.Words.{FailsBy, first_of, found_of, kind_of, rows_of, subcommand_rows_of};
ghost use Rattle.command_lines.specs.Command as spec;
ghost use Rattle.command_lines.specs.Seen.{asked_seen};

use crate::asking::Asked;
use crate::building::gateway;
use clap::error::ErrorKind;
use clap::{ArgMatches, Error};
use std::alloc::Global;
use std::convert::AsStr;

/// What a command line asks for; its first word is the program's name.
///
/// An error tells why the command line is refused, or is the help that it asks for, or says that memory ran out. `None`
/// is answered of an `audit` that names neither a script alone nor a journal with its settings.
pub fn asked<'a, S: AsStr>(alloc: Global, words: &'a [S]) -> Result<Option<Asked<'a>>, Error>
    ensures asked { IfOk result (λ asked. option_map asked_seen asked ≡ spec.asked_of (map S.text words.now)) }
    ensures refused { FailsBy (spec.gateway_faults (map S.text words.now)) result }
{
    let matches = matches_of(alloc, words)?;
    Ok(asked_in(&matches))
}

/// Whether a command line that is answered so asks for the version: the answer's text is that, to be printed.
pub fn is_version(error: &Error) -> bool
    ensures { result ≡ spec.is_version (kind_of error.now) }
{
    matches!(error.kind(), ErrorKind::DisplayVersion)
}

/// What `clap` finds in the words.
fn matches_of<'a, S: AsStr>(alloc: Global, words: &'a [S]) -> Result<ArgMatches<'a>, Error>
    ensures found { IfOk result (λ matches. subcommand_rows_of matches ≡ spec.gateway_found (map S.text words.now)) }
    ensures refused { FailsBy (spec.gateway_faults (map S.text words.now)) result }
{
    let command = gateway(alloc)?;
    command.try_get_matches_from(words)
}

/// What was found asks for.
fn asked_in<'a>(matches: &ArgMatches<'a>) -> Option<Asked<'a>>
    ensures { option_map asked_seen result ≡ spec.asked_in (subcommand_rows_of matches.now) }
{
    match matches.subcommand() {
        Some((name, found)) => asked_by(name, found),
        None => None,
    }
}

/// What a subcommand asks for.
fn asked_by<'a>(name: &str, found: &ArgMatches<'a>) -> Option<Asked<'a>>
    ensures { option_map asked_seen result ≡ spec.asking_of name.now (rows_of (found_of found.now)) }
{
    match name {
        "audit" => audit_asked(found),
        "journal" => keep_asked(found),
        "run" => run_asked(found),
        "serve" => serve_asked(found),
        "end" => end_asked(found),
        "demo" => demo_asked(found),
        "export" => export_asked(found),
        "world" => world_asked(found),
        _ => None,
    }
}

/// What `audit` asks for.
fn audit_asked<'a>(found: &ArgMatches<'a>) -> Option<Asked<'a>>
    ensures { option_map asked_seen result ≡ spec.audit_asked (rows_of (found_of found.now)) }
{
    match value_of(found, "script") {
        Some(script) => script_asked(found, script),
        None => day_asked(found),
    }
}

/// What `audit` asks for with a script: its audit, where nothing else is said.
fn script_asked<'a>(found: &ArgMatches<'a>, script: &'a str) -> Option<Asked<'a>>
    ensures { option_map asked_seen result
        ≡ spec.script_asked script.now (first_of (codes "journal") (rows_of (found_of found.now)))
        (rows_of (found_of found.now)) }
{
    match value_of(found, "journal") {
        Some(_) => None,
        None => bare_asked(found, script),
    }
}

/// The same, where no journal is named.
fn bare_asked<'a>(found: &ArgMatches<'a>, script: &'a str) -> Option<Asked<'a>>
    ensures { option_map asked_seen result
        ≡ spec.bare_asked script.now (first_of (codes "settings") (rows_of (found_of found.now)))
        (spec.is_said (first_of (codes "so-far") (rows_of (found_of found.now)))) }
{
    match value_of(found, "settings") {
        Some(_) => None,
        None => lone_asked(script, is_said(found, "so-far")),
    }
}

/// The same, where no settings are named either: a script's day has no further part.
fn lone_asked<'a>(script: &'a str, is_so_far: bool) -> Option<Asked<'a>>
    ensures { option_map asked_seen result ≡ spec.lone_asked script.now is_so_far }
{
    if is_so_far {
        None
    } else {
        Some(Asked::Audit(script))
    }
}

/// What `audit` asks for without a script: the audit of a journal, by its settings.
fn day_asked<'a>(found: &ArgMatches<'a>) -> Option<Asked<'a>>
    ensures { option_map asked_seen result ≡ spec.day_asked (first_of (codes "journal") (rows_of (found_of found.now)))
        (rows_of (found_of found.now)) }
{
    match value_of(found, "journal") {
        Some(journal) => journal_asked(found, journal),
        None => None,
    }
}

/// What `audit` asks for with this journal.
fn journal_asked<'a>(found: &ArgMatches<'a>, journal: &'a str) -> Option<Asked<'a>>
    ensures { option_map asked_seen result ≡ spec.journal_asked journal.now (rows_of (found_of found.now)) }
{
    match value_of(found, "settings") {
        Some(settings) => Some(Asked::AuditDay {
            journal,
            settings,
            so_far: is_said(found, "so-far"),
        }),
        None => None,
    }
}

/// What `journal` asks for.
fn keep_asked<'a>(found: &ArgMatches<'a>) -> Option<Asked<'a>>
    ensures { option_map asked_seen result ≡ spec.keep_asked (rows_of (found_of found.now)) }
{
    match value_of(found, "script") {
        Some(script) => Some(Asked::Keep(script)),
        None => None,
    }
}

/// What `run` asks for.
fn run_asked<'a>(found: &ArgMatches<'a>) -> Option<Asked<'a>>
    ensures { option_map asked_seen result ≡ spec.run_asked (rows_of (found_of found.now)) }
{
    match value_of(found, "settings") {
        Some(settings) => Some(Asked::Run {
            settings,
            links: value_of(found, "links"),
            journal: value_of(found, "journal"),
            sync: value_of(found, "sync"),
        }),
        None => None,
    }
}

/// What `serve` asks for.
fn serve_asked<'a>(found: &ArgMatches<'a>) -> Option<Asked<'a>>
    ensures { option_map asked_seen result ≡ spec.serve_asked (rows_of (found_of found.now)) }
{
    match value_of(found, "settings") {
        Some(settings) => Some(Asked::Serve {
            settings,
            journal: value_of(found, "journal"),
            sync: value_of(found, "sync"),
        }),
        None => None,
    }
}

/// What `end` asks for.
fn end_asked<'a>(found: &ArgMatches<'a>) -> Option<Asked<'a>>
    ensures { option_map asked_seen result ≡ spec.end_asked (rows_of (found_of found.now)) }
{
    match value_of(found, "settings") {
        Some(settings) => end_by(found, settings),
        None => None,
    }
}

/// The same by these settings: with a journal the end of the day that it keeps, which awaits nobody.
fn end_by<'a>(found: &ArgMatches<'a>, settings: &'a str) -> Option<Asked<'a>>
    ensures { option_map asked_seen result ≡ spec.end_by settings.now
        (first_of (codes "journal") (rows_of (found_of found.now))) (rows_of (found_of found.now)) }
{
    match value_of(found, "journal") {
        Some(journal) => Some(Asked::EndDay { journal, settings }),
        None => Some(Asked::End {
            settings,
            at_once: is_said(found, "now"),
        }),
    }
}

/// What `export` asks for.
fn export_asked<'a>(found: &ArgMatches<'a>) -> Option<Asked<'a>>
    ensures { option_map asked_seen result ≡ spec.export_asked (rows_of (found_of found.now)) }
{
    match value_of(found, "journal") {
        Some(journal) => Some(Asked::Export {
            journal,
            format: value_of(found, "format"),
        }),
        None => None,
    }
}

/// What `demo` asks for.
#[tactic(auto, unfolding(crate::specs::Seen::asked_seen))]
fn demo_asked<'a>(found: &ArgMatches<'a>) -> Option<Asked<'a>>
    ensures { option_map asked_seen result ≡ spec.demo_asked (rows_of (found_of found.now)) }
{
    if is_said(found, "serve") {
        Some(Asked::ServedDemo)
    } else {
        Some(Asked::Demo)
    }
}

/// What `world` asks for.
fn world_asked<'a>(found: &ArgMatches<'a>) -> Option<Asked<'a>>
    ensures { option_map asked_seen result ≡ spec.world_asked (rows_of (found_of found.now)) }
{
    match value_of(found, "seed") {
        Some(seed) => steps_asked(found, seed),
        None => None,
    }
}

/// The same with this seed.
fn steps_asked<'a>(found: &ArgMatches<'a>, seed: &'a str) -> Option<Asked<'a>>
    ensures { option_map asked_seen result ≡ spec.steps_asked seed.now (rows_of (found_of found.now)) }
{
    match value_of(found, "steps") {
        Some(steps) => Some(Asked::World {
            seed,
            steps,
            clients: value_of(found, "clients"),
            ports: value_of(found, "ports"),
        }),
        None => None,
    }
}

/// Whether a flag is given.
fn is_said<'a>(found: &ArgMatches<'a>, name: &str) -> bool
    ensures { result ≡ spec.is_said (first_of name.now (rows_of (found_of found.now))) }
{
    match value_of(found, name) {
        Some(text) => text == "true",
        None => false,
    }
}

/// The value of an option.
fn value_of<'a>(found: &ArgMatches<'a>, name: &str) -> Option<&'a str>
    ensures { option_map (λ text. text.now) result ≡ first_of name.now (rows_of (found_of found.now)) }
{
    found.get_str(name)
}
