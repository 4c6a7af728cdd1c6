//! The command line of `gate_script`, as `clap` reads it.

ghost use Rattle.std.specs.Prelude.{◌≡◌, IfOk, map, option_map};
ghost use Rattle.clap.specs.Words.{FailsBy, app_of, found_of, kind_of, rows_of, with_rule};
ghost use Rattle.command_lines.specs.ScriptFlags as spec;

use clap::error::ErrorKind;
use clap::{Arg, ArgAction, ArgMatches, Command, Error};
use gate_lines::Flags;
use std::alloc::{AllocError, Global};
use std::convert::AsStr;

/// What stands below the list of flags in the help.
const EXAMPLE: &str = "\
A script says all that happens, an event a line. Client 1 sends an order, and the market accepts
and fills it:

  $ gate_script <<END
  C1 msg 35=D|11=A1|54=1|55=INTC|38=300|40=2|44=23.45
  P1 A 1 B 300 INTC 234500 99998 L
  P1 E 1 300 234500 1
  END

C1, C2 and C3 are clients, P1 and P2 ports to the market. Printed is what a client's or a port's link
is told (C1 > .., P1 > ..), after each line of the script. More lines: `at 1000` (the moment, in
milliseconds), `C1 up`, `C1 gone`, `C1 tick`, `C1 raw 8=FIX.4.4|..`, `P1 up`, `P1 gone`, `P1 tick`,
`P1 end`, `P1 login SESSION001 1`, `P1 pkt 000152`.

The status is 0 at the script's end, 2 at a line that isn't understood, 1 where memory runs out or a
read or write fails.";

/// The flags that a command line asks for; its first word is the program's name.
///
/// An error tells why the command line is refused, or is the help that it asks for, or says that memory ran out:
/// `refusal_status` has the status for each.
pub fn script_flags<'a, S: AsStr>(alloc: Global, words: &'a [S]) -> Result<Flags, Error>
    ensures flags { IfOk result (λ flags. flags ≡ spec.flags_in (spec.script_found (map S.text words.now))) }
    ensures refused { FailsBy (spec.script_faults (map S.text words.now)) result }
{
    let matches = matches_of(alloc, words)?;
    Ok(Flags {
        num: is_given(&matches, "num"),
        raw: is_given(&matches, "raw"),
        cold: is_given(&matches, "cold"),
    })
}

/// What `clap` finds in the words.
fn matches_of<'a, S: AsStr>(alloc: Global, words: &'a [S]) -> Result<ArgMatches<'a>, Error>
    ensures found { IfOk result (λ matches. rows_of (found_of matches) ≡ spec.script_found (map S.text words.now)) }
    ensures refused { FailsBy (spec.script_faults (map S.text words.now)) result }
{
    let command = gate_script(alloc)?;
    command.try_get_matches_from(words)
}

/// Whether a flag was given.
fn is_given(matches: &ArgMatches<'_>, name: &str) -> bool
    ensures { result ≡ spec.is_given name.now (rows_of (found_of matches.now)) }
{
    is_true(matches.get_str(name))
}

/// Whether a value is `true`.
fn is_true(value: Option<&str>) -> bool
    ensures { result ≡ spec.is_true (option_map (λ text. text.now) value.entry) }
{
    match value {
        Some(text) => text == "true",
        None => false,
    }
}

/// The status of a program whose command line gave this error: 0 for the help, 1 where memory ran out, else 2.
pub fn refusal_status(error: &Error) -> u8
    ensures { result ≡ spec.error_status (kind_of error.now) }
{
    match error.kind() {
        ErrorKind::DisplayHelp => 0,
        ErrorKind::OutOfMemory => 1,
        _ => 2,
    }
}

/// `gate_script [--num] [--raw] [--cold]`.
fn gate_script<'a>(alloc: Global) -> Result<Command<'a>, AllocError>
    ensures { IfOk result (λ command. app_of command ≡ spec.gate_script) }
{
    let command = Command::new(alloc, "gate_script")
        .about("Runs a script of the order gateway, and prints what the gateway tells its links")
        .after_help(EXAMPLE);
    let command = with_flag(
        alloc,
        command,
        "num",
        "Shows each frame's sequence number (34)",
    )?;
    let command = with_flag(alloc, command, "raw", "Shows each frame whole, | for SOH")?;
    with_flag(
        alloc,
        command,
        "cold",
        "Starts with no client logged on and no port logged in",
    )
}

/// The command with one flag more, which is given at most once.
fn with_flag<'a>(
    alloc: Global,
    command: Command<'a>,
    name: &'a str,
    help: &'a str,
) -> Result<Command<'a>, AllocError>
    ensures { IfOk result (λ new. app_of new ≡ with_rule (app_of command.entry) (spec.flag_rule name.now)) }
{
    let flag = Arg::new(alloc, name)
        .long(name)
        .action(ArgAction::SetTrue)
        .help(help);
    command.arg(flag)
}
