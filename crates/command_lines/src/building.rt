//! `gateway` with its subcommands and their options, made of the tables.

ghost use Rattle.std.specs.Prelude.{◌≡◌, false, IfOk};
ghost use Rattle.clap.specs.Words.{app_of, rule_of, with_rule};
ghost use Rattle.clap.specs.declared.builder.command.Command.{out-Command as fields_of};
ghost use Rattle.command_lines.specs.Command as spec;
ghost use Rattle.command_lines.specs.Rows.{command_in, rule_in, with_commands as those, with_rules};

use crate::table::{COMMANDS, CommandRow, Gives, OptionRow};
use crate::version::version;
use clap::{Arg, ArgAction, Command};
use std::alloc::{AllocError, Global};

/// `gateway` with its subcommands.
pub(crate) fn gateway<'a>(alloc: Global) -> Result<Command<'a>, AllocError>
    ensures { IfOk result (λ command. app_of command ≡ spec.gateway) }
{
    let alone = Command::new(alloc, "gateway")
        .about("The order gateway: FIX 4.4 clients, OUCH 4.2 market ports")
        .version(version())
        .subcommand_required(true)
        .arg_required_else_help(true);
    with_all(alloc, alone)
}

/// A command with all subcommands more.
#[tactic(auto, unfolding(crate::specs::Rows::with_commands, crate::specs::Rows::with_rules))]
fn with_all<'a>(alloc: Global, command: Command<'a>) -> Result<Command<'a>, AllocError>
    requires alone { app_of command ≡ spec.alone }
    ensures { IfOk result (λ wider. app_of wider ≡ spec.gateway) }
{
    with_commands(alloc, command, &COMMANDS)
}

/// A command with these subcommands more.
fn with_commands<'a>(
    alloc: Global,
    command: Command<'a>,
    rows: &[CommandRow<'a>],
) -> Result<Command<'a>, AllocError>
    ensures { IfOk result (λ wider. app_of wider ≡ those (app_of command.entry) rows.now) }
{
    match rows {
        [row, rows @ ..] => with_commands(alloc, with_command(alloc, command, *row)?, rows),
        [] => Ok(command),
    }
}

/// A command with the subcommand of a row more. Where that can't be had, the command is let go by a call: written out,
/// field by field, its drop takes far longer to prove.
fn with_command<'a>(
    alloc: Global,
    command: Command<'a>,
    row: CommandRow<'a>,
) -> Result<Command<'a>, AllocError>
    ensures { IfOk result (λ wider. app_of wider ≡ spec.with_command (app_of command.entry) (command_in row.entry)) }
{
    match subcommand(alloc, row) {
        Ok(more) => command.subcommand(more),
        Err(error) => {
            drop(command);
            Err(error)
        }
    }
}

/// The subcommand of a row.
fn subcommand<'a>(alloc: Global, row: CommandRow<'a>) -> Result<Command<'a>, AllocError>
    ensures app { IfOk result (λ command. app_of command ≡ command_in row.entry) }
    ensures own { IfOk result (λ command. (fields_of command).has_globals ≡ false) }
{
    let alone = Command::new(alloc, row.name)
        .about(row.about)
        .after_help(row.help);
    with_options(alloc, alone, row.options)
}

/// A command with these options more.
fn with_options<'a>(
    alloc: Global,
    command: Command<'a>,
    rows: &[OptionRow<'a>],
) -> Result<Command<'a>, AllocError>
    ensures app { IfOk result (λ wider. app_of wider ≡ with_rules (app_of command.entry) rows.now) }
    ensures own { IfOk result (λ wider. (fields_of wider).has_globals ≡ (fields_of command.entry).has_globals) }
{
    match rows {
        [row, rows @ ..] => with_options(alloc, with_option(command, option(alloc, *row))?, rows),
        [] => Ok(command),
    }
}

/// A command with an option more.
fn with_option<'a>(command: Command<'a>, arg: Arg<'a>) -> Result<Command<'a>, AllocError>
    requires option { arg.global ≡ false }
    ensures app { IfOk result (λ wider. app_of wider ≡ with_rule (app_of command.entry) (rule_of arg.entry)) }
    ensures own { IfOk result (λ wider. (fields_of wider).has_globals ≡ (fields_of command.entry).has_globals) }
{
    command.arg(arg)
}

/// The option of a row.
fn option<'a>(alloc: Global, row: OptionRow<'a>) -> Arg<'a>
    ensures rule { rule_of result ≡ rule_in row.entry }
    ensures own { result.global ≡ false }
{
    match row.gives {
        Gives::Value(value) => valued(alloc, row.name, value, row.help),
        Gives::Required(value) => required(alloc, row.name, value, row.help),
        Gives::Flag => flag(alloc, row.name, row.help),
    }
}

/// An option with a value.
fn valued<'a>(alloc: Global, name: &'a str, value: &'a str, help: &'a str) -> Arg<'a>
    ensures rule { rule_of result ≡ spec.value_rule name.now }
    ensures own { result.global ≡ false }
{
    Arg::new(alloc, name)
        .long(name)
        .value_name(value)
        .action(ArgAction::Set)
        .help(help)
}

/// The same, where it has to be given.
fn required<'a>(alloc: Global, name: &'a str, value: &'a str, help: &'a str) -> Arg<'a>
    ensures rule { rule_of result ≡ spec.required_rule name.now }
    ensures own { result.global ≡ false }
{
    Arg::new(alloc, name)
        .long(name)
        .value_name(value)
        .required(true)
        .action(ArgAction::Set)
        .help(help)
}

/// An option that is given or not.
fn flag<'a>(alloc: Global, name: &'a str, help: &'a str) -> Arg<'a>
    ensures rule { rule_of result ≡ spec.flag_rule name.now }
    ensures own { result.global ≡ false }
{
    Arg::new(alloc, name)
        .long(name)
        .action(ArgAction::SetTrue)
        .help(help)
}
