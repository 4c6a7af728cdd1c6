//! The subcommands of `gateway` and their options: a row each, in the order in which help names them.

use crate::help::{AUDIT, DEMO, END, EXPORT, JOURNAL, RUN, SERVE, WORLD};

/// What an option is given with.
#[derive(Clone, Copy)]
pub(crate) enum Gives<'a> {
    /// A value, of which help says this word.
    Value(&'a str),
    /// A value that has to be given.
    Required(&'a str),
    /// Nothing: it is given, or not.
    Flag,
}

/// An option: `--NAME`.
#[derive(Clone, Copy)]
pub(crate) struct OptionRow<'a> {
    /// Its name, behind `--`.
    pub(crate) name: &'a str,
    /// What it is given with.
    pub(crate) gives: Gives<'a>,
    /// What help says of it.
    pub(crate) help: &'a str,
}

/// A subcommand.
#[derive(Clone, Copy)]
pub(crate) struct CommandRow<'a> {
    /// Its name.
    pub(crate) name: &'a str,
    /// What help says of it in one line.
    pub(crate) about: &'a str,
    /// What its help says behind its options.
    pub(crate) help: &'a str,
    /// Its options.
    pub(crate) options: &'a [OptionRow<'a>],
}

/// `run --settings FILE [--links N] [--journal FILE] [--sync WHEN]`.
#[rattlefmt::skip]
const RUN_OPTIONS: [OptionRow<'static>; 4] = [
    OptionRow { name: "settings", gives: Gives::Required("FILE"), help: "The settings, in TOML" },
    OptionRow { name: "links", gives: Gives::Value("N"),
        help: "How many links of each client are served, one after the other: 1 to 1000, or 1" },
    OptionRow { name: "journal", gives: Gives::Value("FILE"),
        help: "The file of the day's journal: a new one, or of a day that goes on" },
    OptionRow { name: "sync", gives: Gives::Value("WHEN"),
        help: "When the journal is synced: each, which is before anybody is told, or Nms, or never" },
];

/// `serve --settings FILE [--journal FILE] [--sync WHEN]`.
#[rattlefmt::skip]
const SERVE_OPTIONS: [OptionRow<'static>; 3] = [
    OptionRow { name: "settings", gives: Gives::Required("FILE"), help: "The settings, in TOML" },
    OptionRow { name: "journal", gives: Gives::Value("FILE"),
        help: "The file of the day's journal: a new one, or of a day that goes on" },
    OptionRow { name: "sync", gives: Gives::Value("WHEN"),
        help: "When the journal is synced: each, which is before anybody is told, or Nms, or never" },
];

/// `end --settings FILE [--now] [--journal FILE]`.
#[rattlefmt::skip]
const END_OPTIONS: [OptionRow<'static>; 3] = [
    OptionRow { name: "settings", gives: Gives::Required("FILE"), help: "The settings, in TOML" },
    OptionRow { name: "now", gives: Gives::Flag, help: "Doesn't await the market's answers for a while" },
    OptionRow { name: "journal", gives: Gives::Value("FILE"),
        help: "The journal of a gateway that was killed: its day is ended" },
];

/// `demo [--serve]`.
#[rattlefmt::skip]
const DEMO_OPTIONS: [OptionRow<'static>; 1] = [
    OptionRow { name: "serve", gives: Gives::Flag, help: "Goes on until it is told to end, with a page to look at" },
];

/// `audit --script FILE`, or `audit --journal FILE --settings FILE [--so-far]`.
#[rattlefmt::skip]
const AUDIT_OPTIONS: [OptionRow<'static>; 4] = [
    OptionRow { name: "script", gives: Gives::Value("FILE"), help: "The script" },
    OptionRow { name: "journal", gives: Gives::Value("FILE"), help: "The journal of a day" },
    OptionRow { name: "settings", gives: Gives::Value("FILE"), help: "The settings of that day, in TOML" },
    OptionRow { name: "so-far", gives: Gives::Flag,
        help: "Audits a day that goes on, too, of which the gateway runs or was killed" },
];

/// `export --journal FILE [--format NAME]`.
#[rattlefmt::skip]
const EXPORT_OPTIONS: [OptionRow<'static>; 2] = [
    OptionRow { name: "journal", gives: Gives::Required("FILE"), help: "The journal of the day" },
    OptionRow { name: "format", gives: Gives::Value("NAME"), help: "csv, json or messages; csv where nothing is said" },
];

/// `journal --script FILE`.
#[rattlefmt::skip]
const JOURNAL_OPTIONS: [OptionRow<'static>; 1] = [
    OptionRow { name: "script", gives: Gives::Required("FILE"), help: "The script" },
];

/// `world --seed N --steps K [--clients C] [--ports P]`.
#[rattlefmt::skip]
const WORLD_OPTIONS: [OptionRow<'static>; 4] = [
    OptionRow { name: "seed", gives: Gives::Required("N"), help: "The seed" },
    OptionRow { name: "steps", gives: Gives::Required("K"), help: "How many steps are drawn: 1 to 10000" },
    OptionRow { name: "clients", gives: Gives::Value("C"), help: "How many clients there are: 1 to 64, or 4" },
    OptionRow { name: "ports", gives: Gives::Value("P"), help: "How many ports there are: 1 to 16, or 2" },
];

/// The subcommands.
#[rattlefmt::skip]
pub(crate) const COMMANDS: [CommandRow<'static>; 8] = [
    CommandRow { name: "run", options: &RUN_OPTIONS, help: RUN,
        about: "Serves the clients and connects the ports that its settings name" },
    CommandRow { name: "serve", options: &SERVE_OPTIONS, help: SERVE,
        about: "Serves the clients and connects the ports that its settings name, until it is told to end" },
    CommandRow { name: "end", options: &END_OPTIONS, help: END,
        about:
        "Tells the gateway that is served by these settings to end, and waits until it has; or ends a stopped day" },
    CommandRow { name: "demo", options: &DEMO_OPTIONS, help: DEMO,
        about: "Shows a gateway between two clients and a simulated market, on loopback" },
    CommandRow { name: "audit", options: &AUDIT_OPTIONS, help: AUDIT,
        about: "Prints each accepted order of a script or of a day by both of its accounts" },
    CommandRow { name: "export", options: &EXPORT_OPTIONS, help: EXPORT,
        about: "Prints the messages of a day's orders, without users and passwords" },
    CommandRow { name: "journal", options: &JOURNAL_OPTIONS, help: JOURNAL,
        about: "Runs a script without its outputs, and writes the journal of its day to standard output" },
    CommandRow { name: "world", options: &WORLD_OPTIONS, help: WORLD,
        about: "Plays a closed world of clients, gateway and markets by a seed, and judges what came of it" },
];
