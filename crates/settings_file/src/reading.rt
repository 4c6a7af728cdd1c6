//! The whole file.

ghost use Rattle.std.specs.Prelude.{◌≡◌, ◌≤◌, [], map, length, codes, string_bytes};
ghost use Rattle.std.specs.Prelude.{true, is_some, option_map, None, Some, IfOk};
ghost use Rattle.std.specs.List.{list_all};
ghost use Rattle.std.specs.Str.{IsUtf8};
ghost use Rattle.gate_law.specs.Limits.{is_served};
ghost use Rattle.toml.specs.Data.{Members, as_table, table};
ghost use Rattle.toml.specs.Parse.{parse_document};
ghost use Rattle.toml.specs.View.{array_view, view};
ghost use Rattle.settings_file.specs.File.{WhatIsNotRefusedIsServed, client_at, file_settings, login_at, text_at};
ghost use Rattle.settings_file.specs.Judged.{IsNoToml, Judges};
ghost use Rattle.settings_file.specs.Rules as rules;
ghost use Rattle.settings_file.specs.Rules.{refused};

use crate::client::{ClientEntry, read_client};
use crate::fault::{SettingsFault, SettingsTable, refusal_of};
use crate::keys::first_other;
use crate::port::{PortEntry, read_port};
use crate::texts::{is_between, own_name};
use fix_fields::Text;
use gate_settings::{ClientSettings, PortSettings, Settings};
use std::alloc::Global;
use std::marker::Model;
use toml::Value;

/// What a settings file says: the settings of the core, and where its ports and clients are met.
#[derive(Drop)]
pub struct SettingsFile {
    /// What the core is made of.
    pub settings: Settings,
    /// The address of each port, a host and a TCP port, in the order of the ports.
    pub addresses: Vec<String>,
    /// Where each client is listened for, in the order of the clients. No two are the same.
    pub listens: Vec<String>,
}

impl Model for SettingsFile {
    ghost use Rattle.std.specs.Prelude.{map, string_bytes};
    ghost use Rattle.settings_file.specs.File.{FileSettings};

    ghost Value = { FileSettings };

    ghost view = { λ f. record {
      settings = f.settings;
      addresses = map string_bytes f.addresses.items;
      listens = map string_bytes f.listens.items;
    } };
}

/// Reads a settings file: a text in TOML.
///
/// Refused by the first key that is missing or wrong, with its table, in this order: `comp`; `port`, where there aren't
/// 1 to 16 tables of ports; of each port `name`, `address`, `user`, `password` and then any other key; `client`, where
/// there aren't 1 to 64 tables of clients; of each client `comp`, `listen`, `port`, `firm`, `capacity`, `customer` and
/// then any other key; any other key of the whole. Other keys come in byte order; `day`, `control` and a client's
/// `from` are the operator's (`operator_settings`), whatever they say. A text that isn't TOML is refused by the line on
/// which that shows.
///
/// Source: TOML 1.1; the keys are this gateway's own.
pub fn read(alloc: Global, text: &[u8]) -> Result<SettingsFile, SettingsFault>
    ensures judged { (ms : Members) → IsUtf8 text.now → parse_document text.now ≡ Some ms
        → Judges (refused (table ms)) result }
    ensures settings { (ms : Members) → IsUtf8 text.now → parse_document text.now ≡ Some ms
        → IfOk result (λ file. file ≡ file_settings (table ms)) }
    ensures toml { (IsUtf8 text.now → parse_document text.now ≡ None) → IsNoToml text.now result }
    ensures served { IfOk result (λ file. is_served file.settings ≡ true) }
    ensures law { WhatIsNotRefusedIsServed }
{
    match toml::table_from_slice(alloc, text) {
        Ok(members) => read_file(alloc, &Value::Table(members)),
        Err(error) => {
            match error.span() {
                None => Err(SettingsFault::NoMemory),
                Some(span) => Err(SettingsFault::NotToml(line_at(text, span.start))),
            }
        }
    }
}

/// The line, from 1, on which this place of a text is.
fn line_at(text: &[u8], place: usize) -> usize
    requires within { place ≤ length text.now }
    ensures { result ≡ rules.line_at place text.now }
{
    let ended = text[..place].iter().filter(|byte| **byte == b'\n').count();
    ended + 1
}

/// Reads what a text in TOML says.
fn read_file(alloc: Global, file: &Value) -> Result<SettingsFile, SettingsFault>
    ensures judged { Judges (refused (view file.now)) result }
    ensures settings { IfOk result (λ read. read ≡ file_settings (view file.now)) }
{
    let Some(comp) = own_name(&[], file, "comp") else {
        return Err(refusal_of(alloc, SettingsTable::Top, "comp"));
    };
    let port_tables = tables_at(file, "port");
    if !are_tables(16, port_tables) {
        return Err(refusal_of(alloc, SettingsTable::Top, "port"));
    }
    let ports = read_ports(alloc, port_tables)?;
    let client_tables = tables_at(file, "client");
    if !are_tables(64, client_tables) {
        return Err(refusal_of(alloc, SettingsTable::Top, "client"));
    }
    let clients = read_clients(alloc, port_tables, client_tables)?;
    if let Some(key) = first_other(file, &["comp", "port", "client", "day", "control"]) {
        return Err(refusal_of(alloc, SettingsTable::Top, key));
    }
    let comp = Text::copied(alloc, comp.as_bytes())?;
    Ok(SettingsFile {
        settings: Settings::new(comp, ports.settings, clients.settings),
        addresses: ports.addresses,
        listens: clients.listens,
    })
}

/// What stands in the array of a key, nothing where there is none.
fn tables_at<'a>(file: &'a Value, key: &str) -> &'a [Value]
    ensures { map view result.now ≡ rules.tables_at key.now (view file.now) }
{
    match array_in(file, key) {
        Some(tables) => tables.as_slice(),
        None => &[],
    }
}

/// The array of a key, where it has one.
fn array_in<'a>(file: &'a Value, key: &str) -> Option<&'a Vec<Value>>
    ensures { option_map (λ v. array_view v.now) result ≡ rules.array_in key.now (view file.now) }
{
    match file.get(key) {
        Some(value) => value.as_array(),
        None => None,
    }
}

/// Whether there are from 1 to so many, and each is a table.
fn are_tables(most: usize, tables: &[Value]) -> bool
    ensures { result ≡ rules.are_tables most (map view tables.now) }
{
    is_between(1, most, tables.len()) && is_each_a_table(tables)
}

/// Whether each of these is a table.
fn is_each_a_table(tables: &[Value]) -> bool
    ensures { result ≡ list_all (λ t. is_some (as_table (view t))) tables.now }
{
    tables.iter().all(|table| table.is_table())
}

/// What the tables of ports say.
#[derive(Drop)]
struct Ports {
    settings: Vec<PortSettings>,
    addresses: Vec<String>,
}

/// Reads the tables of ports, one after another.
fn read_ports(alloc: Global, tables: &[Value]) -> Result<Ports, SettingsFault>
    ensures judged { Judges (rules.first_refused rules.refused_port [] (map view tables.now)) result }
    ensures settings { IfOk result (λ ports. ports.settings.items ≡ map login_at (map view tables.now)) }
    ensures addresses { IfOk result (λ ports.
        map string_bytes ports.addresses.items ≡ map (text_at (codes "address")) (map view tables.now)) }
{
    let mut settings = Vec::with_capacity(alloc, tables.len())?;
    let mut addresses = Vec::with_capacity(alloc, tables.len())?;
    for (i, table) in tables.iter().enumerate() {
        let port = read_port(alloc, &tables[..i], table)?;
        settings.push(port.settings)?;
        addresses.push(port.address)?;
    }
    Ok(Ports {
        settings,
        addresses,
    })
}

/// What the tables of clients say.
#[derive(Drop)]
struct Clients {
    settings: Vec<ClientSettings>,
    listens: Vec<String>,
}

/// Reads the tables of clients, one after another, beside these ports, of which there are 16 at most.
fn read_clients(alloc: Global, ports: &[Value], tables: &[Value]) -> Result<Clients, SettingsFault>
    requires few { length ports.now ≤ 16 }
    ensures judged { Judges (rules.first_refused (rules.refused_client (map view ports.now)) []
        (map view tables.now)) result }
    ensures settings { IfOk result (λ clients.
        clients.settings.items ≡ map (client_at (map view ports.now)) (map view tables.now)) }
    ensures listens { IfOk result (λ clients.
        map string_bytes clients.listens.items ≡ map (text_at (codes "listen")) (map view tables.now)) }
{
    let mut settings = Vec::with_capacity(alloc, tables.len())?;
    let mut listens = Vec::with_capacity(alloc, tables.len())?;
    for (i, table) in tables.iter().enumerate() {
        let client = read_client(alloc, ports, &tables[..i], table)?;
        settings.push(client.settings)?;
        listens.push(client.listen)?;
    }
    Ok(Clients { settings, listens })
}
