//! The whole of an operator's settings.

ghost use Rattle.std.specs.Prelude.{◌≡◌, None, Some, IfOk, IfErr, codes};
ghost use Rattle.std.specs.Prelude.{take, option_and_then, option_map, string_bytes};
ghost use Rattle.std.specs.Str.{IsUtf8};
ghost use Rattle.toml.specs.Data.{Members, get, table};
ghost use Rattle.toml.specs.Parse.{parse_document};
ghost use Rattle.toml.specs.View.{view};
ghost use Rattle.operator_settings.specs.Judged.{IsRefusalOf, Judges};
ghost use Rattle.operator_settings.specs.Rules.{ends_in, linger_in, refused_control, refused_day, refused_table};
ghost use Rattle.operator_settings.specs.Rules.{refused_tables};
ghost use Rattle.operator_settings.specs.Said.{IsControl, IsDay, JudgesTables, OnlyFrom};

use crate::control::read_control;
use crate::day::read_day;
use crate::fault::OperatorFault;
use crate::ranges::AddressRange;
use crate::settings::{ControlSettings, DaySettings};
use itoa::Buffer;
use std::alloc::{AllocError, Global};
use toml::Value;

/// What an operator sets.
#[derive(Drop)]
pub struct OperatorSettings {
    /// When a day ends.
    pub day: DaySettings,
    /// The control endpoint, where there is to be one.
    pub control: Option<ControlSettings>,
    /// From where each client may connect, in the clients' order; from anywhere where a list is empty.
    pub from: Vec<Vec<AddressRange>>,
}

/// Reads what an operator sets in a settings file, whose other keys were judged already.
///
/// Refused by the first key that is wrong, of `day`, of `control`, and then of `from` of each client.
///
/// Source: TOML 1.1; the keys are this gateway's own.
pub fn read_operator(alloc: Global, text: &[u8]) -> Result<OperatorSettings, OperatorFault>
    ensures judged { (ms : Members) → IsUtf8 text.now → parse_document text.now ≡ Some ms
        → JudgesTables (refused_tables (table ms)) result }
    ensures day { (ms : Members) → IsUtf8 text.now → parse_document text.now ≡ Some ms
        → IfOk result (λ o. IsDay (table ms) o.day) }
    ensures control { (ms : Members) → IsUtf8 text.now → parse_document text.now ≡ Some ms
        → IfOk result (λ o. IsControl (get (codes "control") (table ms)) o.control) }
    ensures toml { (IsUtf8 text.now → parse_document text.now ≡ None) → Judges (Some (codes "toml")) result }
{
    match toml::table_from_slice(alloc, text) {
        Ok(members) => read_file(alloc, &Value::Table(members)),
        Err(error) => {
            if error.is_memory() {
                Err(OperatorFault::NoMemory)
            } else {
                Err(named(alloc, "toml"))
            }
        }
    }
}

/// Reads what a text in TOML says.
fn read_file(alloc: Global, file: &Value) -> Result<OperatorSettings, OperatorFault>
    ensures judged { JudgesTables (refused_tables (view file.now)) result }
    ensures day { IfOk result (λ o. IsDay (view file.now) o.day) }
    ensures control { IfOk result (λ o. IsControl (get (codes "control") (view file.now)) o.control) }
{
    let day = day_in(alloc, file.get("day"))?;
    let control = control_in(alloc, file.get("control"))?;
    let from = match file.get("client") {
        Some(clients) => read_clients(alloc, clients)?,
        None => Vec::new(alloc),
    };
    Ok(OperatorSettings { day, control, from })
}

/// What `day` says, where it is there.
fn day_in(alloc: Global, said: Option<&Value>) -> Result<DaySettings, OperatorFault>
    ensures judged { Judges (refused_table (codes "day") refused_day (option_map (λ v. view v.now) said.entry)) result }
    ensures ends { IfOk result (λ day. Some day.ends
        ≡ ends_in (option_and_then (get (codes "ends")) (option_map (λ v. view v.now) said.entry))) }
    ensures linger { IfOk result (λ day. Some day.linger
        ≡ linger_in (option_and_then (get (codes "linger")) (option_map (λ v. view v.now) said.entry))) }
{
    match said {
        None => Ok(DaySettings::usual()),
        Some(table) => {
            if table.is_table() {
                read_day(alloc, table)
            } else {
                Err(named(alloc, "day"))
            }
        }
    }
}

/// What `control` says, where it is there.
fn control_in(alloc: Global, said: Option<&Value>) -> Result<Option<ControlSettings>, OperatorFault>
    ensures judged { Judges (refused_table (codes "control") refused_control (option_map (λ v. view v.now) said.entry))
        result }
    ensures said { IfOk result (λ control. IsControl (option_map (λ v. view v.now) said.entry) control) }
{
    match said {
        None => Ok(None),
        Some(table) => {
            if table.is_table() {
                Ok(Some(read_control(alloc, table)?))
            } else {
                Err(named(alloc, "control"))
            }
        }
    }
}

/// The ranges of each client.
fn read_clients(alloc: Global, clients: &Value) -> Result<Vec<Vec<AddressRange>>, OperatorFault>
    ensures { IfErr result OnlyFrom }
{
    let mut from = Vec::new(alloc);
    if let Some(tables) = clients.as_array() {
        for (at, table) in tables.iter().enumerate() {
            match ranges_of(alloc, table)? {
                Some(ranges) => from.push(ranges)?,
                None => return Err(of_client(alloc, at)),
            }
        }
    }
    Ok(from)
}

/// The ranges of a client, none where none are named; `None` where one can't be read.
fn ranges_of(alloc: Global, table: &Value) -> Result<Option<Vec<AddressRange>>, AllocError> {
    let mut ranges = Vec::new(alloc);
    let Some(value) = table.get("from") else {
        return Ok(Some(ranges));
    };
    let Some(texts) = value.as_array() else {
        return Ok(None);
    };
    for text in texts {
        match range_of(text) {
            Some(range) => ranges.push(range)?,
            None => return Ok(None),
        }
    }
    Ok(Some(ranges))
}

/// The range of a text.
fn range_of(value: &Value) -> Option<AddressRange> {
    AddressRange::read(value.as_str()?)
}

/// The refusal of a key that stands in no table.
fn named(alloc: Global, key: &str) -> OperatorFault
    ensures { IsRefusalOf key.now result }
{
    match String::from_str(alloc, key) {
        Ok(key) => OperatorFault::Refused(key),
        Err(_) => OperatorFault::NoMemory,
    }
}

/// The refusal of `from` of the client at this place, counted from 1 in words.
fn of_client(alloc: Global, at: usize) -> OperatorFault
    ensures { OnlyFrom result }
{
    match from_name(alloc, at.saturating_add(1)) {
        Ok(key) => OperatorFault::Refused(key),
        Err(_) => OperatorFault::NoMemory,
    }
}

/// `client[2].from`, of this number.
fn from_name(alloc: Global, number: usize) -> Result<String, AllocError>
    ensures { IfOk result (λ name. take 7 (string_bytes name) ≡ codes "client[") }
{
    let mut buffer = Buffer::new();
    let mut name = String::from_str(alloc, "client[")?;
    name.push_str(buffer.format(number))?;
    name.push_str("].from")?;
    Ok(name)
}
