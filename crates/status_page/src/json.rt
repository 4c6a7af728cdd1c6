//! The status as JSON.

ghost use Rattle.std.specs.Prelude.{◌≡◌, Some, IfOk, string_bytes};
ghost use Rattle.serde_json.specs.Read.{read};
ghost use Rattle.serde_json.specs.View.{view};
ghost use Rattle.status_page.specs.Json as spec;

use crate::day::{DayNames, age_of};
use crate::json_rows::{client_values, port_values};
use crate::json_values::{end_value, moment_value, text_value};
use gateway_watch::Shown;
use serde_json::{Value, json};
use std::alloc::{AllocError, Global};

/// A day's status as a text of JSON: `gateway`, `begun`, `ends`, and, once there is one, `at`, `age_ms`, `events`,
/// `clients` and `ports`. Moments are UTCTimestamps; what there isn't is `null`. A client's `executed_shares` and its
/// `value` in 1/10,000 may have more than 64 bits, so they are strings of digits: what reads a number of JSON as a
/// float would round them.
///
/// Source: RFC 8259.
pub fn json_of(
    alloc: Global,
    names: &DayNames,
    shown: &Option<Shown>,
    now: u64,
) -> Result<String, AllocError>
    ensures { IfOk result (λ text. read (string_bytes text) ≡ Some (spec.status names.now shown.now now)) }
{
    let value = status_value(alloc, names, shown, now)?;
    value.to_string(alloc)
}

/// The same as a value.
fn status_value(
    alloc: Global,
    names: &DayNames,
    shown: &Option<Shown>,
    now: u64,
) -> Result<Value, AllocError>
    ensures { IfOk result (λ v. view v ≡ spec.status names.now shown.now now) }
{
    match shown {
        Some(shown) => shown_value(alloc, names, shown, now),
        None => bare_value(alloc, names),
    }
}

/// Of a day of which nothing is shown yet.
#[tactic(auto, unfolding(crate::specs::Json::bare_data))]
fn bare_value(alloc: Global, names: &DayNames) -> Result<Value, AllocError>
    ensures { IfOk result (λ v. view v ≡ spec.bare_data names.now) }
{
    let begun = moment_value(alloc, names.begun)?;
    let ends = end_value(alloc, names.ends)?;
    let gateway = text_value(alloc, names.gateway.as_slice())?;
    json!(in alloc; {"gateway": gateway, "begun": begun, "ends": ends})
}

/// Of a day and how all stood.
#[tactic(auto, unfolding(crate::specs::Json::shown_data))]
fn shown_value(
    alloc: Global,
    names: &DayNames,
    shown: &Shown,
    now: u64,
) -> Result<Value, AllocError>
    ensures { IfOk result (λ v. view v ≡ spec.shown_data names.now shown.now now) }
{
    let clients = client_values(alloc, names.clients.as_slice(), shown.status.clients())?;
    let ports = port_values(alloc, names.ports.as_slice(), shown.status.ports())?;
    let begun = moment_value(alloc, names.begun)?;
    let at = moment_value(alloc, shown.at)?;
    let ends = end_value(alloc, names.ends)?;
    let gateway = text_value(alloc, names.gateway.as_slice())?;
    let age = age_of(shown, now);
    let events = shown.status.events();
    json!(in alloc; {
        "gateway": gateway, "begun": begun, "ends": ends, "at": at, "age_ms": age, "events": events,
        "clients": clients, "ports": ports
    })
}
