//! `[day]`.

ghost use Rattle.std.specs.Option.{ForSome};
ghost use Rattle.std.specs.Prelude.{◌≡◌, ◌<◌, ◌≤◌, Some, IfOk, IfSome, codes, option_map};
ghost use Rattle.toml.specs.Data.{get};
ghost use Rattle.toml.specs.View.{view};
ghost use Rattle.operator_settings.specs.Judged.{Judges};
ghost use Rattle.operator_settings.specs.Rules as rules;

use crate::fault::{OperatorFault, refused};
use crate::keys::first_other;
use crate::settings::DaySettings;
use crate::time_of_day::A_DAY;
use std::alloc::Global;
use toml::Value;
use toml_datetime::{Datetime, Time};

/// Reads `[day]`: `ends`, a time of day, and `linger`, seconds. Refused by the first of its keys, in this order, that
/// is wrong, and then by any other key.
pub(crate) fn read_day(alloc: Global, table: &Value) -> Result<DaySettings, OperatorFault>
    ensures judged { Judges (rules.refused_day (view table.now)) result }
    ensures ends { IfOk result (λ day. Some day.ends ≡ rules.ends_in (get (codes "ends") (view table.now))) }
    ensures linger { IfOk result (λ day. Some day.linger ≡ rules.linger_in (get (codes "linger") (view table.now))) }
{
    let Some(ends) = ends_in(table.get("ends")) else {
        return Err(refused(alloc, "day", "ends"));
    };
    let Some(linger) = linger_in(table.get("linger")) else {
        return Err(refused(alloc, "day", "linger"));
    };
    if let Some(key) = first_other(table, &["ends", "linger"]) {
        return Err(refused(alloc, "day", key));
    }
    Ok(DaySettings { ends, linger })
}

/// When a day ends; `None` where what is said isn't read.
fn ends_in(said: Option<&Value>) -> Option<Option<u64>>
    ensures read { result ≡ rules.ends_in (option_map (λ v. view v.now) said.entry) }
    ensures of_day { IfSome result (λ ends. ForSome ends (λ time. time < 86400000)) }
{
    match said {
        None => Some(None),
        Some(value) => match time_of(value) {
            Some(time) => Some(Some(time)),
            None => None,
        },
    }
}

/// For how long answers are awaited; `None` where what is said isn't read.
fn linger_in(said: Option<&Value>) -> Option<u64>
    ensures read { result ≡ rules.linger_in (option_map (λ v. view v.now) said.entry) }
    ensures bounded { IfSome result (λ seconds. seconds ≤ 3600) }
{
    match said {
        None => Some(10),
        Some(value) => seconds_of(value),
    }
}

/// A time of day in milliseconds since midnight; `None` of anything else.
fn time_of(value: &Value) -> Option<u64>
    ensures read { result ≡ rules.time_of (view value.now) }
    ensures of_day { IfSome result (λ time. time < 86400000) }
{
    match value.as_datetime() {
        Some(found) => time_in(*found),
        None => None,
    }
}

/// The same of a date and time: a time alone.
fn time_in(found: Datetime) -> Option<u64>
    ensures read { result ≡ rules.time_in found }
    ensures of_day { IfSome result (λ time. time < 86400000) }
{
    if found.date.is_some() || found.offset.is_some() {
        return None;
    }
    match found.time {
        Some(time) => within_a_day(time),
        None => None,
    }
}

/// The same of a time: no leap second at the end of a day.
fn within_a_day(time: Time) -> Option<u64>
    ensures read { result ≡ rules.within_a_day (rules.milliseconds time) }
    ensures of_day { IfSome result (λ time. time < 86400000) }
{
    let minutes = u64::from(time.hour) * 60 + u64::from(time.minute);
    let second = u64::from(time.second.unwrap_or(0));
    let milliseconds = (minutes * 60 + second) * 1_000;
    if milliseconds < A_DAY {
        Some(milliseconds)
    } else {
        None
    }
}

/// A number of seconds from 0 to 3,600.
fn seconds_of(value: &Value) -> Option<u64>
    ensures read { result ≡ rules.seconds_of (view value.now) }
    ensures bounded { IfSome result (λ seconds. seconds ≤ 3600) }
{
    match value.as_integer() {
        Some(number) => seconds_in(number),
        None => None,
    }
}

/// The same of a number.
fn seconds_in(number: i64) -> Option<u64>
    ensures read { result ≡ rules.seconds_in number }
    ensures bounded { IfSome result (λ seconds. seconds ≤ 3600) }
{
    match u64::try_from(number) {
        Ok(seconds) if seconds <= 3_600 => Some(seconds),
        _ => None,
    }
}
