//! `[control]`.

ghost use Rattle.std.specs.Prelude.{◌≡◌, IfOk, option_map, string_bytes};
ghost use Rattle.toml.specs.View.{view};
ghost use Rattle.operator_settings.specs.Judged.{Judges};
ghost use Rattle.operator_settings.specs.Rules as rules;
ghost use Rattle.operator_settings.specs.Said.{IsControlOf};

use crate::fault::{OperatorFault, refused};
use crate::keys::first_other;
use crate::settings::ControlSettings;
use crate::texts::{address_of, is_of_this_machine, token_of};
use std::alloc::{AllocError, Global};
use toml::Value;

/// Reads `[control]`: `listen`, `token`, `host`. Refused by the first of its keys, in this order, that is missing or
/// wrong, and then by any other key. Without a token only an address of this machine itself may be listened at: then
/// `token` is missing.
pub(crate) fn read_control(alloc: Global, table: &Value) -> Result<ControlSettings, OperatorFault>
    ensures judged { Judges (rules.refused_control (view table.now)) result }
    ensures said { IfOk result (λ c. IsControlOf (view table.now) c) }
{
    let Some(listen) = address_in(table.get("listen")) else {
        return Err(refused(alloc, "control", "listen"));
    };
    let Some(token) = token_for(listen, table.get("token")) else {
        return Err(refused(alloc, "control", "token"));
    };
    let Some(host) = host_in(table.get("host")) else {
        return Err(refused(alloc, "control", "host"));
    };
    if let Some(key) = first_other(table, &["listen", "token", "host"]) {
        return Err(refused(alloc, "control", key));
    }
    Ok(settings_of(alloc, listen, token, host)?)
}

/// An address that has to be there; `None` where it isn't.
fn address_in<'a>(said: Option<&'a Value>) -> Option<&'a str>
    ensures { option_map (λ s. s.now) result ≡ rules.text_in rules.is_address (option_map (λ v. view v.now) said.entry) }
{
    match said {
        Some(value) => address_of(value),
        None => None,
    }
}

/// A token that has to be there unless this address is of this machine; `None` where it isn't, or isn't read.
fn token_for<'a>(listen: &str, said: Option<&'a Value>) -> Option<Option<&'a str>>
    ensures { option_map (option_map (λ s. s.now)) result
        ≡ rules.token_for listen.now (option_map (λ v. view v.now) said.entry) }
{
    match said {
        None if is_of_this_machine(listen) => Some(None),
        None => None,
        Some(value) => match token_of(value) {
            Some(token) => Some(Some(token)),
            None => None,
        },
    }
}

/// An address that needn't be there; `None` where it isn't read.
fn host_in<'a>(said: Option<&'a Value>) -> Option<Option<&'a str>>
    ensures { option_map (option_map (λ s. s.now)) result
        ≡ rules.any_text_in rules.is_address (option_map (λ v. view v.now) said.entry) }
{
    match said {
        None => Some(None),
        Some(value) => match address_of(value) {
            Some(host) => Some(Some(host)),
            None => None,
        },
    }
}

/// Copies of these texts.
fn settings_of(
    alloc: Global,
    listen: &str,
    token: Option<&str>,
    host: Option<&str>,
) -> Result<ControlSettings, AllocError>
    ensures listen { IfOk result (λ c. string_bytes c.listen ≡ listen.now) }
    ensures token { IfOk result (λ c. option_map string_bytes c.token ≡ option_map (λ s. s.now) token.entry) }
    ensures host { IfOk result (λ c. option_map string_bytes c.host ≡ option_map (λ s. s.now) host.entry) }
{
    Ok(ControlSettings {
        listen: String::from_str(alloc, listen)?,
        token: copied(alloc, token)?,
        host: copied(alloc, host)?,
    })
}

/// A copy of a text, where there is one.
fn copied(alloc: Global, text: Option<&str>) -> Result<Option<String>, AllocError>
    ensures { IfOk result (λ copy. option_map string_bytes copy ≡ option_map (λ s. s.now) text.entry) }
{
    match text {
        Some(text) => Ok(Some(String::from_str(alloc, text)?)),
        None => Ok(None),
    }
}
