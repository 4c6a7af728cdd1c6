//! A port's table.

ghost use Rattle.std.specs.Prelude.{◌≡◌, IfOk, map, codes, string_bytes};
ghost use Rattle.toml.specs.View.{view};
ghost use Rattle.settings_file.specs.File.{login_at, login_of, text_at};
ghost use Rattle.settings_file.specs.Judged.{Judges};
ghost use Rattle.settings_file.specs.Rules.{refused_port};

use crate::fault::{SettingsFault, SettingsTable, refusal_of};
use crate::keys::{first_other, number_behind};
use crate::texts::{address, own_name, password, user};
use gate_settings::PortSettings;
use std::alloc::{AllocError, Global};
use toml::Value;

/// What a port's table says.
#[derive(Drop)]
pub struct PortEntry {
    pub settings: PortSettings,
    pub address: String,
}

/// Reads a port's table, behind these.
pub fn read_port(
    alloc: Global,
    earlier: &[Value],
    table: &Value,
) -> Result<PortEntry, SettingsFault>
    ensures judged { Judges (refused_port (map view earlier.now) (view table.now)) result }
    ensures settings { IfOk result (λ port. port.settings ≡ login_at (view table.now)) }
    ensures address { IfOk result (λ port. string_bytes port.address ≡ text_at (codes "address") (view table.now)) }
{
    let place = SettingsTable::Port(number_behind(earlier));
    let Some(_name) = own_name(earlier, table, "name") else {
        return Err(refusal_of(alloc, place, "name"));
    };
    let Some(address) = address(table, "address") else {
        return Err(refusal_of(alloc, place, "address"));
    };
    let Some(user) = user(table) else {
        return Err(refusal_of(alloc, place, "user"));
    };
    let Some(password) = password(table) else {
        return Err(refusal_of(alloc, place, "password"));
    };
    if let Some(key) = first_other(table, &["name", "address", "user", "password"]) {
        return Err(refusal_of(alloc, place, key));
    }
    Ok(entry(alloc, user, password, address)?)
}

/// A copy of the texts of a port.
fn entry(alloc: Global, user: &str, password: &str, address: &str) -> Result<PortEntry, AllocError>
    ensures settings { IfOk result (λ port. port.settings ≡ login_of user.now password.now) }
    ensures address { IfOk result (λ port. string_bytes port.address ≡ address.now) }
{
    Ok(PortEntry {
        settings: PortSettings {
            user: Vec::from_slice(alloc, user.as_bytes())?,
            password: Vec::from_slice(alloc, password.as_bytes())?,
        },
        address: String::from_str(alloc, address)?,
    })
}
