//! A client's table.

ghost use Rattle.std.specs.Prelude.{◌≡◌, ◌≤◌, ◌+◌, true, IfOk, length, map, codes, string_bytes};
ghost use Rattle.gate_law.specs.fix_fields.Field.{IsValue};
ghost use Rattle.gate_settings.specs.to_market.TermsSeen.{terms_seen};
ghost use Rattle.toml.specs.View.{view};
ghost use Rattle.settings_file.specs.File.{client_at, client_of, first_byte, number_of_name, terms_at, text_at};
ghost use Rattle.settings_file.specs.Judged.{Judges};
ghost use Rattle.settings_file.specs.Rules as rules;
ghost use Rattle.settings_file.specs.Rules.{is_letter_of, refused_client};

use crate::fault::{SettingsFault, SettingsTable, refusal_of};
use crate::keys::{first_other, number_behind};
use crate::texts::{firm, is_this, letter, own_address, own_name, port_name};
use fix_fields::Text;
use gate_settings::ClientSettings;
use std::alloc::{AllocError, Global};
use to_market::ClientTerms;
use toml::Value;
use wire_law::padded;

/// What a client's table says.
#[derive(Drop)]
pub struct ClientEntry {
    pub settings: ClientSettings,
    pub listen: String,
}

/// Reads a client's table, behind these, beside these ports, of which there are 16 at most. What `from` says is its
/// operator's (`operator_settings`).
pub fn read_client(
    alloc: Global,
    ports: &[Value],
    earlier: &[Value],
    table: &Value,
) -> Result<ClientEntry, SettingsFault>
    requires few { length ports.now ≤ 16 }
    ensures judged { Judges (refused_client (map view ports.now) (map view earlier.now) (view table.now)) result }
    ensures settings { IfOk result (λ client. client.settings ≡ client_at (map view ports.now) (view table.now)) }
    ensures listen { IfOk result (λ client.
        string_bytes client.listen ≡ text_at (codes "listen") (view table.now)) }
{
    let place = SettingsTable::Client(number_behind(earlier));
    let Some(comp) = own_name(earlier, table, "comp") else {
        return Err(refusal_of(alloc, place, "comp"));
    };
    let Some(listen) = own_address(earlier, table, "listen") else {
        return Err(refusal_of(alloc, place, "listen"));
    };
    let Some(port) = port_name(ports, table) else {
        return Err(refusal_of(alloc, place, "port"));
    };
    let Some(firm) = firm(table) else {
        return Err(refusal_of(alloc, place, "firm"));
    };
    let Some(capacity) = letter(table, "capacity", b"APR") else {
        return Err(refusal_of(alloc, place, "capacity"));
    };
    let Some(customer) = letter(table, "customer", b"RN ") else {
        return Err(refusal_of(alloc, place, "customer"));
    };
    let keys = [
        "comp", "listen", "port", "firm", "capacity", "customer", "from",
    ];
    if let Some(key) = first_other(table, &keys) {
        return Err(refusal_of(alloc, place, key));
    }
    let terms = terms_of(number_of(ports, port), firm, capacity, customer);
    Ok(entry(alloc, comp, listen, terms)?)
}

/// The terms of a client with these texts, each of which its rule lets pass.
fn terms_of(port: u16, firm: &str, capacity: &str, customer: &str) -> ClientTerms
    requires firm { rules.firm.holds firm.now ≡ true }
    requires capacity { is_letter_of (codes "APR") capacity.now ≡ true }
    requires customer { is_letter_of (codes "RN ") customer.now ≡ true }
    ensures { terms_seen result ≡ terms_at port firm.now capacity.now customer.now }
{
    ClientTerms {
        port,
        firm: padded(firm.as_bytes()),
        capacity: first_of(capacity),
        customer: first_of(customer),
    }
}

/// A copy of the texts of a client, beside its terms.
fn entry(
    alloc: Global,
    comp: &str,
    listen: &str,
    terms: ClientTerms,
) -> Result<ClientEntry, AllocError>
    requires name { IsValue comp.now }
    ensures settings { IfOk result (λ client. client.settings ≡ client_of comp.now (terms_seen terms)) }
    ensures listen { IfOk result (λ client. string_bytes client.listen ≡ listen.now) }
{
    Ok(ClientEntry {
        settings: ClientSettings {
            comp: Text::copied(alloc, comp.as_bytes())?,
            terms,
        },
        listen: String::from_str(alloc, listen)?,
    })
}

/// The number, from 1, of the first of these ports that has a name; one more than there are where none has.
fn number_of(ports: &[Value], name: &str) -> u16
    requires few { length ports.now ≤ 16 }
    ensures number { result ≡ number_of_name (map view ports.now) name.now }
    ensures most { result ≤ length ports.now + 1 }
{
    let [port, rest @ ..] = ports else {
        return 1;
    };
    if is_this(port, "name", name) {
        return 1;
    }
    number_of(rest, name) + 1
}

/// The first byte of a text.
fn first_of(text: &str) -> u8
    ensures { result ≡ first_byte text.now }
{
    match text.as_bytes() {
        [first, ..] => *first,
        [] => 0,
    }
}
