//! Clients and ports as JSON.

ghost use Rattle.std.specs.Prelude.{◌≡◌, ◌++◌, IfOk, OnOk, codes, decimal, map, string_bytes};
ghost use Rattle.serde_json.specs.Data.{array};
ghost use Rattle.serde_json.specs.View.{items_of, view};
ghost use Rattle.status_page.specs.Json as spec;

use crate::day::{first_name, other_names};
use crate::json_values::{digits, link_value, printable, text_value};
use crate::port_words::{reason_of, state_name};
use gate_core::{ClientRow, PortRow};
use serde_json::{Value, json};
use std::alloc::{AllocError, Global};

/// The clients, in the order of the settings.
pub(crate) fn client_values(
    alloc: Global,
    names: &[Vec<u8>],
    rows: &[ClientRow],
) -> Result<Value, AllocError>
    ensures { IfOk result (λ v. view v
        ≡ array (items_of (spec.client_items 1 (map (λ n. n.items) names.now) rows.now))) }
{
    let mut values = Vec::new(alloc);
    push_clients(&mut values, alloc, 1, names, rows)?;
    Ok(Value::Array(values))
}

/// Adds clients, of which the first has this number.
fn push_clients(
    values: &mut Vec<Value>,
    alloc: Global,
    number: u64,
    names: &[Vec<u8>],
    rows: &[ClientRow],
) -> Result<(), AllocError>
    ensures { OnOk result (map view values.new.items ≡ map view values.old.items
        ++ spec.client_items number (map (λ n. n.items) names.now) rows.now) }
{
    match rows {
        [row, rows @ ..] => {
            values.push(client_value(alloc, number, first_name(names), row)?)?;
            push_clients(
                values,
                alloc,
                number.saturating_add(1),
                other_names(names),
                rows,
            )
        }
        [] => Ok(()),
    }
}

/// Texts of a client.
#[derive(Drop)]
struct ClientTexts {
    /// `C1`.
    client: String,
    name: String,
    /// The shares that were executed, and what they were traded for.
    shares: String,
    value: String,
}

/// A client.
fn client_value(
    alloc: Global,
    number: u64,
    name: &[u8],
    row: &ClientRow,
) -> Result<Value, AllocError>
    ensures { IfOk result (λ v. view v ≡ spec.client_data number name.now row.now) }
{
    let texts = client_texts(alloc, number, name, row)?;
    client_object(alloc, &texts, row)
}

/// The texts of a client.
fn client_texts(
    alloc: Global,
    number: u64,
    name: &[u8],
    row: &ClientRow,
) -> Result<ClientTexts, AllocError>
    ensures client { IfOk result (λ t. string_bytes t.client ≡ spec.numbered (codes "C") number) }
    ensures name { IfOk result (λ t. string_bytes t.name ≡ spec.printable name.now) }
    ensures shares { IfOk result (λ t. string_bytes t.shares ≡ decimal row.now.executed_shares) }
    ensures value { IfOk result (λ t. string_bytes t.value ≡ decimal row.now.value) }
{
    let client = format!(in alloc; "C{number}")?;
    let name = printable(alloc, name)?;
    let shares = digits(alloc, row.executed_shares)?;
    let value = digits(alloc, row.value)?;
    Ok(ClientTexts {
        client,
        name,
        shares,
        value,
    })
}

/// A client with these texts. It owns nothing but what it makes: each way out drops that alone.
#[tactic(auto, unfolding(crate::specs::Json::client_members))]
fn client_object(alloc: Global, texts: &ClientTexts, row: &ClientRow) -> Result<Value, AllocError>
    ensures { IfOk result (λ v. view v ≡ spec.client_members (string_bytes texts.now.client)
        (string_bytes texts.now.name) (string_bytes texts.now.shares) (string_bytes texts.now.value) row.now) }
{
    json!(in alloc; {
        "client": &texts.client, "name": &texts.name, "link": link_value(row.link), "logged_on": row.is_logged_on,
        "open_orders": row.open_orders, "executed_shares": &texts.shares, "value": &texts.value,
        "next_in": row.next_in, "next_out": row.next_out
    })
}

/// The ports, in the order of the settings.
pub(crate) fn port_values(
    alloc: Global,
    addresses: &[Vec<u8>],
    rows: &[PortRow],
) -> Result<Value, AllocError>
    ensures { IfOk result (λ v. view v
        ≡ array (items_of (spec.port_items 1 (map (λ n. n.items) addresses.now) rows.now))) }
{
    let mut values = Vec::new(alloc);
    push_ports(&mut values, alloc, 1, addresses, rows)?;
    Ok(Value::Array(values))
}

/// Adds ports, of which the first has this number.
fn push_ports(
    values: &mut Vec<Value>,
    alloc: Global,
    number: u64,
    addresses: &[Vec<u8>],
    rows: &[PortRow],
) -> Result<(), AllocError>
    ensures { OnOk result (map view values.new.items ≡ map view values.old.items
        ++ spec.port_items number (map (λ n. n.items) addresses.now) rows.now) }
{
    match rows {
        [row, rows @ ..] => {
            values.push(port_value(alloc, number, first_name(addresses), row)?)?;
            push_ports(
                values,
                alloc,
                number.saturating_add(1),
                other_names(addresses),
                rows,
            )
        }
        [] => Ok(()),
    }
}

/// A port.
#[tactic(auto, unfolding(crate::specs::Json::port_data))]
fn port_value(
    alloc: Global,
    number: u64,
    address: &[u8],
    row: &PortRow,
) -> Result<Value, AllocError>
    ensures { IfOk result (λ v. view v ≡ spec.port_data number address.now row.now) }
{
    let port = format!(in alloc; "P{number}")?;
    let address = text_value(alloc, address)?;
    let link = link_value(row.link);
    json!(in alloc; {
        "port": &port, "address": address, "link": link, "state": state_name(row.state),
        "reason": reason_of(row.state), "next": row.next
    })
}
