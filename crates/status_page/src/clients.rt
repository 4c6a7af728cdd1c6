//! The table of clients.

ghost use Rattle.std.specs.Prelude.{◌≡◌, ◌++◌, OnOk, map, string_bytes};
ghost use Rattle.status_page.specs.Page as spec;

use crate::day::{first_name, other_names};
use crate::pieces::{push_link, push_money, push_number, push_numbered, push_shares};
use gate_core::ClientRow;
use std::alloc::AllocError;

/// Adds the table of clients.
#[tactic(auto, unfolding(crate::specs::Page::clients))]
pub(crate) fn push_clients(
    page: &mut String,
    names: &[Vec<u8>],
    rows: &[ClientRow],
) -> Result<(), AllocError>
    ensures { OnOk result (string_bytes page.new ≡ string_bytes page.old
        ++ spec.clients (map (λ v. v.items) names.now) rows.now) }
{
    push_head(page)?;
    push_rows(page, 1, names, rows)?;
    page.push_str("</table></div>\n")?;
    Ok(())
}

/// Adds what stands before the rows.
#[tactic(auto, unfolding(crate::specs::Page::client_head))]
fn push_head(page: &mut String) -> Result<(), AllocError>
    ensures { OnOk result (string_bytes page.new ≡ string_bytes page.old ++ spec.client_head) }
{
    page.push_str(
        "<h2>Clients</h2><div class=\"t\"><table><tr><th>client<th>name<th>session<th class=\"n\">link\
<th class=\"n\">open orders<th class=\"n\">executed<th class=\"n\">value<th class=\"n\">next in\
<th class=\"n\">next out</tr>\n",
    )?;
    Ok(())
}

/// Adds the rows of clients, of which the first has this number.
fn push_rows(
    page: &mut String,
    number: u64,
    names: &[Vec<u8>],
    rows: &[ClientRow],
) -> Result<(), AllocError>
    ensures { OnOk result (string_bytes page.new ≡ string_bytes page.old
        ++ spec.client_rows number (map (λ v. v.items) names.now) rows.now) }
{
    match rows {
        [row, rows @ ..] => {
            push_row(page, number, first_name(names), row)?;
            push_rows(page, number.saturating_add(1), other_names(names), rows)
        }
        [] => Ok(()),
    }
}

/// Adds a client's row.
#[tactic(auto, unfolding(crate::specs::Page::client_row))]
fn push_row(page: &mut String, number: u64, name: &[u8], row: &ClientRow) -> Result<(), AllocError>
    ensures { OnOk result (string_bytes page.new ≡ string_bytes page.old
        ++ spec.client_row number name.now row.now) }
{
    push_numbered(page, "<tr><td><b>C", number, "</b><td>", name)?;
    page.push_str(session_cell(row))?;
    push_link(page, row.link)?;
    push_numbers(page, row)?;
    Ok(())
}

/// How a client's session stands.
fn session_cell(row: &ClientRow) -> &'static str
    ensures { result.now ≡ spec.session row.now }
{
    if row.is_logged_on {
        "<td class=\"g\">logged on"
    } else if row.link.is_some() {
        "<td class=\"w\">connected"
    } else {
        "<td class=\"d\">&ndash;"
    }
}

/// Adds a client's numbers.
#[tactic(auto, unfolding(crate::specs::Page::client_numbers))]
fn push_numbers(page: &mut String, row: &ClientRow) -> Result<(), AllocError>
    ensures { OnOk result (string_bytes page.new ≡ string_bytes page.old ++ spec.client_numbers row.now) }
{
    push_number(page, row.open_orders as u64)?;
    push_executed(page, row)?;
    push_number(page, row.next_in)?;
    push_number(page, row.next_out)?;
    page.push_str("</tr>\n")?;
    Ok(())
}

/// Adds the shares that a client executed and their value.
fn push_executed(page: &mut String, row: &ClientRow) -> Result<(), AllocError>
    ensures { OnOk result (string_bytes page.new ≡ string_bytes page.old ++ spec.executed row.now) }
{
    push_shares(page, row.executed_shares)?;
    push_money(page, row.value)
}
