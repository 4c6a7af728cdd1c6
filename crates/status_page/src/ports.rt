//! Ports: those that somebody has to look at, and the table of all.

ghost use Rattle.std.specs.Prelude.{◌≡◌, ◌++◌, OnOk, map, string_bytes};
ghost use Rattle.status_page.specs.Page as spec;

use crate::day::{first_name, other_names};
use crate::pieces::{push_link, push_number, push_numbered, push_reason};
use crate::port_words::state_name;
use gate_core::PortRow;
use soup_session::PortState;
use std::alloc::AllocError;

/// Adds the ports that somebody has to look at: each that isn't up. The first row has this number.
pub(crate) fn push_alarms(
    page: &mut String,
    number: u64,
    addresses: &[Vec<u8>],
    rows: &[PortRow],
) -> Result<(), AllocError>
    ensures { OnOk result (string_bytes page.new ≡ string_bytes page.old
        ++ spec.alarms number (map (λ v. v.items) addresses.now) rows.now) }
{
    match rows {
        [row, rows @ ..] => {
            push_alarm_of(page, number, first_name(addresses), row.state)?;
            push_alarms(page, number.saturating_add(1), other_names(addresses), rows)
        }
        [] => Ok(()),
    }
}

/// Adds a port that somebody has to look at, where it isn't up.
fn push_alarm_of(
    page: &mut String,
    number: u64,
    address: &[u8],
    state: PortState,
) -> Result<(), AllocError>
    ensures { OnOk result (string_bytes page.new ≡ string_bytes page.old
        ++ spec.alarm_of number address.now state) }
{
    if state.is_up() {
        Ok(())
    } else {
        push_alarm(page, number, address, state)
    }
}

/// Adds a port that somebody has to look at.
#[tactic(auto, unfolding(crate::specs::Page::alarm))]
fn push_alarm(
    page: &mut String,
    number: u64,
    address: &[u8],
    state: PortState,
) -> Result<(), AllocError>
    ensures { OnOk result (string_bytes page.new ≡ string_bytes page.old ++ spec.alarm number address.now state) }
{
    push_numbered(
        page,
        "<div class=\"alarm\"><b>P",
        number,
        "</b> at ",
        address,
    )?;
    push_standing(page, state)?;
    page.push_str("</div>\n")?;
    Ok(())
}

/// Adds how a port stands.
#[tactic(auto, unfolding(crate::specs::Page::standing))]
fn push_standing(page: &mut String, state: PortState) -> Result<(), AllocError>
    ensures { OnOk result (string_bytes page.new ≡ string_bytes page.old ++ spec.standing state) }
{
    page.push_str(" is <b>")?;
    page.push_str(state_name(state))?;
    page.push_str("</b>")?;
    push_reason(page, ": ", state)?;
    Ok(())
}

/// Adds the table of ports.
#[tactic(auto, unfolding(crate::specs::Page::ports))]
pub(crate) fn push_ports(
    page: &mut String,
    addresses: &[Vec<u8>],
    rows: &[PortRow],
) -> Result<(), AllocError>
    ensures { OnOk result (string_bytes page.new ≡ string_bytes page.old
        ++ spec.ports (map (λ v. v.items) addresses.now) rows.now) }
{
    push_head(page)?;
    push_rows(page, 1, addresses, rows)?;
    page.push_str("</table></div>\n")?;
    Ok(())
}

/// Adds what stands before the rows.
#[tactic(auto, unfolding(crate::specs::Page::port_head))]
fn push_head(page: &mut String) -> Result<(), AllocError>
    ensures { OnOk result (string_bytes page.new ≡ string_bytes page.old ++ spec.port_head) }
{
    page.push_str(
        "<h2>Ports</h2><div class=\"t\"><table><tr><th>port<th>address<th>session<th>reason<th class=\"n\">link\
<th class=\"n\">next</tr>\n",
    )?;
    Ok(())
}

/// Adds the rows of ports, of which the first has this number.
fn push_rows(
    page: &mut String,
    number: u64,
    addresses: &[Vec<u8>],
    rows: &[PortRow],
) -> Result<(), AllocError>
    ensures { OnOk result (string_bytes page.new ≡ string_bytes page.old
        ++ spec.port_rows number (map (λ v. v.items) addresses.now) rows.now) }
{
    match rows {
        [row, rows @ ..] => {
            push_row(page, number, first_name(addresses), row)?;
            push_rows(page, number.saturating_add(1), other_names(addresses), rows)
        }
        [] => Ok(()),
    }
}

/// Adds a port's row.
#[tactic(auto, unfolding(crate::specs::Page::port_row))]
fn push_row(page: &mut String, number: u64, address: &[u8], row: &PortRow) -> Result<(), AllocError>
    ensures { OnOk result (string_bytes page.new ≡ string_bytes page.old
        ++ spec.port_row number address.now row.now) }
{
    push_numbered(page, "<tr><td><b>P", number, "</b><td>", address)?;
    push_state(page, row.state)?;
    push_link(page, row.link)?;
    push_number(page, row.next)?;
    page.push_str("</tr>\n")?;
    Ok(())
}

/// Adds a port's state with its reason.
#[tactic(auto, unfolding(crate::specs::Page::port_state))]
fn push_state(page: &mut String, state: PortState) -> Result<(), AllocError>
    ensures { OnOk result (string_bytes page.new ≡ string_bytes page.old ++ spec.port_state state) }
{
    page.push_str(state_cell(state))?;
    page.push_str(state_name(state))?;
    page.push_str("<td>")?;
    push_reason(page, "", state)?;
    Ok(())
}

/// The cell of a port's state, by how much it matters.
fn state_cell(state: PortState) -> &'static str
    ensures { result.now ≡ spec.state_cell state }
{
    match state {
        PortState::Up => "<td class=\"g\">",
        PortState::Down | PortState::LoggingIn => "<td class=\"w\">",
        PortState::Ended | PortState::Faulted(_) => "<td class=\"b\">",
    }
}
