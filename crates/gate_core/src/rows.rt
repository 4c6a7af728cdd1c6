//! The rows of a board.

ghost use Rattle.std.specs.Prelude.{◌≡◌, ◌≤◌, List, length, map, IfOk};
ghost use Rattle.order_core.specs.History.{OrderHistory, Terms, issued};
ghost use Rattle.order_core.specs.State.{IsAfterTurns};
ghost use Rattle.order_core.specs.order_machine.Runs.{NumbersLeft};
ghost use Rattle.gate_core.specs.Board.{AreRowsOf, client_row_of, port_row_of};

use crate::board::{ClientRow, PortRow};
use gate_sessions::{ClientLine, PortLine};
use order_core::OrderCore;
use std::alloc::{AllocError, Global};
use std::hash::BuildHasher;

/// The rows of these clients, in their order.
pub(crate) fn client_rows<S: BuildHasher + Drop>(
    alloc: Global,
    lines: &[ClientLine],
    orders: &OrderCore<S>,
) -> Result<Vec<ClientRow>, AllocError>
    requires few { length lines.now ≤ 64 }
    ensures count { IfOk result (λ rows. length rows.items ≡ length lines.now) }
    ensures rows { IfOk result (λ rows. (terms : List Terms) (before : OrderHistory) → NumbersLeft before
        → IsAfterTurns terms before orders.now → AreRowsOf before lines.now rows.items) }
{
    let mut rows = Vec::with_capacity(alloc, lines.len())?;
    for line in lines {
        let client = (rows.len() + 1) as u16;
        rows.push(client_row(line, orders, client))?;
    }
    Ok(rows)
}

/// The rows of these ports, in their order.
pub(crate) fn port_rows(alloc: Global, lines: &[PortLine]) -> Result<Vec<PortRow>, AllocError>
    ensures { IfOk result (λ rows. rows.items ≡ map port_row_of lines.now) }
{
    let mut rows = Vec::with_capacity(alloc, lines.len())?;
    for line in lines {
        rows.push(port_row(line))?;
    }
    Ok(rows)
}

/// The row of a client of this number.
fn client_row<S: BuildHasher + Drop>(
    line: &ClientLine,
    orders: &OrderCore<S>,
    client: u16,
) -> ClientRow
    ensures { (terms : List Terms) (before : OrderHistory) → NumbersLeft before
        → IsAfterTurns terms before orders.now → result ≡ client_row_of (issued client before) line.now }
{
    ClientRow {
        link: line.link,
        is_logged_on: line.session.is_logged_on(),
        next_in: line.session.next_in(),
        next_out: line.session.next_out(),
        open_orders: orders.open_count(client),
        executed_shares: orders.executed_shares(client),
        value: orders.executed_value(client),
    }
}

/// The row of a port.
fn port_row(line: &PortLine) -> PortRow
    ensures { result ≡ port_row_of line.now }
{
    PortRow {
        link: line.link,
        state: line.session.state(),
        next: line.session.next(),
    }
}
