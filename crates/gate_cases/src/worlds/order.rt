//! What is judged of each order of a play beside its accounts: what was asked for it at most, how many replaces were
//! pending, and whether a fill or kill was filled in part.

use super::sums::{Sums, add};
use fix_fields::FieldsView;
use gate_audit::Played;
use gate_events::{Batch, ClientFrame, Event, LinkOut};
use market_law::BookRow;
use std::alloc::{AllocError, Global};
use wire_bytes::number_of;

/// An order, as its client's accepted messages and the reports have it.
#[derive(Drop)]
struct Order {
    client: u16,
    /// OrderID (37).
    order: Vec<u8>,
    /// ClOrdID (11) of the new order.
    id: Vec<u8>,
    /// OrderQty (38) of the new order, and the greatest of all that was accepted.
    total: u64,
    greatest: u64,
    is_fill_or_kill: bool,
    is_replaced: bool,
    /// ClOrdIDs of the replaces that are pending.
    pending: Vec<Vec<u8>>,
}

/// Judges the orders of a play.
pub fn judge_orders(
    alloc: Global,
    name: &[u8],
    played: &Played,
    sums: &mut Sums,
    shown: &mut Vec<u8>,
) -> Result<(), AllocError> {
    let events = played.history.events(alloc)?;
    let batches = played.history.batches(alloc)?;
    let orders = heard(alloc, events.as_slice(), batches.as_slice(), sums)?;
    judge_all(name, orders.as_slice(), played, sums, shown)
}

/// The orders that events with their batches tell of.
fn heard(
    alloc: Global,
    events: &[Event],
    batches: &[Batch],
    sums: &mut Sums,
) -> Result<Vec<Order>, AllocError> {
    let mut orders = Vec::new(alloc);
    for (event, batch) in events.iter().zip(batches) {
        hear(alloc, event, batch, &mut orders, sums)?;
    }
    Ok(orders)
}

/// Judges each of the orders that a play has a book of.
fn judge_all(
    name: &[u8],
    orders: &[Order],
    played: &Played,
    sums: &mut Sums,
    shown: &mut Vec<u8>,
) -> Result<(), AllocError> {
    for (pair, book) in played.pairs.iter().zip(played.books.as_slice()) {
        for order in orders {
            if order.client == pair.client && order.id.as_slice() == pair.id.as_slice() {
                judge_order(name, order, book, sums, shown)?;
            }
        }
    }
    Ok(())
}

/// Judges an order by its market's book.
fn judge_order(
    name: &[u8],
    order: &Order,
    book: &BookRow,
    sums: &mut Sums,
    shown: &mut Vec<u8>,
) -> Result<(), AllocError> {
    if book.executed.saturating_add(book.unfilled) > order.greatest {
        add(&mut sums.over, 1);
        tell(name, b": more than was asked\n", shown)?;
    }
    if !order.is_fill_or_kill || order.is_replaced {
        return Ok(());
    }
    add(&mut sums.killed, 1);
    if book.executed == order.total {
        add(&mut sums.filled, 1);
    } else if book.executed != 0 {
        add(&mut sums.partly, 1);
        tell(name, b": filled in part\n", shown)?;
    }
    Ok(())
}

/// A line of a play that isn't right.
fn tell(name: &[u8], what: &[u8], shown: &mut Vec<u8>) -> Result<(), AllocError> {
    shown.extend_from_slice(name)?;
    shown.extend_from_slice(what)
}

/// What an event with its batch tells.
fn hear(
    alloc: Global,
    event: &Event,
    batch: &Batch,
    orders: &mut Vec<Order>,
    sums: &mut Sums,
) -> Result<(), AllocError> {
    count_closed(event, batch, sums);
    let Some(client) = batch.client else {
        return Ok(());
    };
    for report in batch.reports.as_slice() {
        if let Some(fields) = FieldsView::of(report.text()) {
            hear_report(alloc, event, client.number(), &fields, orders, sums)?;
        }
    }
    Ok(())
}

/// A tick that closes a port's link.
fn count_closed(event: &Event, batch: &Batch, sums: &mut Sums) {
    let Event::PortTick { .. } = event else {
        return;
    };
    for out in batch.port_out.as_slice() {
        if let LinkOut::Close { .. } = out {
            add(&mut sums.closed, 1);
        }
    }
}

/// A report or reject to a client.
fn hear_report(
    alloc: Global,
    event: &Event,
    client: u16,
    fields: &FieldsView<'_>,
    orders: &mut Vec<Order>,
    sums: &mut Sums,
) -> Result<(), AllocError> {
    let (order, id) = (value(fields, 37), value(fields, 11));
    match value(fields, 150) {
        b"A" => orders.push(opened(alloc, event, client, order, id)?)?,
        b"E" => {
            let pending = replaced(alloc, event, client, order, id, orders)?;
            sums.pending = sums.pending.max(pending);
        }
        b"5" => {
            add(&mut sums.replaced, 1);
            answer(client, order, id, orders);
        }
        b"H" => add(&mut sums.broken, 1),
        _ => {
            if value(fields, 58) == b"earlier replace rejected".as_slice() {
                add(&mut sums.fell, 1);
            }
            if value(fields, 102) != b"6".as_slice() {
                answer(client, order, id, orders);
            }
        }
    }
    Ok(())
}

/// The value of a tag, or no bytes.
fn value<'a>(fields: &FieldsView<'a>, tag: u32) -> &'a [u8] {
    match fields.first(tag) {
        Some(value) => value,
        None => &[],
    }
}

/// An order that was accepted.
fn opened(
    alloc: Global,
    event: &Event,
    client: u16,
    order: &[u8],
    id: &[u8],
) -> Result<Order, AllocError> {
    let (total, life) = asked_in(event);
    Ok(Order {
        client,
        order: Vec::from_slice(alloc, order)?,
        id: Vec::from_slice(alloc, id)?,
        total,
        greatest: total,
        is_fill_or_kill: life == b'4',
        is_replaced: false,
        pending: Vec::new(alloc),
    })
}

/// A replace was accepted: how many of its order are pending.
fn replaced(
    alloc: Global,
    event: &Event,
    client: u16,
    order: &[u8],
    id: &[u8],
    orders: &mut Vec<Order>,
) -> Result<u64, AllocError> {
    let (total, _) = asked_in(event);
    let mut pending = 0u64;
    for one in orders.iter_mut() {
        if one.client == client && one.order.as_slice() == order {
            one.greatest = one.greatest.max(total);
            one.is_replaced = true;
            one.pending.push(Vec::from_slice(alloc, id)?)?;
            pending = one.pending.len() as u64;
        }
    }
    Ok(pending)
}

/// A request was answered.
fn answer(client: u16, order: &[u8], id: &[u8], orders: &mut Vec<Order>) {
    for one in orders.iter_mut() {
        if one.client == client && one.order.as_slice() == order {
            one.pending.retain(|pending| pending.as_slice() != id);
        }
    }
}

/// OrderQty (38) and TimeInForce (59) of a client's message.
fn asked_in(event: &Event) -> (u64, u8) {
    match event {
        Event::ClientMessage { frame, .. } => asked_of(frame),
        _ => (0, 0),
    }
}

fn asked_of(frame: &ClientFrame) -> (u64, u8) {
    let fields = frame.fields();
    let total = match fields.first(38) {
        Some(digits) => number_of(digits).unwrap_or(0),
        None => 0,
    };
    let life = match fields.first(59) {
        Some([byte]) => *byte,
        _ => 0,
    };
    (total, life)
}
