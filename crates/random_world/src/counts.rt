//! What came of a world, counted.

use fix_fields::FieldsView;
use gate_audit::{OrderPair, Played};
use gate_events::{Batch, Event};
use market_law::BookRow;
use std::alloc::{AllocError, Global};
use std::fmt;

/// What came of a world, counted.
#[derive(Clone, Copy, Debug, PartialEq, Eq)]
pub struct Counts {
    pub steps: u64,
    /// Of the core.
    pub events: u64,
    /// New orders that were accepted.
    pub orders: u64,
    /// Trades that clients were told.
    pub trades: u64,
    /// Connections that were lost.
    pub lost: u64,
    /// Batches with a fault.
    pub faults: u64,
    /// Orders whose two accounts agree, and are what the market's book has.
    pub agree: u64,
}

impl Counts {
    /// Whether no batch has a fault, and each order agrees.
    pub fn is_right(&self) -> bool {
        self.faults == 0 && self.agree == self.orders
    }
}

impl fmt::Display for Counts {
    fn fmt<W: fmt::Write>(&self, f: &mut fmt::Formatter<W>) -> fmt::Result {
        let Counts {
            steps,
            events,
            orders,
            trades,
            lost,
            faults,
            agree,
        } = self;
        write!(
            f,
            "steps {steps} events {events} orders {orders} trades {trades} "
        )?;
        write!(f, "lost {lost} faults {faults} agree {agree}")
    }
}

/// What came of a world of so many steps.
pub fn counts_of(alloc: Global, steps: u64, played: &Played) -> Result<Counts, AllocError> {
    let events = played.history.events(alloc)?;
    let batches = played.history.batches(alloc)?;
    Ok(Counts {
        steps,
        events: events.len() as u64,
        orders: played.pairs.len() as u64,
        trades: trades_in(batches.as_slice()),
        lost: losses_in(events.as_slice()),
        faults: faults_in(batches.as_slice()),
        agree: agreeing(played.pairs.as_slice(), played.books.as_slice()),
    })
}

/// How many links of ports are gone.
fn losses_in(events: &[Event]) -> u64 {
    let mut losses = 0u64;
    for event in events {
        if let Event::PortGone { .. } = event {
            losses = losses.saturating_add(1);
        }
    }
    losses
}

/// How many batches have a fault.
fn faults_in(batches: &[Batch]) -> u64 {
    let mut faults = 0u64;
    for batch in batches {
        if batch.fault.is_some() {
            faults = faults.saturating_add(1);
        }
    }
    faults
}

/// How many trades batches tell.
fn trades_in(batches: &[Batch]) -> u64 {
    let mut trades = 0u64;
    for batch in batches {
        trades = trades.saturating_add(trades_of(batch));
    }
    trades
}

/// How many trades a batch tells.
fn trades_of(batch: &Batch) -> u64 {
    let mut trades = 0u64;
    for report in batch.reports.as_slice() {
        if is_trade(report.text()) {
            trades = trades.saturating_add(1);
        }
    }
    trades
}

/// Whether a report's text tells a trade.
fn is_trade(report: &[u8]) -> bool {
    match FieldsView::of(report) {
        Some(fields) => fields.first(150) == Some(b"F".as_slice()),
        None => false,
    }
}

/// How many orders agree, and are what their market's book has.
fn agreeing(pairs: &[OrderPair], books: &[BookRow]) -> u64 {
    let mut agree = 0u64;
    for (pair, book) in pairs.iter().zip(books) {
        if pair.agree && is_as_booked(pair, book) {
            agree = agree.saturating_add(1);
        }
    }
    agree
}

/// Whether what a client read of an order is what the market's book has, in side where the book has one.
fn is_as_booked(pair: &OrderPair, book: &BookRow) -> bool {
    book.side.unwrap_or(pair.fix.side) == pair.fix.side
        && u128::from(book.executed) == pair.fix.executed
        && book.unfilled == u64::from(pair.fix.unfilled)
        && book.cancelled == pair.fix.cancelled
        && book.value == pair.fix.value
}
