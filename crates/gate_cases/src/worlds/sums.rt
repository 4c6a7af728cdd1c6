//! Sums over plays.

use random_world::Counts;
use std::fmt;

/// What came of some plays, together.
#[derive(Clone, Copy)]
pub struct Sums {
    plays: u64,
    steps: u64,
    events: u64,
    orders: u64,
    trades: u64,
    lost: u64,
    faults: u64,
    agree: u64,
    /// Links that the core closed since nothing was heard on them.
    pub closed: u64,
    pub replaced: u64,
    /// Replaces that fell with an earlier one.
    pub fell: u64,
    pub broken: u64,
    /// The most replaces of one order that were pending at once.
    pub pending: u64,
    /// Fill or kill orders of which no replace was accepted, and those of them that were filled.
    pub killed: u64,
    pub filled: u64,
    /// Orders whose executed and open shares pass what was asked for them; fill or kill orders that were filled in
    /// part.
    pub over: u64,
    pub partly: u64,
}

impl Sums {
    /// Of no play.
    pub fn none() -> Sums {
        Sums {
            plays: 0,
            steps: 0,
            events: 0,
            orders: 0,
            trades: 0,
            lost: 0,
            faults: 0,
            agree: 0,
            closed: 0,
            replaced: 0,
            fell: 0,
            broken: 0,
            pending: 0,
            killed: 0,
            filled: 0,
            over: 0,
            partly: 0,
        }
    }

    /// One play more.
    pub fn add(&mut self, counts: &Counts) {
        add(&mut self.plays, 1);
        add(&mut self.steps, counts.steps);
        add(&mut self.events, counts.events);
        add(&mut self.orders, counts.orders);
        add(&mut self.trades, counts.trades);
        add(&mut self.lost, counts.lost);
        add(&mut self.faults, counts.faults);
        add(&mut self.agree, counts.agree);
    }
}

/// So many more.
pub fn add(sum: &mut u64, more: u64) {
    *sum = sum.saturating_add(more);
}

impl fmt::Display for Sums {
    fn fmt<W: fmt::Write>(&self, f: &mut fmt::Formatter<W>) -> fmt::Result {
        let (plays, steps, events) = (self.plays, self.steps, self.events);
        let (orders, trades, lost, closed) = (self.orders, self.trades, self.lost, self.closed);
        let (replaced, fell, broken, pending) = (
            self.replaced,
            self.fell,
            self.broken,
            self.pending,
        );
        let (killed, filled, over, partly) = (self.killed, self.filled, self.over, self.partly);
        let (faults, agree) = (self.faults, self.agree);
        write!(f, "plays {plays} steps {steps} events {events} ")?;
        write!(
            f,
            "orders {orders} trades {trades} lost {lost} closed {closed} "
        )?;
        write!(
            f,
            "replaced {replaced} fell {fell} broken {broken} pending {pending} "
        )?;
        write!(
            f,
            "fill-or-kill {killed} filled {filled} over {over} partly {partly} "
        )?;
        write!(f, "faults {faults} agree {agree}")
    }
}
