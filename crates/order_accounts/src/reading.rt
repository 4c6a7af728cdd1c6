//! What a client reads in the reports of one order: a plain fold, for tests and for audits.
//!
//! It keeps all that the reports said, knows no other order, and looks nothing up: the definition, run.

ghost use Rattle.std.specs.Prelude.{◌≡◌, ◌<◌, ◌+◌, ◌-◌, ◌*◌, ◌^◌, ◌==◌, ◌||◌, ◌∷◌, [], true, false, if◌then◌else◌};
ghost use Rattle.std.specs.Prelude.{IfOk, OnOk, IsErrOf, reverse, codes, bytes_eq, Some, None};
ghost use Rattle.std.specs.List.{find};
ghost use Rattle.std.specs.Option.{option_copied};
ghost use Rattle.order_accounts.specs.Held.{IsHeld, StaysHeld, heard_on};
ghost use Rattle.order_law.specs.fix_fields.Field as tags;
ghost use Rattle.order_law.specs.Messages as messages;
ghost use Rattle.order_law.specs.Reading as spec;

use crate::message::{character, is, is_report_on, number, number32, price, product, sum, text};
use crate::reading_fault::ReadingFault;
use fix_fields::Fields;
use order_law::Account;
use std::alloc::Global;
use std::marker::Model;

/// A fill that the reports told of.
#[derive(Drop)]
struct Fill {
    /// ExecID (17).
    exec_id: Vec<u8>,
    shares: u128,
    /// In 1/10,000.
    price: u128,
}

impl Model for Fill {
    ghost use Rattle.order_law.specs.Reading as spec;

    ghost Value = { spec.Fill };

    ghost view = { λ f. record { exec_id = f.exec_id.items; shares = f.shares; price = f.price } };
}

/// What the reports of an order say to who reads nothing else.
#[derive(Drop)]
pub struct Reading {
    /// Side (54).
    side: u8,
    /// OrderQty (38) of the last report before it closed.
    total: u128,
    unfilled: u32,
    executed: u128,
    cancelled: u128,
    value: u128,
    /// The newest first.
    fills: Vec<Fill>,
    is_accepted: bool,
    is_closed: bool,
}

impl Model for Reading {
    ghost use Rattle.order_accounts.specs.Held.{IsHeld};
    ghost use Rattle.order_law.specs.Reading as spec;

    ghost Value = { spec.Reading };

    ghost view = { λ x. record {
      side = x.side;
      total = x.total;
      unfilled = x.unfilled;
      executed = x.executed;
      cancelled = x.cancelled;
      value = x.value;
      fills = x.fills.items;
      is_accepted = x.is_accepted;
      is_closed = x.is_closed;
    } };

    ghost invariant = { λ x. IsHeld (record {
      side = x.side;
      total = x.total;
      unfilled = x.unfilled;
      executed = x.executed;
      cancelled = x.cancelled;
      value = x.value;
      fills = x.fills.items;
      is_accepted = x.is_accepted;
      is_closed = x.is_closed;
    }) };
}

impl Reading {
    /// Its side and its quantities.
    pub fn account(&self) -> Account
        ensures { result ≡ spec.account_read self.now }
    {
        Account {
            side: self.side,
            unfilled: self.unfilled,
            executed: self.executed,
            cancelled: self.cancelled,
            value: self.value,
            is_closed: self.is_closed,
        }
    }

    /// What is read before any report. Takes no memory.
    pub fn unread(alloc: Global) -> Reading
        ensures nothing { result ≡ spec.unread }
        ensures held { IsHeld result }
    {
        Reading {
            side: 0,
            total: 0,
            unfilled: 0,
            executed: 0,
            cancelled: 0,
            value: 0,
            fills: Vec::new(alloc),
            is_accepted: false,
            is_closed: false,
        }
    }

    /// New and Replaced: what is open is LeavesQty (151).
    fn open(&mut self, report: &Fields) -> Result<(), ReadingFault>
        ensures told { OnOk result (self.new ≡ record self.old {
          unfilled = messages.number 151 report.now;
          is_accepted = true;
        }) }
        ensures large { IsErrOf result ReadingFault.TooLarge → messages.number 151 report.now < 2 ^ 32 → ⊥ }
    {
        self.unfilled = number32(report, 151)?;
        self.is_accepted = true;
        Ok(())
    }

    /// Restated and Canceled: what is open falls to LeavesQty (151), the rest is cancelled.
    fn cancel_to(&mut self, report: &Fields) -> Result<(), ReadingFault>
        ensures told { OnOk result (self.new ≡ record self.old {
          cancelled = self.old.cancelled + (self.old.unfilled - messages.number 151 report.now);
          unfilled = messages.number 151 report.now;
        }) }
        ensures large { IsErrOf result ReadingFault.TooLarge → messages.number 151 report.now < 2 ^ 32
            → self.old.cancelled + (self.old.unfilled - messages.number 151 report.now) < 2 ^ 128 → ⊥ }
    {
        let open = number32(report, 151)?;
        let gone = self.unfilled.saturating_sub(open);
        self.cancelled = sum(self.cancelled, u128::from(gone))?;
        self.unfilled = open;
        Ok(())
    }

    /// Trade: LastQty (32) shares at LastPx (31) are executed.
    fn fill(&mut self, alloc: Global, report: &Fields) -> Result<(), ReadingFault>
        ensures told { OnOk result (self.new ≡ record self.old {
          executed = self.old.executed + messages.number 32 report.now;
          value = self.old.value + messages.number 32 report.now * spec.price_in 31 report.now;
          unfilled = self.old.unfilled - messages.number 32 report.now;
          fills = record {
            exec_id = tags.text 17 report.now;
            shares = messages.number 32 report.now;
            price = spec.price_in 31 report.now;
          } ∷ self.old.fills;
          is_closed = self.old.is_closed || messages.number 151 report.now == 0;
        }) }
        ensures large { IsErrOf result ReadingFault.TooLarge
            → self.old.executed + messages.number 32 report.now < 2 ^ 128
            → self.old.value + messages.number 32 report.now * spec.price_in 31 report.now < 2 ^ 128
            → spec.price_in 31 report.now < 2 ^ 128 → ⊥ }
    {
        let shares = number(report, 32)?;
        let price = price(report, 31)?;
        let executed = sum(self.executed, shares)?;
        let value = sum(self.value, product(shares, price)?)?;
        let exec_id = Vec::from_slice(alloc, text(report, 17))?;
        self.fills.insert(
            0,
            Fill {
                exec_id,
                shares,
                price,
            },
        )?;
        self.executed = executed;
        self.value = value;
        self.unfilled = u128::from(self.unfilled).saturating_sub(shares) as u32;
        self.is_closed = self.is_closed || number(report, 151) == Ok(0);
        Ok(())
    }

    /// Trade Cancel: the fill whose ExecID is ExecRefID (19) is taken back.
    fn take_back(&mut self, report: &Fields)
        ensures known { (f : spec.Fill) → find (λ f. bytes_eq f.exec_id (tags.text 19 report.now)) self.old.fills
            ≡ Some f
            → self.new ≡ record self.old {
              executed = self.old.executed - f.shares;
              value = self.old.value - f.shares * f.price;
            } }
        ensures unknown { find (λ f. bytes_eq f.exec_id (tags.text 19 report.now)) self.old.fills ≡ None
            → self.new ≡ self.old }
    {
        let Some(fill) = fill_of(self.fills.as_slice(), text(report, 19)) else {
            return;
        };
        let value = fill.shares.saturating_mul(fill.price);
        self.executed = self.executed.saturating_sub(fill.shares);
        self.value = self.value.saturating_sub(value);
    }

    /// Side and total as the report has them; the total stays once the order is closed.
    fn restate(&mut self, report: &Fields) -> Result<(), ReadingFault>
        ensures told { OnOk result (self.new ≡ record self.old {
          side = tags.character 54 report.now;
          total = if self.old.is_closed then self.old.total else messages.number 38 report.now;
        }) }
        ensures large { IsErrOf result ReadingFault.TooLarge
            → (if self.old.is_closed then self.old.total else messages.number 38 report.now) < 2 ^ 128 → ⊥ }
        ensures held { OnOk result (IsHeld self.new) }
    {
        if !self.is_closed {
            self.total = number(report, 38)?;
        }
        self.side = character(report, 54);
        Ok(())
    }

    /// What a report makes of what was read before.
    fn hear(&mut self, alloc: Global, report: &Fields) -> Result<(), ReadingFault>
        ensures told { OnOk result (self.new ≡ spec.with_report self.old report.now) }
        ensures large { IsErrOf result ReadingFault.TooLarge → IsHeld (spec.with_report self.old report.now) → ⊥ }
        ensures held { OnOk result (IsHeld self.new) }
    {
        if is(report, 150, b"0") || is(report, 150, b"5") {
            self.open(report)?;
        } else if is(report, 150, b"F") {
            self.fill(alloc, report)?;
        } else if is(report, 150, b"D") {
            self.cancel_to(report)?;
        } else if is(report, 150, b"4") {
            self.cancel_to(report)?;
            self.is_closed = true;
        } else if is(report, 150, b"H") {
            self.take_back(report);
        } else if is(report, 150, b"8") {
            self.is_closed = true;
        }
        self.restate(report)
    }

    /// What one report more makes of what was read of the order with this OrderID: a message that isn't a report on
    /// the order changes nothing. `TooLarge` just where what is read has a number that is larger than its integer
    /// holds; or else `NoMemory`. After an error nothing is said of what was read.
    ///
    /// Source: FIX 4.4 Volume 4, "Execution Report".
    pub fn hear_on(
        &mut self,
        alloc: Global,
        order: &[u8],
        report: &Fields,
    ) -> Result<(), ReadingFault>
        ensures told { OnOk result (self.new ≡ heard_on order.now self.old report.now) }
        ensures held { OnOk result (IsHeld self.new) }
        ensures large { IsErrOf result ReadingFault.TooLarge → IsHeld (heard_on order.now self.old report.now) → ⊥ }
    {
        // known of it: integers hold what was read
        let _ = &self.side;
        if is_report_on(report, order) {
            self.hear(alloc, report)?;
        }
        Ok(())
    }
}

/// What a client has read of the order with this OrderID after these reports, the oldest first. A message that isn't
/// a report on the order changes nothing, and no report is judged: what doesn't read well is taken as it is.
///
/// Quantities are in shares, prices in 1/10,000. `TooLarge` just where, after one of the reports, what was read has a
/// number that is larger than its integer holds, 32 bits for what is open and 128 bits for every other; or else
/// `NoMemory`.
///
/// Source: FIX 4.4 Volume 4, "Execution Report".
pub fn reading_of(alloc: Global, order: &[u8], reports: &[Fields]) -> Result<Reading, ReadingFault>
    ensures reading { IfOk result (λ reading. reading ≡ spec.reading order.now (reverse reports.now)) }
    ensures held { OnOk result (StaysHeld order.now (reverse reports.now)) }
    ensures large { IsErrOf result ReadingFault.TooLarge → StaysHeld order.now (reverse reports.now) → ⊥ }
{
    let mut reading = Reading::unread(alloc);
    for report in reports {
        if is_report_on(report, order) {
            reading.hear(alloc, report)?;
        }
    }
    Ok(reading)
}

/// The fill with this ExecID.
fn fill_of<'a>(fills: &'a [Fill], exec_id: &[u8]) -> Option<&'a Fill>
    ensures { option_copied result ≡ find (λ f. bytes_eq f.exec_id exec_id.now) fills.now }
{
    for fill in fills {
        if fill.exec_id.as_slice() == exec_id {
            return Some(fill);
        }
    }
    None
}
