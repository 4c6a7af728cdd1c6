//! Histories that are typed in, event by event, and what is written of pairs.

use crate::calls::add_end;
use crate::events::{Here, event_of, small_number};
use crate::streams::{Failing, size_of};
use case_lines::{bytes_of, first_word, shown as typed};
use fix_fields::split;
use fix_printing::{PrintedFields, printed_fields};
use gate_audit::{OrderPair, audit};
use gate_core::{Batch, ClientNumber, IssuedReport, LinkOut, PortNumber, ShortList, run_all};
use gate_journal::History;
use gate_lines::{audit_text, write_audit};
use order_law::Account;
use script_steps::fixed_settings;
use std::alloc::{AllocError, Global};
use std::mem;

/// On which link each event comes, and when.
const HERE: Here = Here { link: 7, at: 0 };

/// 300 of 500 are executed at 23.45, 150 are open and 50 cancelled.
const READ: Account = Account {
    side: b'5',
    unfilled: 150,
    executed: 300,
    cancelled: 50,
    value: 70_350_000,
    is_closed: false,
};

/// Events with their batches, what the next event's batch tells a client, and pairs.
pub struct Histories {
    history: History,
    client: ClientNumber,
    told: ShortList<IssuedReport>,
    pairs: Vec<OrderPair>,
}

/// Written by hand, so that one call drops all.
impl Drop for Histories {
    fn drop(self) {
        let Histories {
            history: _,
            client: _,
            told: _,
            pairs: _,
        } = self;
    }
}

impl Histories {
    /// No event, and no pair. Takes no memory.
    pub fn new(alloc: Global) -> Histories {
        Histories {
            history: History::new(alloc),
            client: ClientNumber::at_place(0),
            told: ShortList::new(),
            pairs: Vec::new(alloc),
        }
    }

    /// Makes a call, and adds what it shows; false where there is none of this word.
    pub fn call(
        &mut self,
        alloc: Global,
        word: &str,
        rest: &str,
        shown: &mut Vec<u8>,
    ) -> Result<bool, AllocError> {
        match word {
            "history" => self.history = History::new(alloc),
            "pairs" => self.pairs.clear(),
            "run" => run(alloc, &self.history, shown)?,
            "audit-history" => audit_history(alloc, &self.history, shown)?,
            "write-pairs" => write_pairs(alloc, self.pairs.as_slice(), usize::MAX, true, shown)?,
            "write-pairs-fails" => write_pairs(alloc, self.pairs.as_slice(), 0, true, shown)?,
            "flush-pairs-fails" => {
                write_pairs(alloc, self.pairs.as_slice(), usize::MAX, false, shown)?;
            }
            _ => return self.add(alloc, word, rest),
        }
        Ok(true)
    }

    /// Adds the pair, the report or the event that a line says; false where it is none.
    fn add(&mut self, alloc: Global, word: &str, rest: &str) -> Result<bool, AllocError> {
        let (number, text) = first_word(rest);
        let Some(number) = small_number(number) else {
            return Ok(false);
        };
        match word {
            "pair" => self.add_pair(alloc, number, text),
            "told" => self.add_report(alloc, number, text),
            _ => self.add_event(alloc, word, number, text),
        }
    }

    /// `ID EXECUTED`: an order of which the market executed so many, and its client read 300.
    fn add_pair(&mut self, alloc: Global, client: u16, text: &str) -> Result<bool, AllocError> {
        let (id, executed) = first_word(text);
        let ouch = Account {
            executed: size_of(executed) as u128,
            ..READ
        };
        self.pairs.push(OrderPair {
            client,
            id: Vec::from_slice(alloc, id.as_bytes())?,
            fix: READ,
            ouch,
            agree: READ == ouch,
        })?;
        Ok(true)
    }

    /// The next event's batch tells a client this report, too.
    fn add_report(&mut self, alloc: Global, number: u16, text: &str) -> Result<bool, AllocError> {
        let Some(client) = ClientNumber::of(number) else {
            return Ok(false);
        };
        let Some(report) = report_of(alloc, text)? else {
            return Ok(false);
        };
        self.client = client;
        self.told.push(alloc, report)?;
        Ok(true)
    }

    /// The event of a word, with the batch that was said.
    fn add_event(
        &mut self,
        alloc: Global,
        word: &str,
        number: u16,
        text: &str,
    ) -> Result<bool, AllocError> {
        let Some(bytes) = bytes_of(alloc, text)? else {
            return Ok(false);
        };
        let Some(event) = event_of(alloc, word, number, HERE, bytes.as_slice())? else {
            return Ok(false);
        };
        let batch = self.batch_said();
        self.history.push(&event, &batch)?;
        Ok(true)
    }

    /// The batch that was said; nothing is said any more.
    fn batch_said(&mut self) -> Batch {
        let told = mem::replace(&mut self.told, ShortList::new());
        let port = PortNumber::at_place(0);
        Batch::of_parts(
            self.client,
            told,
            ShortList::new(),
            port,
            ShortList::new(),
            None,
        )
    }
}

/// The report of fields; `None` where they are none, or too long.
fn report_of(alloc: Global, text: &str) -> Result<Option<IssuedReport>, AllocError> {
    let Some(bytes) = bytes_of(alloc, text)? else {
        return Ok(None);
    };
    let Some(fields) = split(alloc, bytes.as_slice())? else {
        return Ok(None);
    };
    let mut printed = PrintedFields::with_capacity(alloc, bytes.len())?;
    printed.append_text(printed_fields(&fields))?;
    Ok(IssuedReport::of(printed))
}

/// Steps the events of a history on a core of the fixed settings: shows what each batch writes, a client's first, and
/// `batch` in front of each.
fn run(alloc: Global, history: &History, shown: &mut Vec<u8>) -> Result<(), AllocError> {
    let settings = fixed_settings(alloc)?;
    let events = history.events(alloc)?;
    show_batches(
        alloc,
        run_all(alloc, &settings, events.as_slice())?.as_slice(),
        shown,
    )
}

fn show_batches(alloc: Global, batches: &[Batch], shown: &mut Vec<u8>) -> Result<(), AllocError> {
    for batch in batches {
        shown.extend_from_slice(b"batch\n")?;
        show_outs(alloc, batch.client_out.as_slice(), shown)?;
        show_outs(alloc, batch.port_out.as_slice(), shown)?;
    }
    Ok(())
}

/// Shows each frame or packet, as it is typed.
fn show_outs(alloc: Global, outs: &[LinkOut], shown: &mut Vec<u8>) -> Result<(), AllocError> {
    for out in outs {
        match out {
            LinkOut::Write { bytes, .. } => {
                shown.extend_from_slice(typed(alloc, bytes.as_slice())?.as_bytes())?;
            }
            LinkOut::Close { .. } => shown.extend_from_slice(b"close")?,
        }
        shown.push(b'\n')?;
    }
    Ok(())
}

/// Audits a history of the fixed settings.
fn audit_history(alloc: Global, history: &History, shown: &mut Vec<u8>) -> Result<(), AllocError> {
    let settings = fixed_settings(alloc)?;
    match audit(alloc, history, &settings) {
        Ok(pairs) => shown.extend_from_slice(audit_text(alloc, pairs.as_slice())?.as_slice()),
        Err(_) => shown.extend_from_slice(b"no pairs\n"),
    }
}

/// Writes the audit of pairs to a writer that fails after so many writes, or when it is flushed.
fn write_pairs(
    alloc: Global,
    pairs: &[OrderPair],
    writes_left: usize,
    flushes: bool,
    shown: &mut Vec<u8>,
) -> Result<(), AllocError> {
    let mut output = Failing {
        taken: Vec::new(alloc),
        writes_left,
        flushes,
    };
    let mut told = Vec::new(alloc);
    let status = write_audit(alloc, pairs, &mut output, &mut told);
    shown.extend_from_slice(output.taken.as_slice())?;
    add_end(shown, told.as_slice(), status)
}
