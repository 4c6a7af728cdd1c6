//! A report or reject as it was issued.

ghost use Rattle.std.specs.Prelude.{◌≡◌, ◌≤◌, ◌↔◌, length, IfOk, IsSome, IfSome};
ghost use Rattle.fix_framing.specs.fix_fields.Field.{AreFields, fields_text};
ghost use Rattle.session_law.specs.Longest.{longest_report};

use fix_fields::Fields;
use fix_printing::PrintedFields;
use std::alloc::{AllocError, Global};
use std::marker::Model;

/// A report or reject as it was issued: its fields from MsgType (35) on, as they are printed, in at most
/// `IssuedReport::LONGEST` bytes. Contracts see the fields.
///
/// Source: FIX 4.4 Volume 4, "Execution Report" and "Order Cancel Reject"; the limit is the gateway's own.
#[derive(Debug, Drop)]
pub struct IssuedReport {
    printed: PrintedFields,
}

impl Model for IssuedReport {
    ghost use Rattle.std.specs.Prelude.{List, length, ◌≤◌};
    ghost use Rattle.fix_framing.specs.fix_fields.Field.{Field, fields_text};
    ghost use Rattle.session_law.specs.Longest.{longest_report};

    ghost Value = { List Field };

    ghost view = { λ report. report.printed };

    ghost invariant = { λ report. length (fields_text report.printed) ≤ longest_report };
}

impl IssuedReport {
    /// The most bytes in which a report prints: fewer than 2^20.
    pub const LONGEST: usize = 1_048_575;

    /// The report of these fields; `None` where they print in more than `IssuedReport::LONGEST` bytes. Takes no memory.
    pub fn of(printed: PrintedFields) -> Option<IssuedReport>
        ensures in_limit { IsSome result ↔ (length (fields_text printed) ≤ longest_report) }
        ensures value { IfSome result (λ report. report ≡ printed) }
    {
        if printed.text().len() > IssuedReport::LONGEST {
            return None;
        }
        Some(IssuedReport { printed })
    }

    /// Its text, as it was written from MsgType (35) to before CheckSum (10), or would have been. Takes no memory.
    pub fn text(&self) -> &[u8]
        ensures text { result.now ≡ fields_text self.now }
        ensures fields { AreFields self.now }
        ensures in_limit { length result.now ≤ longest_report }
    {
        self.printed.text()
    }

    /// Its fields, in order. Two growths.
    pub fn to_fields(&self, alloc: Global) -> Result<Fields, AllocError>
        ensures fields { IfOk result (λ fields. fields ≡ self.now) }
        ensures in_limit { IfOk result (λ fields. length (fields_text fields) ≤ longest_report) }
    {
        self.printed.to_fields(alloc)
    }
}
