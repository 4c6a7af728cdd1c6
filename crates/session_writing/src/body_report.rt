//! The report of a body that is issued, with the place of the body in its text.

ghost use Rattle.std.specs.Prelude.{◌≡◌, ◌++◌, ℕ, length, IfOk, OnOk};
ghost use Rattle.fix_framing.specs.fix_fields.Field.{AreFields, fields_text};
ghost use Rattle.fix_framing.specs.fix_fields.Printed.{PrintsFields, fields_in};
ghost use Rattle.fix_stamp.specs.Stamp.{stamp_text};
ghost use Rattle.session_reading.specs.session_law.Frames.{frame_fields};
ghost use Rattle.session_reading.specs.session_law.Session.{fresh};
ghost use Rattle.session_writing.specs.Issued.{issued_body};

use crate::head::FrameHead;
use crate::issued_report::report_in_limit;
use crate::names::Names;
use crate::output::{printed_front, push_issue};
use crate::resend::part_of;
use crate::stamped::Stamped;
use fix_printing::PrintedFields;
use fix_types::AppBody;
use session_law::{IssuedReport, Kind};
use std::alloc::{AllocError, Global};
use std::marker::Model;

/// How many bytes a body takes that has no long texts.
const MOST_BODIES: usize = 256;

/// The report of a body that is issued, and where the body's fields stand in its text. Contracts see the fields of
/// both.
#[derive(Drop)]
pub struct BodyReport {
    report: IssuedReport,
    start: usize,
    end: usize,
}

impl Model for BodyReport {
    ghost use Rattle.fix_framing.specs.fix_fields.Printed.{fields_in};
    ghost use Rattle.session_writing.specs.Issued.{BodyIssued, IsPart, report_part};

    ghost Value = { BodyIssued };

    ghost view = { λ r. record { report = r.report; body = fields_in (report_part r.report r.start r.end) } };

    ghost invariant = { λ r. IsPart r.report r.start r.end };
}

impl BodyReport {
    /// The report. Takes no memory.
    pub fn report(&self) -> &IssuedReport
        ensures { result.now ≡ self.now.report }
    {
        &self.report
    }

    /// The text of the body's fields. Takes no memory.
    pub fn body(&self) -> &[u8]
        ensures prints { PrintsFields result.now }
        ensures same { fields_in result.now ≡ self.now.body }
    {
        part_of(self.report.text(), self.start, self.end)
    }

    /// The report, moved out. Takes no memory.
    pub fn into_report(self) -> IssuedReport
        ensures { result ≡ self.report }
    {
        self.report
    }
}

/// The report of a body that is issued, under these names and with this number, at a moment. One growth, where the
/// names have 60 bytes at most and the body's texts aren't long.
///
/// Where it prints in more than `IssuedReport::LONGEST` bytes it answers `AllocError`. No report does, since
/// its longest texts are those of a frame of 8,192 bytes at most; that isn't proved.
pub fn report_of_body(
    alloc: Global,
    names: &Names,
    number: u64,
    kind: Kind,
    moment: &Stamped,
    body: &AppBody,
) -> Result<BodyReport, AllocError>
    ensures report { IfOk result (λ made. made.report ≡ frame_fields stamp_text names.now.gate names.now.client
        (fresh number kind (issued_body body.now) moment.now)) }
    ensures body { IfOk result (λ made. made.body ≡ issued_body body.now) }
{
    let head = FrameHead {
        number,
        kind,
        at: moment.at(),
        first: None,
    };
    let mut printed = printed_front(alloc, MOST_BODIES, names, head, moment, moment)?;
    let start = size_of(&printed);
    push_body(&mut printed, body)?;
    let end = size_of(&printed);
    push_issue(&mut printed, head, moment, moment)?;
    let report = report_in_limit(printed)?;
    Ok(BodyReport { report, start, end })
}

/// How many bytes these fields print in.
fn size_of(printed: &PrintedFields) -> usize
    ensures size { result ≡ length (fields_text printed.now) }
    ensures fields { AreFields printed.now }
{
    printed.text().len()
}

/// Adds the fields of a body.
fn push_body(fields: &mut PrintedFields, body: &AppBody) -> Result<(), AllocError>
    ensures { OnOk result (fields.new ≡ fields.old ++ issued_body body.now) }
{
    match body {
        AppBody::Report(report) => report.push_body(fields),
        AppBody::CancelReject(reject) => reject.push_body(fields),
    }
}
