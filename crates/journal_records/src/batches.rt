//! A batch's records, written.

ghost use Rattle.std.specs.Prelude.{◌≡◌, ◌<◌, ◌++◌, ◌∷◌, [], length, map, OnOk, OnErr};
ghost use Rattle.gate_events.specs.Seen.{batch_seen, link_out_seen};
ghost use Rattle.journal_pages.specs.Record.{payload_limit};
ghost use Rattle.journal_pages.specs.Seen.{record_of};
ghost use Rattle.journal_pages.specs.Ordered.{AreWritable, IsWritable};
ghost use Rattle.journal_days.specs.Cut.{IsMoreOf, with_records};
ghost use Rattle.journal_records.specs.Parts.{batch_records, client_records, end_record, fault_records, named_number};
ghost use Rattle.journal_records.specs.Parts.{out_record, port_records, report_record};

use crate::heads::head;
use gate_events::{Batch, LinkOut};
use journal_days::DayPages;
use journal_pages::{RecordHead, RecordKind};
use session_law::IssuedReport;
use soup_session::PortFault;
use std::alloc::AllocError;

/// A payload has fewer bytes than this.
const PAYLOAD_LIMIT: usize = 1_048_576;

/// Appends the records of a batch whose event came at this moment, its end the last. `AllocError` leaves what stood in
/// `out` in front of some of the records.
pub fn append_batch(batch: &Batch, at: u64, out: &mut DayPages) -> Result<(), AllocError>
    requires { AreWritable (batch_records at (batch_seen batch.now)) }
    ensures ok { OnOk result (out.new ≡ with_records out.old (batch_records at (batch_seen batch.now))) }
    ensures kept { IsMoreOf out.old out.new }
{
    append_client_part(batch, at, out)?;
    append_port_part(batch, at, out)?;
    Ok(())
}

/// Appends what a batch has for a client.
fn append_client_part(batch: &Batch, at: u64, out: &mut DayPages) -> Result<(), AllocError>
    requires { AreWritable (client_records at (named_number (batch_seen batch.now).client)
        (batch_seen batch.now).reports (batch_seen batch.now).client_out) }
    ensures ok { OnOk result (out.new ≡ with_records out.old (client_records at
        (named_number (batch_seen batch.now).client) (batch_seen batch.now).reports
        (batch_seen batch.now).client_out)) }
    ensures kept { IsMoreOf out.old out.new }
{
    let client = client_of(batch);
    let write = RecordKind::ClientWrite;
    let close = RecordKind::ClientClose;
    append_reports(batch.reports.as_slice(), at, client, out)?;
    append_outs(batch.client_out.as_slice(), write, close, at, client, out)?;
    Ok(())
}

/// Appends what a batch has for a port, and its end.
fn append_port_part(batch: &Batch, at: u64, out: &mut DayPages) -> Result<(), AllocError>
    requires { AreWritable (port_records at (named_number (batch_seen batch.now).port)
        (batch_seen batch.now).port_out (batch_seen batch.now).fault) }
    ensures ok { OnOk result (out.new ≡ with_records out.old (port_records at
        (named_number (batch_seen batch.now).port) (batch_seen batch.now).port_out
        (batch_seen batch.now).fault)) }
    ensures kept { IsMoreOf out.old out.new }
{
    let port = port_of(batch);
    let write = RecordKind::PortWrite;
    let close = RecordKind::PortClose;
    append_outs(batch.port_out.as_slice(), write, close, at, port, out)?;
    append_ending(batch.fault, at, port, out)?;
    Ok(())
}

/// The number of a batch's client, 0 where it has none.
fn client_of(batch: &Batch) -> u16
    ensures { result ≡ named_number (batch_seen batch.now).client }
{
    match batch.client {
        Some(client) => client.number(),
        None => 0,
    }
}

/// The number of a batch's port, 0 where it has none.
fn port_of(batch: &Batch) -> u16
    ensures { result ≡ named_number (batch_seen batch.now).port }
{
    match batch.port {
        Some(port) => port.number(),
        None => 0,
    }
}

/// Appends reports.
fn append_reports(
    reports: &[IssuedReport],
    at: u64,
    client: u16,
    out: &mut DayPages,
) -> Result<(), AllocError>
    requires { AreWritable (map (report_record at client) reports.now) }
    ensures ok { OnOk result (out.new ≡ with_records out.old (map (report_record at client) reports.now)) }
    ensures kept { IsMoreOf out.old out.new }
{
    for report in reports {
        append_record(head(RecordKind::Report, client, 0, at), report.text(), out)?;
    }
    Ok(())
}

/// Appends what a link is told.
fn append_outs(
    outs: &[LinkOut],
    write: RecordKind,
    close: RecordKind,
    at: u64,
    source: u16,
    out: &mut DayPages,
) -> Result<(), AllocError>
    requires { AreWritable (map (out_record write close at source) (map link_out_seen outs.now)) }
    ensures ok { OnOk result (out.new
        ≡ with_records out.old (map (out_record write close at source) (map link_out_seen outs.now))) }
    ensures kept { IsMoreOf out.old out.new }
{
    for told in outs {
        append_out(told, write, close, at, source, out)?;
    }
    Ok(())
}

/// Appends one thing that a link is told. What has 2^20 bytes or more is answered as a lack of memory: no frame or
/// packet has, but the type doesn't say it.
fn append_out(
    told: &LinkOut,
    write: RecordKind,
    close: RecordKind,
    at: u64,
    source: u16,
    out: &mut DayPages,
) -> Result<(), AllocError>
    requires { IsWritable (out_record write close at source (link_out_seen told.now)) }
    ensures ok { OnOk result (out.new
        ≡ with_records out.old (out_record write close at source (link_out_seen told.now) ∷ [])) }
    ensures err { OnErr result (out.new ≡ out.old) }
{
    match told {
        LinkOut::Write { bytes, .. } if bytes.len() >= PAYLOAD_LIMIT => Err(AllocError),
        LinkOut::Write { link, bytes } => {
            append_record(head(write, source, *link, at), bytes.as_slice(), out)
        }
        LinkOut::Close { link } => append_record(head(close, source, *link, at), &[], out),
    }
}

/// Appends a fault, if there is one, and the end of a batch.
fn append_ending(
    fault: Option<PortFault>,
    at: u64,
    port: u16,
    out: &mut DayPages,
) -> Result<(), AllocError>
    requires { AreWritable (fault_records at port fault ++ end_record at ∷ []) }
    ensures ok { OnOk result (out.new
        ≡ with_records out.old (fault_records at port fault ++ end_record at ∷ [])) }
    ensures kept { IsMoreOf out.old out.new }
{
    append_fault(fault, at, port, out)?;
    append_end(at, out)?;
    Ok(())
}

/// Appends the end of a batch.
fn append_end(at: u64, out: &mut DayPages) -> Result<(), AllocError>
    requires { IsWritable (end_record at) }
    ensures ok { OnOk result (out.new ≡ with_records out.old (end_record at ∷ [])) }
    ensures err { OnErr result (out.new ≡ out.old) }
{
    append_record(head(RecordKind::BatchEnd, 0, 0, at), &[], out)
}

/// Appends a fault, if there is one.
fn append_fault(
    fault: Option<PortFault>,
    at: u64,
    port: u16,
    out: &mut DayPages,
) -> Result<(), AllocError>
    requires { AreWritable (fault_records at port fault) }
    ensures ok { OnOk result (out.new ≡ with_records out.old (fault_records at port fault)) }
    ensures err { OnErr result (out.new ≡ out.old) }
{
    let Some(fault) = fault else {
        return Ok(());
    };
    append_record(head(RecordKind::Fault, port, 0, at), &[fault.number()], out)
}

/// Appends the record of a head and a payload. `AllocError` leaves `out` as it was.
fn append_record(head: RecordHead, payload: &[u8], out: &mut DayPages) -> Result<(), AllocError>
    requires limit { length payload.now < payload_limit }
    requires writable { IsWritable (record_of head payload.now) }
    ensures ok { OnOk result (out.new ≡ with_records out.old (record_of head payload.now ∷ [])) }
    ensures err { OnErr result (out.new ≡ out.old) }
{
    out.append_writable(&head, &[], payload)
}
