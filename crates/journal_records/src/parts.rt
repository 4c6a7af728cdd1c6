//! A batch, read record by record.

ghost use Rattle.std.specs.Prelude.{◌≡◌, ◌≤◌, ◌++◌, ◌∷◌, [], map, IfOk, OnOk};
ghost use Rattle.gate_law.specs.Events.{Write};
ghost use Rattle.gate_events.specs.Seen.{batch_seen, link_out_seen};
ghost use Rattle.journal_pages.specs.Seen.{record_seen};
ghost use Rattle.journal_pages.specs.declared.kind.RecordKind.TheVariants as kinds;
ghost use Rattle.journal_records.specs.Events.{payload_fields};
ghost use Rattle.journal_records.specs.Reading as spec;
ghost use Rattle.journal_records.specs.Reading.{batch_said, nothing_said, fault_in_payload, said_more};
ghost use Rattle.journal_records.specs.Reading.{saying_client_out, saying_port_out, saying_report};
ghost use Rattle.journal_records.specs.PartsSeen.{parts_seen};

use fix_printing::PrintedFields;
use gate_events::{Batch, ClientNumber, LinkOut, PortNumber, ShortList};
use journal_pages::{RecordKind, RecordView};
use session_law::IssuedReport;
use soup_session::PortFault;
use std::alloc::{AllocError, Global};

/// What was read of a batch so far. The number of its client or port is 0 as long as none was named.
#[derive(Drop)]
pub struct BatchParts {
    pub client: u16,
    pub reports: ShortList<IssuedReport>,
    pub client_out: ShortList<LinkOut>,
    pub port: u16,
    pub port_out: ShortList<LinkOut>,
    pub fault: Option<PortFault>,
}

impl BatchParts {
    /// Nothing. Takes no memory.
    pub fn new(_alloc: Global) -> BatchParts
        ensures { parts_seen result ≡ nothing_said }
    {
        BatchParts {
            client: 0,
            reports: ShortList::new(),
            client_out: ShortList::new(),
            port: 0,
            port_out: ShortList::new(),
            fault: None,
        }
    }

    /// What one record more says.
    pub fn add(&mut self, alloc: Global, record: &RecordView<'_>) -> Result<(), AllocError>
        ensures { OnOk result (parts_seen self.new
            ≡ said_more record.now.kind (record_seen record.now) (parts_seen self.old)) }
    {
        match record.kind {
            RecordKind::Report => {
                self.add_report(alloc, record.source, report_of(alloc, record)?)
            }
            RecordKind::ClientWrite => {
                self.add_client_out(alloc, record.source, write_of(alloc, record)?)
            }
            RecordKind::ClientClose => {
                self.add_client_out(alloc, record.source, LinkOut::Close { link: record.link })
            }
            RecordKind::PortWrite => {
                self.add_port_out(alloc, record.source, write_of(alloc, record)?)
            }
            RecordKind::PortClose => {
                self.add_port_out(alloc, record.source, LinkOut::Close { link: record.link })
            }
            RecordKind::Fault => {
                self.port = record.source;
                self.fault = fault_of(record.payload);
                Ok(())
            }
            RecordKind::ClientUp
            | RecordKind::ClientMessage
            | RecordKind::ClientGone
            | RecordKind::PortUp
            | RecordKind::PortPacket
            | RecordKind::PortGone
            | RecordKind::ClientTick
            | RecordKind::PortTick
            | RecordKind::BatchEnd => Ok(()),
        }
    }

    /// The batch of all that was read. Takes no memory.
    pub fn into_batch(self) -> Batch
        ensures { batch_seen result ≡ batch_said (parts_seen self) }
    {
        let client = ClientNumber::new(or_one(self.client));
        let port = PortNumber::new(or_one(self.port));
        Batch::of_parts(
            client,
            self.reports,
            self.client_out,
            port,
            self.port_out,
            self.fault,
        )
    }

    fn add_report(
        &mut self,
        alloc: Global,
        client: u16,
        report: IssuedReport,
    ) -> Result<(), AllocError>
        ensures { OnOk result (parts_seen self.new ≡ saying_report client report (parts_seen self.old)) }
    {
        self.reports.push(alloc, report)?;
        self.client = client;
        Ok(())
    }

    fn add_client_out(&mut self, alloc: Global, client: u16, out: LinkOut) -> Result<(), AllocError>
        ensures { OnOk result (parts_seen self.new
            ≡ saying_client_out client (link_out_seen out) (parts_seen self.old)) }
    {
        push_out(alloc, &mut self.client_out, out)?;
        self.client = client;
        Ok(())
    }

    fn add_port_out(&mut self, alloc: Global, port: u16, out: LinkOut) -> Result<(), AllocError>
        ensures { OnOk result (parts_seen self.new
            ≡ saying_port_out port (link_out_seen out) (parts_seen self.old)) }
    {
        push_out(alloc, &mut self.port_out, out)?;
        self.port = port;
        Ok(())
    }
}

/// Whether a record of this kind is part of a batch, and not its end.
pub fn is_part(kind: RecordKind) -> bool
    ensures { result ≡ spec.is_part kind }
{
    match kind {
        RecordKind::Report
        | RecordKind::ClientWrite
        | RecordKind::ClientClose
        | RecordKind::PortWrite
        | RecordKind::PortClose
        | RecordKind::Fault => true,
        RecordKind::ClientUp
        | RecordKind::ClientMessage
        | RecordKind::ClientGone
        | RecordKind::PortUp
        | RecordKind::PortPacket
        | RecordKind::PortGone
        | RecordKind::ClientTick
        | RecordKind::PortTick
        | RecordKind::BatchEnd => false,
    }
}

/// The number, 1 for 0.
fn or_one(number: u16) -> u16
    ensures value { result ≡ spec.or_one number }
    ensures from_one { 1 ≤ result }
{
    if number == 0 { 1 } else { number }
}

/// Adds one thing that a link is told.
fn push_out(alloc: Global, outs: &mut ShortList<LinkOut>, out: LinkOut) -> Result<(), AllocError>
    ensures { OnOk result (map link_out_seen outs.new.items
        ≡ map link_out_seen outs.old.items ++ link_out_seen out ∷ []) }
{
    outs.push(alloc, out)?;
    Ok(())
}

/// What a record says to be written to a link. One growth.
fn write_of(alloc: Global, record: &RecordView<'_>) -> Result<LinkOut, AllocError>
    ensures { IfOk result (λ out. link_out_seen out ≡ Write record.now.link record.now.payload.now) }
{
    let bytes = Vec::from_slice(alloc, record.payload)?;
    Ok(LinkOut::Write {
        link: record.link,
        bytes,
    })
}

/// The report of a record. One growth.
fn report_of(alloc: Global, record: &RecordView<'_>) -> Result<IssuedReport, AllocError>
    requires { record.now.kind ≡ kinds.Report }
    ensures { IfOk result (λ report. report ≡ payload_fields record.now.payload.now) }
{
    let mut printed = PrintedFields::with_capacity(alloc, record.payload.len())?;
    printed.append_text(record.payload)?;
    let made = IssuedReport::of(printed);
    Ok(made.unwrap())
}

/// The fault that a payload names, if it does.
fn fault_of(payload: &[u8]) -> Option<PortFault>
    ensures { result ≡ fault_in_payload payload.now }
{
    match payload {
        [number] => fault_numbered(*number),
        _ => None,
    }
}

/// The fault of a number.
fn fault_numbered(number: u8) -> Option<PortFault>
    ensures { result ≡ spec.fault_numbered number }
{
    match number {
        1 => Some(PortFault::StrangePacket),
        2 => Some(PortFault::UnknownToken),
        3 => Some(PortFault::NotLawful),
        4 => Some(PortFault::OutsideProfile),
        5 => Some(PortFault::SequenceGap),
        6 => Some(PortFault::OtherSession),
        _ => None,
    }
}
