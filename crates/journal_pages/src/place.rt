//! Where in a page a record stands: which kinds may come there, and of whom.

ghost use Rattle.std.specs.Prelude.{◌≡◌, Some, None, MatchResult};
ghost use Rattle.journal_pages.specs.Page as spec;
ghost use Rattle.journal_pages.specs.Page.{batch_at, batch_with, fault_at, is_event, is_of_batch, is_same, may_follow};
ghost use Rattle.journal_pages.specs.Page.{next_fault, place_after, place_within, rank};
ghost use Rattle.journal_pages.specs.Seen.{record_seen};

use crate::fault::PageFault;
use crate::kind::RecordKind;
use crate::view::RecordView;

/// What is known of a batch: the moment of its event, its client and its port where one was named, and the rank of the
/// kind that came last.
#[derive(Clone, Copy)]
pub struct Batch {
    pub at: u64,
    pub client: Option<u16>,
    pub port: Option<u16>,
    pub rank: u8,
}

/// A place in a page.
#[derive(Clone, Copy)]
pub enum Place {
    /// Before the first record: any may come.
    PageStart,
    /// Behind the end of a batch: an event comes.
    BetweenBatches,
    /// Inside a batch.
    InBatch(Batch),
}

impl Place {
    /// The place behind a record that may stand here. `Payload` where its moment, client or port isn't its batch's;
    /// `Order` where its kind can't come here. Takes no memory.
    pub fn after(self, next: &RecordView<'_>) -> Result<Place, PageFault>
        ensures { MatchResult result
            (λ place. (fault_at self (record_seen next.now) ≡ None) × (place ≡ place_after self (record_seen next.now)))
            (λ fault. fault_at self (record_seen next.now) ≡ Some fault) }
    {
        let is_event = rank(next.kind) == 0;
        match self {
            Place::PageStart if is_event => Ok(Place::InBatch(batch_at(next.at))),
            Place::PageStart => Ok(batch_at(next.at).within(next)),
            Place::BetweenBatches if is_event => Ok(Place::InBatch(batch_at(next.at))),
            Place::BetweenBatches => Err(PageFault::Order),
            Place::InBatch(_) if is_event => Err(PageFault::Order),
            Place::InBatch(batch) => batch.after(next),
        }
    }
}

impl Batch {
    /// The place behind a record that goes on with this batch, or what is wrong with it.
    fn after(self, next: &RecordView<'_>) -> Result<Place, PageFault>
        ensures { MatchResult result
            (λ place. (next_fault self (record_seen next.now) ≡ None)
            × (place ≡ place_within self (record_seen next.now)))
            (λ fault. next_fault self (record_seen next.now) ≡ Some fault) }
    {
        if self.at != next.at || !self.has(next) {
            return Err(PageFault::Payload);
        }
        if may_follow(self.rank, rank(next.kind)) {
            Ok(self.within(next))
        } else {
            Err(PageFault::Order)
        }
    }

    /// Whether a record is of this batch's client, or its port.
    fn has(self, next: &RecordView<'_>) -> bool
        ensures { result ≡ is_of_batch self (record_seen next.now) }
    {
        match rank(next.kind) {
            0..=2 => is_same(self.client, next.source),
            3..=4 => is_same(self.port, next.source),
            _ => true,
        }
    }

    /// The place behind a record of this batch.
    fn within(self, next: &RecordView<'_>) -> Place
        ensures { result ≡ place_within self (record_seen next.now) }
    {
        if rank(next.kind) == 5 {
            Place::BetweenBatches
        } else {
            Place::InBatch(self.with(next))
        }
    }

    /// The batch with one record more.
    fn with(self, next: &RecordView<'_>) -> Batch
        ensures { result ≡ batch_with self (record_seen next.now) }
    {
        let rank = rank(next.kind);
        Batch {
            at: self.at,
            client: if rank <= 2 {
                Some(next.source)
            } else {
                self.client
            },
            port: if rank >= 3 && rank <= 4 {
                Some(next.source)
            } else {
                self.port
            },
            rank,
        }
    }
}

/// A batch whose event came at this moment.
fn batch_at(at: u64) -> Batch
    ensures { result ≡ batch_at at }
{
    Batch {
        at,
        client: None,
        port: None,
        rank: 0,
    }
}

/// Where in its batch a kind stands.
fn rank(kind: RecordKind) -> u8
    ensures { result ≡ spec.rank kind }
{
    match kind {
        RecordKind::Report => 1,
        RecordKind::ClientWrite | RecordKind::ClientClose => 2,
        RecordKind::PortWrite | RecordKind::PortClose => 3,
        RecordKind::Fault => 4,
        RecordKind::BatchEnd => 5,
        _ => 0,
    }
}

/// Whether a record of one rank may stand behind one of another.
fn may_follow(before: u8, now: u8) -> bool
    ensures { result ≡ may_follow before now }
{
    before < now || before == now && now < 4
}

/// Whether a source is the known one, where there is one.
fn is_same(known: Option<u16>, source: u16) -> bool
    ensures { result ≡ is_same known source }
{
    match known {
        None => true,
        Some(known) => known == source,
    }
}
