//! A line's two halves: one thread opens and reads its links, the other writes them.

ghost use Rattle.std.specs.Prelude.{◌≡◌, ◌≤◌, ◌<◌, true, IfNone, IfSome};
ghost use Rattle.gate_serving.specs.Halves.{ReadsDid, WritesDid};
ghost use Rattle.gate_serving.specs.Faults.{first_fault};
ghost use Rattle.gate_serving.specs.Lines.{LineRead, LineWrittenBy, log_of, reads_of};
ghost use Rattle.gate_workers.specs.SharedWriters.{HasEnded};
ghost use Rattle.gate_workers.specs.WritersWork.{OfAStream};

use crate::job::Job;
use crate::line::Worker;
use crate::opener::{Closer, LinkEnd, Opened, Opener};
use crate::reading::read;
use crate::slot::{Given, Next, Slot};
use crate::writer_worker::WriterWorker;
use gate_events::Recipient;
use gate_workers::{Clock, NewLink, WriterEnd};
use link_io::{Gate, LinkFault, Prompt};
use std::alloc::Global;
use std::io::Read;
use std::sync::Wait;
use std::sync::atomic::{AtomicBool, Ordering};

/// What the reading half works with.
#[derive(Drop)]
pub(crate) struct Reads<'a, O: Opener, A> {
    pub(crate) peer: Recipient,
    pub(crate) steps: u64,
    pub(crate) fault: Option<LinkFault>,
    pub(crate) opener: O,
    pub(crate) worker: A,
    pub(crate) slot: &'a Slot<O::Writer, O::Closer>,
    /// Whether all links are over: the opener has no further one, and each that it opened was read.
    pub(crate) all_over: bool,
}

/// What the writing half works with.
#[derive(Drop)]
pub(crate) struct Writes<'a, B, W, K> {
    pub(crate) peer: Recipient,
    pub(crate) steps: u64,
    pub(crate) worker: B,
    pub(crate) slot: &'a Slot<W, K>,
}

impl<'a, O, G, C> Job for Reads<'a, O, Worker<G, C>>
where
    O: Opener + Drop,
    O::Reader: Read + Drop,
    O::Writer: Drop,
    O::Closer: Drop,
    G: Gate + Drop,
    C: Clock + Drop,
{
    ghost did = { ReadsDid O.has_ended O.opened (log_of G.was_put C.reported) G.was_taken };

    /// Opens and reads the line's links; then tells the writer that no further one comes.
    fn run<R: Wait>(self, rt: &R, alloc: Global, flag: &AtomicBool) -> Self {
        let mut reads = self;
        let all_over = reads.read_links(rt, alloc, flag);
        reads.slot.close(rt);
        reads.all_over = all_over;
        reads
    }
}

impl<'a, O, G, C> Reads<'a, O, Worker<G, C>>
where
    O: Opener,
    O::Reader: Read + Drop,
    O::Writer: Drop,
    O::Closer: Drop,
    G: Gate,
    C: Clock,
{
    #[tactic(auto, using(crate::proofs::Served::none_yet, crate::proofs::Served::all_read, crate::proofs::Served::read_in_part))]
    /// Opens and reads links, numbered from 1, until the opener has no more (`true`), the flag is set, or the line has
    /// no writer. Each link's writer has ended before the next is opened. One that no writer took is reported as ended
    /// too.
    fn read_links<R: Wait>(&mut self, rt: &R, alloc: Global, flag: &AtomicBool) -> bool
        ensures read { LineRead (reads_of self.old.peer) result (O.has_ended self.new.opener)
            (O.opened self.old.opener) (O.opened self.new.opener) self.old.fault self.new.fault
            (log_of G.was_put C.reported self.old.worker) (log_of G.was_put C.reported self.new.worker) }
        ensures none_taken { G.was_taken self.new.worker.gate ≡ G.was_taken self.old.worker.gate }
        ensures same { (self.new.peer ≡ self.old.peer) × (self.new.steps ≡ self.old.steps) }
    {
        let mut link = 0u64;
        for _ in 0..u64::MAX {
            if flag.load(Ordering::SeqCst) {
                return false;
            }
            let Some(tried) = self.opener.open() else {
                return true;
            };
            match tried {
                Err(found) => self.fault = first_of(self.fault, Some(found)),
                Ok(opened) => {
                    link += 1;
                    let read = self.read_link(rt, alloc, flag, link, opened);
                    let Some(end) = read else {
                        self.opener.ended(LinkEnd::of_dropped(link));
                        return false;
                    };
                    self.fault = first_of(self.fault, end.fault());
                    self.opener.ended(end);
                }
            }
        }
        false
    }

    /// Hands the link's other direction to the line's writer, and reads the link until it is over and its writer has
    /// ended. `None` if the line has no writer: then nothing is read.
    fn read_link<R: Wait>(
        &mut self,
        rt: &R,
        alloc: Global,
        flag: &AtomicBool,
        link: u64,
        opened: Opened<O::Reader, O::Writer, O::Closer>,
    ) -> Option<LinkEnd>
        ensures some { IfSome result (λ end. OfAStream (reads_of self.old.peer link end.reader
            (log_of G.was_put C.reported self.old.worker) (log_of G.was_put C.reported self.new.worker))) }
        ensures number { IfSome result (λ end. end.link ≡ link) }
        ensures none { IfNone result (log_of G.was_put C.reported self.new.worker
            ≡ log_of G.was_put C.reported self.old.worker) }
        ensures none_taken { G.was_taken self.new.worker.gate ≡ G.was_taken self.old.worker.gate }
        ensures same { (self.new.peer ≡ self.old.peer) × (self.new.steps ≡ self.old.steps)
            × (self.new.opener ≡ self.old.opener) × (self.new.fault ≡ self.old.fault) }
    {
        let Opened {
            reader: mut stream,
            writer,
            closer,
        } = opened;
        let given = Given {
            stream: writer,
            closer,
        };
        if !self.slot.offer(rt, flag, given) {
            return None;
        }
        let steps = self.steps.max(1);
        let Worker { gate, clock } = &mut self.worker;
        let reader = read(rt, alloc, self.peer, link, steps, &mut stream, gate, clock);
        self.slot.stop().store(true, Ordering::SeqCst);
        self.worker.gate.wake_writer();
        let writer = self.slot.ended(rt);
        Some(LinkEnd {
            link,
            reader,
            writer,
        })
    }
}

impl<'a, 'p, W, H, D, K> Job for Writes<'a, WriterWorker<'p, W, H, D>, W, K>
where
    W: Prompt + Drop,
    H: Gate + Drop,
    D: Clock + Drop,
    K: Closer + Drop,
{
    ghost did = { WritesDid (HasEnded W.contents) };

    /// Writes each link that the line's reader hands over, until no further one comes.
    fn run<R: Wait>(self, rt: &R, alloc: Global, flag: &AtomicBool) -> Self {
        let mut writes = self;
        writes.write_links(rt, alloc, flag);
        writes
    }
}

impl<'a, 'p, W, H, D, K> Writes<'a, WriterWorker<'p, W, H, D>, W, K>
where
    W: Prompt + Drop,
    H: Gate + Drop,
    D: Clock,
    K: Closer + Drop,
{
    #[tactic(auto, using(crate::proofs::Served::none_written))]
    /// Writes links, numbered from 1 as they come, until no further one does. Output queued between two links is for
    /// those that are over: it is dropped.
    fn write_links<R: Wait>(&mut self, rt: &R, alloc: Global, flag: &AtomicBool)
        ensures written { LineWrittenBy (HasEnded W.contents) self.old.worker self.new.worker }
    {
        for before in 0..u64::MAX {
            let Some(given) = self.next_link(rt, alloc, flag, before) else {
                return;
            };
            let end = self.write_link(rt, alloc, before + 1, given);
            self.slot.end(rt, end);
        }
    }

    /// The next link, once there is one; `None` if none comes. Until then output for links that are over is dropped, so
    /// that no event waits for its room.
    fn next_link<R: Wait>(
        &self,
        rt: &R,
        alloc: Global,
        flag: &AtomicBool,
        before: u64,
    ) -> Option<Given<W, K>> {
        for _ in rt.forever() {
            match self.slot.next(rt, flag) {
                Next::Link(given) => return Some(given),
                Next::Over => return None,
                Next::NotYet => {
                    if before != 0 {
                        self.worker.let_go(rt, alloc);
                    }
                }
            }
        }
        unreachable!()
    }

    /// Writes a link until it is closed, faulted or stopped. Unless it was stopped, its stream is shut down; behind a
    /// fault at once, once what is queued for it was dropped, so that no event waits for its room any more.
    fn write_link<R: Wait>(
        &mut self,
        rt: &R,
        alloc: Global,
        link: u64,
        given: Given<W, K>,
    ) -> Result<WriterEnd, LinkFault>
        ensures written { HasEnded W.contents result }
    {
        let Given { stream, mut closer } = given;
        let stop = self.slot.stop();
        let link = NewLink {
            number: link,
            steps: self.steps.max(1),
            stream,
        };
        let end = self.worker.write(rt, alloc, self.peer, link, stop);
        match end {
            Ok(WriterEnd::Stopped) => {}
            Ok(WriterEnd::Closed) => closer.close(stop),
            Err(_) => {
                self.worker.let_go(rt, alloc);
                closer.cut(stop);
            }
        }
        end
    }
}

/// The first fault of the two.
fn first_of(first: Option<LinkFault>, then: Option<LinkFault>) -> Option<LinkFault>
    ensures { result ≡ first_fault first then }
{
    match first {
        Some(_) => first,
        None => then,
    }
}
