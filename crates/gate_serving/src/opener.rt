//! Where a line's links come from.

ghost use Rattle.std.specs.Prelude.{◌≡◌, Ok};
ghost use Rattle.gate_serving.specs.Faults.{end_fault};
ghost use Rattle.gate_workers.specs.declared.writer.WriterEnd.TheVariants.{Stopped};

use gate_workers::WriterEnd;
use link_io::LinkFault;
use std::sync::atomic::AtomicBool;

/// Opens the links of a line, one after the other. Contracts see how many links it has opened, and whether it has said
/// that there is no further one.
pub trait Opener {
    ghost use Rattle.std.specs.Prelude.{◌≡◌, ◌+◌, ℕ, IfNone, IfSome, MatchResult};

    ghost opened: { Self → ℕ };

    ghost has_ended: { Self → Type 0 };

    /// What a link is read by.
    type Reader;

    /// What a link is written by.
    type Writer;

    /// What shuts its stream down.
    type Closer;

    /// The next link, once there is one; `ReadFailed` if it couldn't be opened: the next call tries again. `None` after
    /// the last one. It may wait.
    fn open(
        &mut self,
    ) -> Option<Result<Opened<Self::Reader, Self::Writer, Self::Closer>, LinkFault>>
        ensures counts { IfSome result (λ tried. MatchResult tried
            (λ _. opened self.new ≡ opened self.old + 1) (λ _. opened self.new ≡ opened self.old)) }
        ensures last { IfNone result ((opened self.new ≡ opened self.old) × has_ended self.new) };

    /// Reports how the link that was opened last has ended.
    fn ended(&mut self, end: LinkEnd)
        ensures same { opened self.new ≡ opened self.old };
}

/// A link that was opened: its stream's two directions, and its closer.
#[derive(Drop)]
pub struct Opened<R, W, K> {
    pub reader: R,
    pub writer: W,
    pub closer: K,
}

/// Shuts a link's stream down.
pub trait Closer {
    /// Lets the peer get what was written, and ends the reader's wait for the stream: as soon as the peer has closed
    /// too, or after a while. `is_read` is set once the link's reader has ended.
    fn close(&mut self, is_read: &AtomicBool);

    /// Ends the stream of a link that can't be written, or whose peer takes nothing: the peer is not waited for. By
    /// default it does what `close` does.
    fn cut(&mut self, is_read: &AtomicBool) {
        self.close(is_read);
    }
}

/// How the reader and the writer of a link ended.
#[derive(Clone, Copy, Debug, PartialEq, Eq)]
pub struct LinkEnd {
    /// The number of the link among its line's, from 1.
    pub link: u64,
    /// The reader's end: the stream's, or a fault.
    pub reader: Result<(), LinkFault>,
    /// The writer's end: closed by the core, stopped, or a fault.
    pub writer: Result<WriterEnd, LinkFault>,
}

impl LinkEnd {
    /// The end of a link that was opened, and dropped as the line had no writer any more.
    pub(crate) fn of_dropped(link: u64) -> LinkEnd
        ensures { result ≡ record { link = link; reader = Ok tt; writer = Ok Stopped } }
    {
        LinkEnd {
            link,
            reader: Ok(()),
            writer: Ok(WriterEnd::Stopped),
        }
    }

    /// The fault that ended the link, the reader's before the writer's; `None` where neither had one.
    pub fn fault(&self) -> Option<LinkFault>
        ensures { result ≡ end_fault self.now.reader self.now.writer }
    {
        if let Err(fault) = self.reader {
            return Some(fault);
        }
        match self.writer {
            Ok(_) => None,
            Err(fault) => Some(fault),
        }
    }
}
