//! The core as a link's engine sees it: a place to put events, and a source of output.

use gate_events::{Event, LinkOut, Recipient, ShortList};
use std::alloc::{AllocError, Global};
use std::sync::Wait;

/// One handle to the gateway's core: events are put into it, lists of output for links are taken from it. Contracts see
/// the events that were put and the lists that were taken, each in order.
pub trait Gate {
    ghost use Rattle.std.specs.Prelude.{◌≡◌, ◌++◌, List, [], ◌∷◌, map, Option, OnOk, IfErr, IfSome, IfNone};
    ghost use Rattle.gate_law.specs.Events as law;
    ghost use Rattle.gate_events.specs.Seen.{event_seen, link_out_seen};
    ghost use Rattle.gate_events.specs.declared.source.Recipient.{Recipient as Addressee};

    ghost was_put: { Self → List law.Event };

    ghost was_taken: { Self → List (List law.LinkOut) };

    // Whose output is taken from it, where anybody's is.
    ghost output_for: { Self → Option Addressee };

    // It was given this event and gave it back.
    ghost gave_back: { law.Event → Type 0 };

    /// Whose output is taken from it; `None` where nobody's is. Takes no memory.
    fn recipient(&self) -> Option<Recipient>
        ensures { result ≡ output_for self.now };

    /// Puts an event, or gives it back if there is no room for it now. It may wait for the core's lock, never for room,
    /// and takes no memory.
    fn put(&mut self, event: Event) -> Result<(), Event>
        ensures put { OnOk result (was_put self.new ≡ was_put self.old ++ event_seen event ∷ []) }
        ensures back { IfErr result (λ back. (event_seen back ≡ event_seen event)
            × (was_put self.new ≡ was_put self.old)) }
        ensures gave_back { IfErr result (λ _. gave_back (event_seen event)) }
        ensures none_taken { was_taken self.new ≡ was_taken self.old };

    /// Takes the next list of output, if there is one. Waits for nobody, takes no memory.
    fn take(&mut self) -> Option<ShortList<LinkOut>>
        ensures taken { IfSome result (λ outs. was_taken self.new
            ≡ was_taken self.old ++ map link_out_seen outs.items ∷ []) }
        ensures none { IfNone result (was_taken self.new ≡ was_taken self.old) }
        ensures none_put { was_put self.new ≡ was_put self.old };

    /// Steps the core over events that were put, and gives how many steps were made. A reader's handle only tries the
    /// core's lock; a writer's may wait for it. `AllocError` if memory ran out at the first step.
    fn turn<R: Wait>(&mut self, rt: &R, alloc: Global) -> Result<u32, AllocError>
        ensures none_put { was_put self.new ≡ was_put self.old }
        ensures none_taken { was_taken self.new ≡ was_taken self.old };

    /// Wakes the thread that writes the link whose events this handle puts, if it sleeps. Waits for nobody, takes no
    /// memory. By default it does nothing.
    fn wake_writer(&self) {}

    /// Whether the link whose events this handle puts is to be ended, since an event that was given back is never
    /// taken. It is asked behind such an event. By default it isn't.
    fn gives_up(&self) -> bool {
        false
    }

    /// Whether so much lies in the queue from which this handle takes that others wait: then a peer that takes nothing
    /// is given up sooner. Waits for nobody, takes no memory. By default nobody waits.
    fn holds_up_others(&mut self) -> bool
        ensures none_put { was_put self.new ≡ was_put self.old }
        ensures none_taken { was_taken self.new ≡ was_taken self.old }
    {
        false
    }

    /// Reports how many bytes of a link were part of no message: at the first, whenever they have doubled, and at the
    /// end of the stream. By default it does nothing.
    fn tell_skipped(&self, _count: u64) {}

    /// Reports frames that were written onto a link, one behind another, if a Reject, a ResendRequest or a Logout is
    /// among them. By default it does nothing.
    fn tell_sent(&self, _frames: &[u8]) {}
}
