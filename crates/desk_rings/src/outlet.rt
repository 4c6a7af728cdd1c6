//! The end by which one thread takes a link's output.

use crate::finished::{Finished, FinishedEnd};
use crate::name::DeskName;
use gate_events::{Output, Recipient};
use rtrb::Consumer;
use std::marker::{Model, PhantomData};

/// The consumer's end of a queue of output lists, all for one client or port. Contracts see its position, its
/// recipient, what was taken, and what it knows to be in the queue.
pub struct Outlet<K: DeskName> {
    at: usize,
    to: Recipient,
    consumer: Consumer<Output>,
    of: PhantomData<K>,
}

// Not derived: then each way out drops it in one call (docs/DECISIONS.md, "Drops").
impl<K: DeskName> Drop for Outlet<K> {
    fn drop(self) {
        let Outlet {
            at: _,
            to: _,
            consumer: _,
            of: _,
        } = self;
    }
}

impl<K: DeskName> Model for Outlet<K> {
    ghost use Rattle.std.specs.Prelude.{◌≡◌, Some, slice_get};
    ghost use Rattle.rtrb.specs.Ring.{received, known_items};
    ghost use Rattle.desk_rings.specs.Rings.{Taking, consumer_ring};

    ghost Value = { Taking };

    ghost view = { λ s. record {
      at = s.at;
      to = s.to;
      took = received s.consumer;
      ahead = known_items s.consumer;
    } };

    ghost invariant = { λ s. slice_get K.outlets s.at ≡ Some (record { to = s.to; ring = consumer_ring s.consumer }) };
}

impl<K: DeskName> Outlet<K> {
    ghost use Rattle.std.specs.Prelude.{◌≡◌, ◌<◌, ◌++◌, [], ◌∷◌, Some, IfSome, IfNone, IsSome, length, slice_get};
    ghost use mathlib.Core.List.{IsPrefix};
    ghost use Rattle.rtrb.specs.Ring.{received, known_items};
    ghost use Rattle.desk_rings.specs.Rings.{NamedOutlet, consumer_ring, took_at};

    /// The end of a queue through which nothing went yet, at its position.
    pub fn new(at: usize, to: Recipient, consumer: Consumer<Output>) -> Outlet<K>
        requires named { slice_get K.outlets at ≡ Some (record { to = to; ring = consumer_ring consumer }) }
        requires empty { (received consumer ≡ []) × (known_items consumer ≡ []) }
        ensures { (result.at ≡ at) × (result.to ≡ to) × (result.took ≡ []) × (result.ahead ≡ []) }
    {
        Outlet {
            at,
            to,
            consumer,
            of: PhantomData,
        }
    }

    /// Its position among the desk's outlets.
    pub fn position(&self) -> usize
        ensures { result ≡ self.now.at }
    {
        self.at
    }

    /// Whose links its lists are for.
    pub fn recipient(&self) -> Recipient
        ensures value { result ≡ self.now.to }
        ensures named { (name : NamedOutlet) → slice_get K.outlets self.now.at ≡ Some name → result ≡ name.to }
    {
        self.to
    }

    /// The next list, or `None` if it knows of none.
    pub fn take(&mut self) -> Option<Output>
        ensures same { (self.new.at ≡ self.old.at) × (self.new.to ≡ self.old.to) }
        ensures some { IfSome result (λ output. self.new.took ≡ self.old.took ++ output ∷ []) }
        ensures none { IfNone result ((self.new.took ≡ self.old.took) × (self.new.ahead ≡ [])) }
        ensures succeeds { 0 < length self.old.ahead → IsSome result }
    {
        if self.consumer.is_empty() {
            return None;
        }
        Some(self.consumer.pop_known())
    }

    /// How many lists lie in the queue, after a look.
    pub fn queued(&mut self) -> usize
        ensures same { (self.new.at ≡ self.old.at) × (self.new.to ≡ self.old.to) × (self.new.took ≡ self.old.took) }
        ensures looked { IsPrefix self.old.ahead self.new.ahead }
        ensures value { result ≡ length self.new.ahead }
    {
        self.consumer.slots()
    }

    /// Ends the outlet, and says what was taken.
    pub fn finish(self) -> Finished<K>
        ensures { result ≡ took_at self.at self.to self.took }
    {
        let Outlet {
            at,
            to,
            consumer,
            of: _,
        } = self;
        Finished::new(at, FinishedEnd::Took(to, consumer))
    }
}
