//! Settling the parts, and putting them back.

ghost use Rattle.std.specs.Prelude.{◌≡◌};
ghost use Rattle.gate_core.specs.State.{parts_now, parts_settled};

use super::Parts;
use std::hash::BuildHasher;

impl<S: BuildHasher + Drop> Parts<S> {
    /// From now on the parts can be put back to how they are now. Takes no memory.
    pub(crate) fn settle(&mut self)
        ensures now { parts_now self.new ≡ parts_now self.old }
        ensures settled { parts_settled self.new ≡ parts_now self.old }
    {
        self.clients.settle();
        self.ports.settle();
        self.orders.settle();
    }

    /// Puts the parts back to how they were settled: every session with its link, every order, number and message that
    /// is outstanding. Takes no memory.
    pub(crate) fn undo(&mut self)
        ensures now { parts_now self.new ≡ parts_settled self.old }
        ensures settled { parts_settled self.new ≡ parts_settled self.old }
    {
        self.clients.undo();
        self.ports.undo();
        self.orders.undo();
    }
}
