//! What turns come to.

/// How many steps a round made, how many events it left for a full outlet, and how many for which memory was refused.
#[derive(Clone, Copy, Debug, PartialEq, Eq)]
pub struct Turned {
    pub steps: u32,
    pub held: u32,
    pub refused: u32,
}

/// What became of an inlet's turn.
#[derive(Clone, Copy, PartialEq, Eq)]
pub enum Did {
    /// No event was known.
    Idle,
    /// The first event wasn't of the inlet's source.
    Dropped,
    /// The first event may tell somebody something whose ring is full.
    Held,
    /// The first event was stepped.
    Stepped,
    /// Memory was refused for the first event: it stays where it is.
    Refused,
}

impl Turned {
    ghost use Rattle.std.specs.Prelude.{◌≡◌, ◌<◌, ◌≤◌, ◌+◌, ◌^◌, List, ◌∷◌};
    ghost use Rattle.desk_steps.specs.declared.turned.Did.{Did};
    ghost use Rattle.desk_steps.specs.Turning.{counted};

    /// One turn more.
    pub(crate) fn count(&mut self, did: Did)
        requires few { self.old.steps + self.old.held + self.old.refused + 1 < 2 ^ 32 }
        ensures counts { (dids : List Did) → counted dids ≡ self.old → counted (did ∷ dids) ≡ self.new }
        ensures few { self.new.steps + self.new.held + self.new.refused
            ≤ self.old.steps + self.old.held + self.old.refused + 1 }
    {
        match did {
            Did::Idle | Did::Dropped => {}
            Did::Held => self.held += 1,
            Did::Stepped => self.steps += 1,
            Did::Refused => self.refused += 1,
        }
    }
}
