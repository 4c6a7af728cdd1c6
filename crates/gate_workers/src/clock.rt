//! A worker's clock.

/// The time, and a pause. Contracts see the moments that it reported, in order, where they are known.
pub trait Clock {
    ghost use Rattle.std.specs.Prelude.{◌≡◌, ℕ, List, [], ◌∷◌, Option};
    ghost use Rattle.gate_workers.specs.Moments.{Tells};

    ghost reported: { Self → Option (List ℕ) };

    /// The moment, in milliseconds since 1970. It never goes back.
    fn now_ms(&mut self) -> u64
        ensures tells { Tells (reported self.old) (reported self.new) (result ∷ []) };

    /// Pauses: called when a worker's step moved nothing. How long it lasts is the clock's choice.
    fn pause(&mut self)
        ensures silent { reported self.new ≡ reported self.old };
}
