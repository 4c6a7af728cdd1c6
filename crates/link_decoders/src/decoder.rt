//! A decoder: bytes of a stream in, events out.

use crate::decode_fault::DecodeFault;
use gate_events::Event;
use std::alloc::{AllocError, Global};

/// Makes events of the bytes of a stream, one for each message that is whole in it.
///
/// Contracts see whose events they are, and which events were made of which bytes.
pub trait Decoder: Drop {
    ghost use Rattle.std.specs.Prelude.{◌≡◌, ◌++◌, ℕ, List, Bool, true, Ok, None, OnOk, OnErr, IfOk, IfSome};
    ghost use Rattle.gate_law.specs.Events as law;
    ghost use Rattle.link_decoders.specs.Making.{Feeds, Makes, event_moment};
    ghost use Rattle.gate_events.specs.Seen.{event_seen};

    // The number of the client or port, and of the link.
    ghost source: { Self → ℕ × ℕ };

    // These bytes were taken, and these events were made of them, but for those that are still to be made.
    ghost made: { Self → List ℕ → List law.Event → Type 0 };

    // These are all events of these bytes; behind them comes what can be none, or not.
    ghost are_all: { Self → Bool → List ℕ → List law.Event → Type 0 };

    // How many are still to be made.
    ghost to_make: { Self → ℕ };

    // How many bytes of what was taken are part of no message.
    ghost skips: { Self → ℕ };

    /// Takes the next bytes of the stream. `AllocError` leaves everything as it was.
    fn feed(&mut self, alloc: Global, piece: &[u8]) -> Result<(), AllocError>
        ensures ok { OnOk result (Feeds made piece.now self.old self.new) }
        ensures err { OnErr result (self.new ≡ self.old) }
        ensures source { source self.new ≡ source self.old };

    /// Makes the next event, with this moment; `None` if no message is whole yet. `Malformed` if none can follow; after
    /// `NoMemory` the same event is made next time.
    fn make(&mut self, alloc: Global, at: u64) -> Result<Option<Event>, DecodeFault>
        ensures makes { Makes made are_all to_make result self.old self.new }
        ensures moment { IfOk result (λ next. IfSome next (λ event. event_moment (event_seen event) ≡ at)) }
        ensures source { source self.new ≡ source self.old };

    /// Whether it holds no byte: then there is no event to be made, and `make` needn't be asked. Takes no memory.
    fn is_idle(&self) -> bool
        ensures { result ≡ true → Makes made are_all to_make (Ok None) self.now self.now };

    /// How many bytes were skipped because they are part of no message. Takes no memory.
    fn skipped(&self) -> u64
        ensures { result ≡ skips self.now };
}
