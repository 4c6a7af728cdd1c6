//! Whole turns as pages.

ghost use Rattle.std.specs.Prelude.{◌≡◌, ◌%◌, ◌^◌, length, true};
ghost use Rattle.journal_pages.specs.declared.version.Version.TheVariants.{Two};
ghost use Rattle.journal_records.specs.journal_days.Cut.{texts};
ghost use Rattle.journal_records.specs.journal_days.Day.{are_pages};

use crate::history::count_of;
use crate::turns::Turns;
use journal_days::DayRecords;
use journal_pages::Version;
use std::marker::Model;

/// Pages of version 2, and the turns that they say: a part of a day, say, whose first page begins with an event and
/// whose last one ends behind a batch. Each page was judged, and isn't tested again. Contracts see the events, the
/// batches and the pages.
#[derive(Drop)]
pub struct TurnPages {
    pages: Vec<Vec<u8>>,
}

impl Model for TurnPages {
    ghost use Rattle.std.specs.Prelude.{◌≡◌, true};
    ghost use Rattle.journal_pages.specs.declared.version.Version.TheVariants.{Two};
    ghost use Rattle.journal_records.specs.journal_days.Cut.{texts};
    ghost use Rattle.journal_records.specs.journal_days.Day.{are_pages};
    ghost use Rattle.gate_journal.specs.Kept.{Kept, kept_in};

    ghost Value = { Kept };

    ghost view = { λ t. kept_in (texts t.pages.items) };

    ghost invariant = { λ t. are_pages Two (texts t.pages.items) ≡ true };
}

impl TurnPages {
    ghost use Rattle.gate_journal.specs.Kept.{kept_in};
    ghost use Rattle.gate_journal.specs.Left.{batches_left, events_left};

    /// What these pages say, the oldest first, each of which is known to be one of version 2. Takes no memory.
    pub fn of_judged(pages: Vec<Vec<u8>>) -> TurnPages
        requires { are_pages Two (texts pages.items) ≡ true }
        ensures { result ≡ kept_in (texts pages.items) }
    {
        TurnPages { pages }
    }

    /// The turns, to be read one by one, in order. Takes no memory.
    pub fn turns(&self) -> Turns<'_>
        ensures events { events_left result ≡ self.now.events }
        ensures batches { batches_left result ≡ self.now.batches }
    {
        Turns::of_judged(self.pages.as_slice())
    }

    /// How many batches they say. Takes no memory.
    pub fn count(&self) -> u64
        ensures { result ≡ length self.now.batches % 2 ^ 64 }
    {
        count_of(DayRecords::of_judged(Version::Two, self.pages.as_slice()))
    }

    /// The pages, the oldest first. Takes no memory.
    pub fn pages(&self) -> &[Vec<u8>]
        ensures pages { texts result.now ≡ self.now.pages }
        ensures same { self.now ≡ kept_in (texts result.now) }
    {
        self.pages.as_slice()
    }
}
