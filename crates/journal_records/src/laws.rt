//! Laws of these definitions.

ghost use Rattle.std.specs.Prelude.{◌≡◌, ◌≤◌, ◌<◌, ◌++◌, ◌∷◌, [], List, Some, None, true, ℕ, get_or};
ghost use Rattle.gate_law.specs.Events.{Batch};
ghost use Rattle.gate_events.specs.declared.event.Event.{Event};
ghost use Rattle.journal_pages.specs.Page.{batch_at};
ghost use Rattle.journal_pages.specs.Record.{Record, is_sound};
ghost use Rattle.journal_pages.specs.declared.place.Place.TheVariants.{BetweenBatches, InBatch};
ghost use Rattle.journal_records.specs.Events.{event_in, event_record, AreItsFields};
ghost use Rattle.journal_pages.specs.Ordered.{AreSound, AreWritable, order_fault, place_behind};
ghost use Rattle.journal_records.specs.Days.{batches_in, events_in};
ghost use Rattle.journal_records.specs.Parts.{batch_records, end_record, turn_records};
ghost use Rattle.journal_records.specs.Reading.{batch_in, behind_parts};
ghost use Rattle.journal_records.specs.Whole.{IsTurn, IsWholeBatch};

/// What an event is written as is read as this event. It does nothing: its contract is the law.
pub fn written_events_are_read()
    ensures { (e : Event) → 1 ≤ (event_record e).source → AreItsFields e → event_in (event_record e) ≡ Some e }
{}

/// What is read as an event is written as it was read. It does nothing: its contract is the law.
pub fn read_events_are_written()
    ensures { (r : Record) (e : Event) → is_sound r ≡ true → ((i : ℕ) → get_or r.payload i 0 < 256)
        → event_in r ≡ Some e → event_record e ≡ r }
{}

/// What a batch is written as is read as this batch, and its end and what follows stand behind it. It does nothing: its
/// contract is the law.
pub fn written_batches_are_read()
    ensures read { (at : ℕ) (b : Batch) (rest : List Record) → IsWholeBatch b
        → batch_in (batch_records at b ++ rest) ≡ b }
    ensures behind { (at : ℕ) (b : Batch) (rest : List Record)
        → behind_parts (batch_records at b ++ rest) ≡ end_record at ∷ rest }
{}

/// Records that stand in order behind an event of this moment, up to an end, are those that the batch which is read of
/// them is written as. It does nothing: its contract is the law.
pub fn read_batches_are_written()
    ensures { (at : ℕ) (rs rest : List Record) (end : Record) → order_fault (InBatch (batch_at at)) rs ≡ None
        → AreSound rs → behind_parts rs ≡ end ∷ rest → batch_records at (batch_in rs) ++ rest ≡ rs }
{}

/// The records of an event and its batch can be written, stand in order behind whole batches, and are whole. It does
/// nothing: its contract is the law.
pub fn turns_are_whole()
    ensures writable { (e : Event) (b : Batch) → IsTurn e b → AreWritable (turn_records e b) }
    ensures order { (e : Event) (b : Batch) → order_fault BetweenBatches (turn_records e b) ≡ None }
    ensures end { (e : Event) (b : Batch) → place_behind BetweenBatches (turn_records e b) ≡ BetweenBatches }
{}

/// The records of an event and its batch, behind others, are read as this event and this batch behind theirs. It does
/// nothing: its contract is the law.
pub fn turns_are_read()
    ensures events { (rs : List Record) (e : Event) (b : Batch) → IsTurn e b
        → events_in (rs ++ turn_records e b) ≡ events_in rs ++ e ∷ [] }
    ensures batches { (rs : List Record) (e : Event) (b : Batch) → IsTurn e b
        → batches_in (rs ++ turn_records e b) ≡ batches_in rs ++ b ∷ [] }
{}
