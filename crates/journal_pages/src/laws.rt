//! Laws of these definitions.

ghost use Rattle.std.specs.Prelude.{◌≡◌, ◌<◌, ◌^◌, ◌++◌, ◌∷◌, ℕ, List, true};
ghost use Rattle.journal_pages.specs.Record.{Record, Stands, front, is_sound, record_bytes, records_in};

/// What a record with what its kind has is written as is read as this record, whatever follows. It does nothing: its
/// contract is the law.
pub fn written_records_are_read()
    ensures { (r : Record) (rest : List ℕ) → r.source < 2 ^ 16 → r.link < 2 ^ 64 → r.at < 2 ^ 64
        → is_sound r ≡ true → front (record_bytes r ++ rest) ≡ Stands r }
{}

/// Records that are written one behind another are read as these records, one by one. It does nothing: its contract is
/// the law.
pub fn written_lists_are_read()
    ensures { (r : Record) (rest : List ℕ) → r.source < 2 ^ 16 → r.link < 2 ^ 64 → r.at < 2 ^ 64
        → is_sound r ≡ true → records_in (record_bytes r ++ rest) ≡ r ∷ records_in rest }
{}
