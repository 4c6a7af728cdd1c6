//! Laws of these definitions.

ghost use Rattle.std.specs.Prelude.{◌≡◌, ◌++◌, ◌∷◌, [], ◌%◌, ◌^◌, ℕ, List, None, length};
ghost use Rattle.journal_pages.specs.declared.place.Place.TheVariants.{BetweenBatches};
ghost use Rattle.journal_pages.specs.Ordered.{AreWritable, order_fault, place_behind};
ghost use Rattle.journal_pages.specs.Record.{Record};
ghost use Rattle.journal_pages.specs.declared.version.Version.TheVariants.{One, Two};
ghost use Rattle.journal_pages.specs.Page.{page_number};
ghost use Rattle.journal_days.specs.Cut.{with_records};
ghost use Rattle.journal_days.specs.Day.{day_fault, day_records};

/// Whole batches in order, written behind the pages of a day, are the pages of a day still, and are read from it behind
/// what is read before, wherever the pages were cut. It does nothing: its contract is the law.
pub fn days_go_on()
    ensures day { (pages : List (List ℕ)) (rs : List Record) → day_fault Two pages ≡ None → AreWritable rs
        → order_fault BetweenBatches rs ≡ None → place_behind BetweenBatches rs ≡ BetweenBatches
        → day_fault Two (with_records pages rs) ≡ None }
    ensures records { (pages : List (List ℕ)) (rs : List Record) → day_fault Two pages ≡ None → AreWritable rs
        → order_fault BetweenBatches rs ≡ None → day_records Two (with_records pages rs) ≡ day_records Two pages ++ rs }
{}

/// In a day of version 2 each page's number is how many records the pages before it have, as a number of 64 bits. It
/// does nothing: its contract is the law.
pub fn numbers_count_records()
    ensures { (before after : List (List ℕ)) (page : List ℕ) → day_fault Two (before ++ page ∷ after) ≡ None
        → page_number page ≡ length (day_records Two before) % 2 ^ 64 }
{}

/// The records of a day of version 1, written anew, are a day of version 2 with the same records. It does nothing: its
/// contract is the law.
pub fn days_are_rewritten()
    ensures day { (pages : List (List ℕ)) → day_fault One pages ≡ None → AreWritable (day_records One pages)
        → day_fault Two (with_records [] (day_records One pages)) ≡ None }
    ensures records { (pages : List (List ℕ)) → day_fault One pages ≡ None → AreWritable (day_records One pages)
        → day_records Two (with_records [] (day_records One pages)) ≡ day_records One pages }
{}
