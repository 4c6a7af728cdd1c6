//! What follows of what a crash leaves.

ghost use Rattle.std.specs.Prelude.{◌≡◌, ◌<◌, ◌^◌, ℕ, List, None, length};
ghost use mathlib.Core.List.{IsPrefix};
ghost use Rattle.journal_pages.specs.declared.version.Version.TheVariants.{Two};
ghost use Rattle.journal_file.specs.Day.{day_fault};
ghost use Rattle.journal_file.specs.Kept.{Kept};
ghost use Rattle.journal_file.specs.declared.ending.Ending.{Ending};
ghost use Rattle.journal_file.specs.File.{sized_pages};
ghost use Rattle.journal_file.specs.Said.{Says};
ghost use Rattle.journal_log.specs.Crash.{StandsBefore};

/// Whatever a crash left behind the pages that were acknowledged, the pages of a day: a file that is read says a day
/// that begins with them. It does nothing: its contract is the law.
pub fn acknowledged_pages_are_read()
    ensures { (told : List (List ℕ)) (left : List ℕ) (day : Kept) (ending : Ending) → day_fault Two told ≡ None
        → length left < 2 ^ 64 → StandsBefore (sized_pages Two told) left → Says left day ending
        → IsPrefix told day.pages }
{}
