//! Laws of these definitions.

ghost use Rattle.std.specs.Prelude.{◌≡◌, ◌<◌, ◌^◌, ℕ, List, None, length};
ghost use Rattle.journal_pages.specs.declared.version.Version.{Version};
ghost use Rattle.journal_pages.specs.declared.version.Version.TheVariants.{Two};
ghost use Rattle.journal_days.specs.Day.{day_fault, version_of};
ghost use Rattle.gate_journal.specs.Kept.{Kept};
ghost use Rattle.journal_file.specs.declared.ending.Ending.{Ending};
ghost use Rattle.journal_file.specs.declared.fault.FileFault.{FileFault};
ghost use Rattle.journal_file.specs.File.{file_of, form_of};
ghost use Rattle.journal_file.specs.Said.{IsNoFile, IsParted, Says};

/// A file of either form that is over says one list of pages; that of a day's pages is of the second form by what
/// stands in it. It does nothing: its contract is the law.
pub fn files_are_one()
    ensures one { (form : Version) (p q : List (List ℕ)) → length (file_of form p) < 2 ^ 64
        → file_of form p ≡ file_of form q → p ≡ q }
    ensures form { (pages : List (List ℕ)) → day_fault Two pages ≡ None → form_of (file_of Two pages) ≡ Two }
{}

/// A file says one thing at most; and one that is parted into the pages of a day and an ending is refused for
/// nothing. It does nothing: its contract is the law.
pub fn files_are_read()
    ensures once { (file : List ℕ) (day other : Kept) (e f : Ending) → length file < 2 ^ 64 → Says file day e
        → Says file other f → (day ≡ other) × (e ≡ f) }
    ensures read { (file : List ℕ) (pages : List (List ℕ)) (ending : Ending) (n : ℕ) (fault : FileFault)
        → length file < 2 ^ 64 → IsParted (form_of file) file pages ending
        → day_fault (version_of pages) pages ≡ None → IsNoFile file n fault → ⊥ }
{}
