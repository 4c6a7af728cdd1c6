//! Pages.

ghost use Rattle.std.specs.Prelude.{◌≡◌, ◌++◌, ◌∷◌, [], List, ℕ};
ghost use Rattle.std.specs.Borrow.{ftrue};

use std::marker::{Model, PhantomData};

/// Pages that were noted, each with its bytes, in order. Contracts see them.
#[derive(Drop)]
pub struct NotedPages {
    marker: PhantomData<u8>,
    pub ghost pages: { List (List ℕ) },
}

impl Model for NotedPages {
    ghost also_owns = { λ _. ftrue };
}

impl NotedPages {
    /// None yet.
    pub fn new() -> NotedPages
        ensures { result.pages ≡ [] }
    {
        NotedPages {
            marker: PhantomData,
        }
    }

    /// Notes a page of these bytes behind those before. Takes no memory.
    pub fn note(&mut self, _page: &[u8])
        ensures { self.new.pages ≡ self.old.pages ++ _page.now ∷ [] }
    {}
}
