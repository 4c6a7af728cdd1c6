//! A row of shelves.

ghost use Rattle.std.specs.Prelude.{◌≡◌, ◌<◌, ◌++◌, ◌∷◌, [], List, IfOk, OnOk, length, get_or, replicate, set};

use std::alloc::{AllocError, Global};
use std::marker::Model;

/// A row of shelves, each with items in the order in which they were put there. Contracts see a list of lists.
#[derive(Drop)]
pub(crate) struct Shelves<T: Drop> {
    shelves: Vec<Vec<T>>,
}

impl<T: Drop> Model for Shelves<T> {
    ghost use Rattle.std.specs.Prelude.{List, map};

    ghost Value = { List (List T) };

    ghost view = { λ s. map (λ shelf. shelf.items) s.shelves.items };
}

impl<T: Drop> Shelves<T> {
    /// So many empty shelves.
    pub(crate) fn new(alloc: Global, count: usize) -> Result<Shelves<T>, AllocError>
        ensures { IfOk result (λ shelves. shelves ≡ replicate count []) }
    {
        let mut shelves = Vec::with_capacity(alloc, count)?;
        for _ in 0..count {
            shelves.push(Vec::new(alloc))?;
        }
        Ok(Shelves { shelves })
    }

    /// How many shelves there are.
    pub(crate) fn count(&self) -> usize
        ensures { result ≡ length self.now }
    {
        self.shelves.len()
    }

    /// Puts an item behind those of a shelf. `AllocError` may have let items of it go.
    pub(crate) fn put(&mut self, place: usize, item: T) -> Result<(), AllocError>
        requires { place < length self.old }
        ensures same { length self.new ≡ length self.old }
        ensures put { OnOk result (self.new ≡ set self.old place (get_or self.old place [] ++ item ∷ [])) }
    {
        self.shelves[place].push(item)?;
        Ok(())
    }

    /// The items of a shelf, in their order.
    pub(crate) fn shelf(&self, place: usize) -> &[T]
        requires { place < length self.now }
        ensures { result.now ≡ get_or self.now place [] }
    {
        self.shelves[place].as_slice()
    }
}
