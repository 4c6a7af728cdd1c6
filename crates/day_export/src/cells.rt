//! The cells of a row.

ghost use Rattle.std.specs.Prelude.{◌≡◌};
ghost use Rattle.day_export.specs.Said as spec;

use itoa::Buffer;
use std::alloc::{AllocError, Global};
use std::marker::Model;

/// A value with the name of its column. Contracts see both.
#[derive(Drop)]
pub(crate) struct Cell {
    name: Vec<u8>,
    value: Vec<u8>,
}

impl Model for Cell {
    ghost use Rattle.day_export.specs.Said.{Said};

    ghost Value = { Said };

    ghost view = { λ c. record { name = c.name.items; value = c.value.items } };
}

impl Cell {
    ghost use Rattle.std.specs.Prelude.{◌≡◌, IfOk, decimal};

    /// A text.
    pub(crate) fn text(alloc: Global, name: &[u8], value: &[u8]) -> Result<Cell, AllocError>
        ensures { IfOk result (λ c. c ≡ record { name = name.now; value = value.now }) }
    {
        let name = Vec::from_slice(alloc, name)?;
        let value = Vec::from_slice(alloc, value)?;
        Ok(Cell { name, value })
    }

    /// A number.
    pub(crate) fn number(alloc: Global, name: &[u8], value: u64) -> Result<Cell, AllocError>
        ensures { IfOk result (λ c. c ≡ record { name = name.now; value = decimal value }) }
    {
        let mut buffer = Buffer::new();
        Cell::text(alloc, name, buffer.format(value).as_bytes())
    }

    /// The name of its column.
    pub(crate) fn name(&self) -> &[u8]
        ensures { result.now ≡ self.now.name }
    {
        self.name.as_slice()
    }

    /// Its value.
    pub(crate) fn value(&self) -> &[u8]
        ensures { result.now ≡ self.now.value }
    {
        self.value.as_slice()
    }
}

/// The value of a column, empty where there is none.
pub(crate) fn value_of<'a>(cells: &'a [Cell], name: &[u8]) -> &'a [u8]
    ensures { result.now ≡ spec.value_of name.now cells.now }
{
    match cells {
        [cell, cells @ ..] => {
            if cell.name() == name {
                cell.value()
            } else {
                value_of(cells, name)
            }
        }
        [] => b"",
    }
}
