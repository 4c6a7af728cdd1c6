//! The fields of FIX messages that are handed on.

ghost use Rattle.std.specs.Prelude.{◌≡◌, ◌==◌, ◌++◌, IfOk, OnOk};
ghost use Rattle.std.specs.List.{list_any};
ghost use Rattle.fix_fields.specs.Lent.{lent};
ghost use Rattle.day_export.specs.Exported as spec;
ghost use Rattle.day_export.specs.Said.{fields_said, said_of};

use crate::cells::Cell;
use fix_fields::{Field, Fields};
use itoa::Buffer;
use std::alloc::{AllocError, Global};

/// Whether a field of this tag is handed on. Username (553), Password (554), NewPassword (925), RawData (96) and all
/// that isn't listed aren't.
pub(crate) fn is_exported(tag: u32) -> bool
    ensures { result ≡ spec.is_exported tag }
{
    matches!(
        tag,
        6 | 11
            | 14
            | 17
            | 31
            | 32
            | 34
            | 35
            | 37
            | 38
            | 39
            | 40
            | 41
            | 44
            | 54
            | 55
            | 58
            | 59
            | 102
            | 103
            | 110
            | 150
            | 151
            | 371
            | 372
            | 373
            | 378
            | 380
            | 434
            | 528
    )
}

/// Whether a message of this type (35) is one of the order level: a new order, a request, a report, a reject.
pub(crate) fn is_of_orders(kind: &[u8]) -> bool
    ensures { result ≡ spec.is_of_orders kind.now }
{
    match kind {
        [letter] => is_order_letter(*letter),
        _ => false,
    }
}

/// The same of a type of one letter.
fn is_order_letter(letter: u8) -> bool
    ensures { result ≡ list_any (λ known. known == letter) spec.order_letters }
{
    matches!(letter, b'D' | b'F' | b'G' | b'8' | b'9' | b'3' | b'j')
}

/// The fields of a message that are handed on, in their order.
pub(crate) fn cells_of(alloc: Global, fields: &Fields) -> Result<Vec<Cell>, AllocError>
    ensures { IfOk result (λ cells. cells.items ≡ fields_said fields.now) }
{
    let mut cells = Vec::new(alloc);
    for i in 0..fields.len() {
        push_field(&mut cells, alloc, fields.at(i))?;
    }
    Ok(cells)
}

/// Adds a field, where it is handed on.
fn push_field(cells: &mut Vec<Cell>, alloc: Global, field: Field<'_>) -> Result<(), AllocError>
    ensures { OnOk result (cells.new.items ≡ cells.old.items ++ said_of (lent field.entry)) }
{
    if !is_exported(field.tag) {
        return Ok(());
    }
    let mut buffer = Buffer::new();
    let name = buffer.format(field.tag).as_bytes();
    cells.push(Cell::text(alloc, name, field.value)?)?;
    Ok(())
}
