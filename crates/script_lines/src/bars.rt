//! Texts in which `|` stands for SOH.

ghost use Rattle.std.specs.Prelude.{◌≡◌, IfOk, is_some, Some};
ghost use Rattle.fix_fields.specs.Reading.{fields_of};
ghost use Rattle.script_lines.specs.Bars as spec;
ghost use Rattle.script_lines.specs.MarketLines.{IsReadWhere};

use crate::fault::LineFault;
use fix_fields::{Fields, SOH, split};
use std::alloc::{AllocError, Global};

/// The bytes of a text in which `|` stands for SOH. One growth, and room for a byte more.
pub fn soh_for_bars(alloc: Global, text: &[u8]) -> Result<Vec<u8>, AllocError>
    ensures { IfOk result (λ bytes. bytes.items ≡ spec.soh_for_bars text.now) }
{
    let mut bytes = Vec::with_capacity(alloc, text.len() + 1)?;
    for byte in text {
        bytes.push(if *byte == b'|' { SOH } else { *byte })?;
    }
    Ok(bytes)
}

/// The fields of a text in which `|` stands for SOH, the last of which is left out. `NotUnderstood` where the text
/// isn't fields, `NoMemory` where a growth was refused.
pub fn split_bars(alloc: Global, text: &[u8]) -> Result<Fields, LineFault>
    ensures fields { IfOk result (λ fields. fields_of (spec.with_soh text.now) ≡ Some fields) }
    ensures understood { IsReadWhere (is_some (fields_of (spec.with_soh text.now))) result }
{
    let mut bytes = soh_for_bars(alloc, text)?;
    bytes.push(SOH)?;
    split(alloc, bytes.as_slice())?.ok_or(LineFault::NotUnderstood)
}
