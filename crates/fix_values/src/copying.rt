//! Copies of values that may be missing.

ghost use Rattle.std.specs.Prelude.{◌≡◌, IfOk};

use crate::float_text::FloatText;
use fix_fields::Text;
use std::alloc::{AllocError, Global};

/// The same text in memory of its own, where there is one. One growth at most.
pub fn copied_text(alloc: Global, text: &Option<Text>) -> Result<Option<Text>, AllocError>
    ensures { IfOk result (λ copy. copy ≡ text.now) }
{
    match text {
        None => Ok(None),
        Some(text) => Ok(Some(Text::copied(alloc, text.as_slice())?)),
    }
}

/// The same float as it was written in memory of its own, where there is one. One growth at most.
pub fn copied_float(
    alloc: Global,
    float: &Option<FloatText>,
) -> Result<Option<FloatText>, AllocError>
    ensures { IfOk result (λ copy. copy ≡ float.now) }
{
    match float {
        None => Ok(None),
        Some(float) => Ok(Some(FloatText::copied(alloc, float.as_slice())?)),
    }
}
