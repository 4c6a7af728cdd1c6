//! The fields of a text that may be none: all of it is tested.

ghost use Rattle.std.specs.Prelude.{◌≡◌, ◌≤◌, length, IfOk, MatchOption, None};
ghost use Rattle.fix_fields.specs.Reading.{fields_of};
ghost use Rattle.fix_fields.specs.Spans.{AreSpans};

use crate::front::front_of;
use crate::soh::{is_ended, soh_count};
use crate::span::Span;
use std::alloc::{AllocError, Global};

/// The places of all fields of a text; `None` where it isn't fields. One growth.
///
/// It is a function of its own where it is called, so that its loop has the registers.
#[inline(never)]
pub(crate) fn places_in(alloc: Global, text: &[u8]) -> Result<Option<Vec<Span>>, AllocError>
    ensures { IfOk result (λ found. MatchOption found (fields_of text.now ≡ None)
        (λ spans. AreSpans text.now spans.items)) }
{
    if !is_ended(text) {
        return Ok(None);
    }
    let mut spans = Vec::with_capacity(alloc, soh_count(text))?;
    let mut at = 0;
    while at < text.len() {
        let Some(span) = front_of(text, at) else {
            return Ok(None);
        };
        spans.push_reserved(span);
        at = span.end + 1;
    }
    Ok(Some(spans))
}
