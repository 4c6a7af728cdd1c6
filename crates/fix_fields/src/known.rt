//! The fields of a text that is known to be fields: nothing of it is tested.

ghost use Rattle.std.specs.Prelude.{◌≡◌, ◌≢◌, ◌≤◌, ◌+◌, length, slice_index, IfOk, is_some, true};
ghost use Rattle.fix_fields.specs.Front.{HasField, IsFront, IsTagAt, IsTagBegun};
ghost use Rattle.fix_fields.specs.Reading.{fields_of};
ghost use Rattle.fix_fields.specs.Spans.{AreSpans};

use crate::soh::{next_soh, soh_count};
use crate::span::{Span, TagPlace};
use std::alloc::{AllocError, Global};

/// The places of all fields of a text that is fields. One growth.
pub(crate) fn places_of(alloc: Global, text: &[u8]) -> Result<Vec<Span>, AllocError>
    requires { is_some (fields_of text.now) ≡ true }
    ensures { IfOk result (λ spans. AreSpans text.now spans.items) }
{
    let mut spans = Vec::with_capacity(alloc, soh_count(text))?;
    let mut at = 0;
    while at < text.len() {
        let span = known_front(text, at);
        spans.push_reserved(span);
        at = span.end + 1;
    }
    Ok(spans)
}

/// The field that is known to be written from `at` on, and where its value stands.
pub(crate) fn known_front(text: &[u8], at: usize) -> Span
    requires { HasField text.now at }
    ensures { IsFront text.now at result }
{
    let place = known_tag(text, at);
    let start = place.end + 1;
    let end = next_soh(text, start);
    Span {
        tag: place.tag,
        start,
        end,
    }
}

/// The tag that is known to be written from `at` on: mostly it has one digit or two.
fn known_tag(text: &[u8], at: usize) -> TagPlace
    requires { HasField text.now at }
    ensures { IsTagAt text.now at result }
{
    let one = with_digit(text, at, TagPlace { tag: 0, end: at });
    if text[one.end] == b'=' {
        return one;
    }
    let two = with_digit(text, at, one);
    if text[two.end] == b'=' {
        return two;
    }
    longer_tag(text, at, two)
}

/// The same, of which some digits were read.
fn longer_tag(text: &[u8], at: usize, begun: TagPlace) -> TagPlace
    requires field { HasField text.now at }
    requires begun { IsTagBegun text.now at begun }
    ensures { IsTagAt text.now at result }
{
    let mut place = begun;
    while text[place.end] != b'=' {
        place = with_digit(text, at, place);
    }
    place
}

/// What was read of a tag, with one digit more.
fn with_digit(text: &[u8], at: usize, begun: TagPlace) -> TagPlace
    requires field { HasField text.now at }
    requires begun { IsTagBegun text.now at begun }
    requires digit { slice_index text.now begun.end ≢ 61 }
    ensures begun { IsTagBegun text.now at result }
    ensures further { result.end ≡ begun.end + 1 }
{
    TagPlace {
        tag: begun.tag * 10 + u32::from(text[begun.end]) - u32::from(b'0'),
        end: begun.end + 1,
    }
}
