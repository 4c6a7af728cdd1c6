//! Where a search for a tag begins: behind fields in front that are known to have other tags.

ghost use Rattle.std.specs.Prelude.{◌≡◌, ◌≢◌, ◌≤◌, ◌<◌, ◌%◌, ◌==◌, ℕ, List, length, find, slice_index, IsTrue};
ghost use Rattle.fix_fields.specs.declared.span.Span.{Span};
ghost use Rattle.fix_fields.specs.Skips.{AreSkips};

use crate::span::Span;

/// Tags are told apart by their remainder by this.
pub(crate) const REMAINDERS: usize = 64;

/// No field is passed over.
pub(crate) fn no_skips() -> [u8; REMAINDERS]
    ensures { (spans : List Span) → AreSkips result spans }
{
    [0u8; REMAINDERS]
}

/// For each remainder, how many fields in front have tags that leave others: 255 at most.
pub(crate) fn skips_of(spans: &[Span]) -> [u8; REMAINDERS]
    ensures { AreSkips result spans.now }
{
    skips_among(spans, u8::try_from(spans.len()).unwrap_or(u8::MAX))
}

/// The same, of so many fields from the first on.
fn skips_among(spans: &[Span], count: u8) -> [u8; REMAINDERS]
    requires { count ≤ length spans.now }
    ensures { AreSkips result spans.now }
{
    let mut skips = [count; REMAINDERS];
    let mut at = count;
    while at > 0 {
        at -= 1;
        let span = spans[usize::from(at)];
        set_skip(&mut skips, span.tag, at);
    }
    skips
}

/// Sets how many fields are passed over for the remainder of a tag.
fn set_skip(skips: &mut [u8; REMAINDERS], tag: u32, count: u8)
    ensures set { slice_index skips.new (tag % 64) ≡ count }
    ensures others { (remainder : ℕ) → remainder ≢ tag % 64
        → slice_index skips.new remainder ≡ slice_index skips.old remainder }
{
    skips[remainder_of(tag)] = count;
}

/// The remainder of a tag.
fn remainder_of(tag: u32) -> usize
    ensures value { result ≡ tag % 64 }
    ensures within { result < 64 }
{
    (tag % 64) as usize
}

/// Whether so many fields in front are known to have other tags.
pub(crate) fn is_new_behind(skips: &[u8; REMAINDERS], tag: u32, count: usize) -> bool
    ensures { IsTrue result → count ≤ slice_index skips.now (tag % 64) }
{
    count <= usize::from(skips[remainder_of(tag)])
}

/// The place of the first field with this tag.
pub(crate) fn first_span(spans: &[Span], skips: &[u8; REMAINDERS], tag: u32) -> Option<Span>
    requires { AreSkips skips.now spans.now }
    ensures { result ≡ find (λ span. span.tag == tag) spans.now }
{
    let behind = usize::from(skips[remainder_of(tag)]);
    first_among(&spans[behind..], tag)
}

/// The place of the first of these fields with this tag.
fn first_among(spans: &[Span], tag: u32) -> Option<Span>
    ensures { result ≡ find (λ span. span.tag == tag) spans.now }
{
    for span in spans {
        if span.tag == tag {
            return Some(*span);
        }
    }
    None
}
