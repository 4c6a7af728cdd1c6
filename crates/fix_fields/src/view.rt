//! The fields of a text, where it lies.

ghost use Rattle.std.specs.Option.{option_copied};
ghost use Rattle.std.specs.Prelude.{List, ◌≡◌, ◌≤◌, length, IfOk, MatchOption, None, Some, is_some, true};
ghost use Rattle.fix_fields.specs.Field.{Field, fields_text, first_value};
ghost use Rattle.fix_fields.specs.Reading.{fields_of};

use crate::fields::Fields;
use crate::front::front_of;
use crate::known::known_front;
use crate::soh::is_ended;
use std::alloc::{AllocError, Global};

/// The fields that a text is, lent: the text stays where it lies, and a value is found by looking through it. It takes
/// no memory; `to_fields` makes a copy in which values are found by their places.
#[derive(Clone, Copy)]
pub struct FieldsView<'a> {
    text: &'a [u8],
    pub ghost fields: { is_some (fields_of text.now) ≡ true },
}

impl<'a> FieldsView<'a> {
    ghost use Rattle.fix_fields.specs.View.{lent_fields};

    /// The fields that a text is, all of it; `None` where it isn't fields, as in `split`. Takes no memory.
    pub fn of(text: &'a [u8]) -> Option<FieldsView<'a>>
        ensures { MatchOption result (fields_of text.now ≡ None)
            (λ view. fields_of text.now ≡ Some (lent_fields view)) }
    {
        if are_fields(text) {
            Some(FieldsView::known(text))
        } else {
            None
        }
    }

    /// The fields of a text that is known to be fields: nothing is read. Takes no memory.
    pub fn known(text: &'a [u8]) -> FieldsView<'a>
        requires { is_some (fields_of text.now) ≡ true }
        ensures { fields_of text.now ≡ Some (lent_fields result) }
    {
        FieldsView { text }
    }

    /// The text of all fields, where it lies.
    pub fn text(&self) -> &'a [u8]
        ensures { fields_of result.now ≡ Some (lent_fields self.now) }
    {
        self.text
    }

    /// The value of the first field with this tag, where it lies; `None` where there is none. It looks through the
    /// text up to there. Takes no memory.
    pub fn first(&self, tag: u32) -> Option<&'a [u8]>
        ensures { option_copied result ≡ first_value tag (lent_fields self.now) }
    {
        first_of(self.text, tag)
    }

    /// A copy of the fields. Two growths.
    pub fn to_fields(&self, alloc: Global) -> Result<Fields, AllocError>
        ensures { IfOk result (λ fields. fields ≡ lent_fields self.now) }
    {
        Fields::known(alloc, self.text)
    }
}

/// Whether a text is fields, all of it. Takes no memory.
///
/// It is a function of its own where it is called, so that its loop has the registers.
#[inline(never)]
fn are_fields(text: &[u8]) -> bool
    ensures { result ≡ is_some (fields_of text.now) }
{
    if !is_ended(text) {
        return false;
    }
    let mut at = 0;
    while at < text.len() {
        let Some(span) = front_of(text, at) else {
            return false;
        };
        at = span.end + 1;
    }
    true
}

/// The value of the first field with this tag in a text that is fields.
fn first_of(text: &[u8], tag: u32) -> Option<&[u8]>
    requires { is_some (fields_of text.now) ≡ true }
    ensures { (fields : List Field) → fields_of text.now ≡ Some fields
        → option_copied result ≡ first_value tag fields }
{
    let mut at = 0;
    while at < text.len() {
        let span = known_front(text, at);
        if span.tag == tag {
            return Some(&text[span.start..span.end]);
        }
        at = span.end + 1;
    }
    None
}
