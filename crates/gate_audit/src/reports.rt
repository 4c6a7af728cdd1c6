//! What reports say.

ghost use Rattle.std.specs.Prelude.{◌≡◌, slice_index};
ghost use Rattle.gate_law.specs.fix_fields.Field.{IsValue};
ghost use Rattle.gate_law.specs.fix_fields.Field as tags;
ghost use Rattle.gate_audit.specs.Pairs as pairs;
ghost use Rattle.gate_audit.specs.Read.{opens_new_order};

use fix_fields::Fields;

/// The value of a tag, or no bytes where there is none.
pub fn text(report: &Fields, tag: u32) -> &[u8]
    ensures text { result.now ≡ tags.text tag report.now }
    ensures value { IsValue result.now }
{
    match report.first(tag) {
        Some(value) => value,
        None => &[],
    }
}

/// Whether this report tells that a new order was accepted: an execution report with ExecType (150) A, pending new.
///
/// Source: FIX 4.4 Volume 6, "ExecType".
pub fn opens_order(report: &Fields) -> bool
    ensures { result ≡ opens_new_order report.now }
{
    text(report, 35) == b"8".as_slice() && text(report, 150) == b"A".as_slice()
}

/// Whether this report tells that a token was given: an execution report with ExecType (150) A, pending new, or E,
/// pending replace.
///
/// Source: FIX 4.4 Volume 6, "ExecType".
pub fn gives_token(report: &Fields) -> bool
    ensures { result ≡ pairs.gives_token report.now }
{
    let kind = text(report, 150);
    text(report, 35) == b"8".as_slice() && (kind == b"A".as_slice() || kind == b"E".as_slice())
}

/// The first byte of a value, 0 where there is none.
pub fn first_byte(value: &[u8]) -> u8
    ensures { result ≡ slice_index value.now 0 }
{
    match value.first() {
        Some(byte) => *byte,
        None => 0,
    }
}
