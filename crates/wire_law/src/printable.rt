//! The bytes that a text on the wire is made of.

ghost use Rattle.std.specs.Prelude.{◌≡◌, ◌≤◌, ◌-◌, ◌++◌, length, replicate, IsTrue};
ghost use Rattle.std.specs.List.{list_all};
ghost use Rattle.wire_law.specs.Printable as printable;
ghost use Rattle.wire_law.specs.Printable.{ArePrintable};

/// Whether the market takes this byte in a text: 32 to 126, a space or an ASCII character that is seen.
///
/// Source: OUCH 4.2, "Data Types", alpha.
pub fn is_printable(byte: u8) -> bool
    ensures { result ≡ printable.is_printable byte }
{
    byte >= 32 && byte <= 126
}

/// Whether the market takes each byte of this text.
pub fn are_printable(text: &[u8]) -> bool
    ensures { result ≡ list_all printable.is_printable text.now }
{
    text.iter().all(|byte| is_printable(*byte))
}

/// A text padded right with spaces to `N` bytes. Takes no memory.
///
/// Source: OUCH 4.2, "Data Types", alpha: left-justified, padded on the right with spaces.
pub fn padded<const N: usize>(text: &[u8]) -> [u8; N]
    requires { length text.now ≤ N }
    ensures bytes { result ≡ text.now ++ replicate (N - length text.now) 32 }
    ensures printable { ArePrintable text.now → ArePrintable result }
{
    let mut out = [b' '; N];
    out[..text.len()].copy_from_slice(text);
    out
}

/// Whether a byte may stand in a symbol or a name: 33 to 126, an ASCII character that is seen.
pub fn is_visible(byte: u8) -> bool
    ensures { result ≡ printable.is_visible byte }
{
    byte >= 33 && byte <= 126
}

/// Whether each byte of a text may stand in a symbol or a name.
pub fn are_visible(text: &[u8]) -> bool
    ensures visible { result ≡ list_all printable.is_visible text.now }
    ensures printable { IsTrue result → ArePrintable text.now }
{
    all_visible(text)
}

fn all_visible(text: &[u8]) -> bool
    ensures { result ≡ list_all printable.is_visible text.now }
{
    text.iter().all(|byte| is_visible(*byte))
}
