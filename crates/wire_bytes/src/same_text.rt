//! Whether two short texts are the same.

ghost use Rattle.std.specs.Prelude.{◌≡◌, bytes_eq};

/// Whether two short texts are the same, byte by byte: up to some twenty bytes that is sooner done than the general
/// `==` of slices. Takes no memory.
pub fn is_same_text(text: &[u8], other: &[u8]) -> bool
    ensures { result ≡ bytes_eq text.now other.now }
{
    if text.len() != other.len() {
        return false;
    }
    for place in 0..text.len() {
        if text[place] != other[place] {
            return false;
        }
    }
    true
}
