//! A number with a text, as one key.

ghost use Rattle.std.specs.Prelude.{◌≡◌, ◌≤◌, ◌+◌, ◌-◌, ◌++◌, ◌∷◌, [], length, take, drop, replicate};
ghost use Rattle.std.specs.Hash as fed;
ghost use Rattle.undo_index.specs.TextKeys.{text_key, whole_words};
ghost use Rattle.undo_index.specs.KeyLaws.{hash-alike};

use std::hash::{Hash, Hasher};

/// The key of a number with a text of up to 64 bytes: an array with its length, so that it takes no memory.
///
/// Of a longer text the first 64 bytes count. Equal numbers and texts have equal keys. Hashed are the number and the
/// text, both in whole words of eight bytes, since a hasher takes a byte that is alone as dearly as a word.
#[derive(Clone, Copy, PartialEq, Eq)]
pub struct TextKey {
    number: u16,
    len: u8,
    bytes: [u8; 64],
}

impl TextKey {
    /// The key of a number with a text.
    pub fn of(number: u16, text: &[u8]) -> TextKey
        ensures { result ≡ text_key number text.now }
    {
        let head = head(text);
        TextKey {
            number,
            len: head.len() as u8,
            bytes: padded(head),
        }
    }
}

/// The first 64 bytes of a text, or all of it.
fn head(text: &[u8]) -> &[u8]
    ensures head { result.now ≡ take 64 text.now }
    ensures short { length result.now ≤ 64 }
{
    if text.len() <= 64 { text } else { &text[..64] }
}

/// The bytes of a text with zeros behind them.
fn padded(text: &[u8]) -> [u8; 64]
    requires { length text.now ≤ 64 }
    ensures { result ≡ text.now ++ replicate (64 - length text.now) 0 }
{
    let mut bytes = [0; 64];
    bytes[..text.len()].copy_from_slice(text);
    bytes
}

impl Hash for TextKey {
    ghost hash_input = { λ k. fed.u64 k.number ++ take (whole_words k.len) k.bytes ∷ [] };

    ghost respects_eq = { hash-alike };

    // The text in one write.
    fn hash<H: Hasher>(&self, state: &mut H) {
        u64::from(self.number).hash(state);
        state.write(&self.bytes[..whole_words(self.len)]);
    }
}

/// In how many bytes so many lie in whole words, 64 at most.
fn whole_words(len: u8) -> usize
    ensures size { result ≡ whole_words len }
    ensures inside { result ≤ 64 }
{
    (usize::from(len).min(57) + 7) / 8 * 8
}
