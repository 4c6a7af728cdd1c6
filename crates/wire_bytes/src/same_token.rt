//! Whether two tokens are the same.

ghost use Rattle.std.specs.Prelude.{◌≡◌, bytes_eq, length};
ghost use Rattle.std.specs.Int.{from_le_bytes, to_le_bytes, w64};

/// Whether the bytes of two tokens are the same. They are compared as numbers of eight bytes, two of them in both: the
/// general `==` of arrays takes five times as long. Takes no memory.
pub fn is_same_token(token: &[u8; 14], other: &[u8; 14]) -> bool
    ensures { result ≡ bytes_eq token.now other.now }
{
    word_of(&token[..8]) == word_of(&other[..8]) && word_of(&token[6..14]) == word_of(&other[6..14])
}

/// Eight bytes as one number, the first the lowest.
fn word_of(bytes: &[u8]) -> u64
    requires { length bytes.now ≡ 8 }
    ensures word { result ≡ from_le_bytes w64 bytes.now }
    ensures bytes { to_le_bytes w64 result ≡ bytes.now }
{
    u64::from_le_bytes([
        bytes[0], bytes[1], bytes[2], bytes[3], bytes[4], bytes[5], bytes[6], bytes[7],
    ])
}
