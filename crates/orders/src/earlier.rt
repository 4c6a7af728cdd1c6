//! The tokens that an order had.

ghost use Rattle.std.specs.Prelude.{◌≡◌, ◌<◌, ◌++◌, ◌∷◌, [], bytes_eq, vec_len, vec_capacity};
ghost use Rattle.std.specs.List.{list_any};

use wire_bytes::is_same_token;

/// Adds a token, where there is room for it.
pub fn push_earlier(tokens: &mut Vec<[u8; 14]>, token: [u8; 14])
    requires { vec_len tokens.old < vec_capacity tokens.old }
    ensures { tokens.new.items ≡ tokens.old.items ++ token ∷ [] }
{
    let _ = tokens.push(token);
}

/// Whether a token is one of these.
pub fn is_among(tokens: &[[u8; 14]], token: &[u8; 14]) -> bool
    ensures { result ≡ list_any (bytes_eq token.now) tokens.now }
{
    tokens.iter().any(|other| is_same_token(token, other))
}
