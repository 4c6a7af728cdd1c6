//! A port with the text of a token, as one key.

ghost use Rattle.std.specs.Prelude.{◌≡◌, ◌++◌, ◌∷◌, []};
ghost use Rattle.std.specs.Hash as fed;
ghost use Rattle.std.specs.Cmp.Rules.{comparing};
ghost use Rattle.std.proofs.Common.{rules};
ghost use Rattle.tokens.specs.TokenKeys.{same_token_key, token_key};
ghost use Rattle.tokens.specs.TokenKeyLaws.{token-hash-alike};

use std::hash::{Hash, Hasher};
use wire_bytes::is_same_token;

/// The key of a port with the text of a token, which takes no memory. Equal ports and texts have equal keys.
#[derive(Clone, Copy)]
pub struct TokenKey {
    port: u16,
    text: [u8; 14],
}

impl TokenKey {
    /// The key of a port with the text of a token.
    pub fn of(port: u16, token: &[u8; 14]) -> TokenKey
        ensures { result ≡ token_key port token.now }
    {
        TokenKey { port, text: *token }
    }
}

impl PartialEq for TokenKey {
    ghost eq = { same_token_key };

    ghost laws = { Prim.search (comparing, rules) };

    fn eq(&self, other: &TokenKey) -> bool {
        self.port == other.port && is_same_token(&self.text, &other.text)
    }
}

impl Eq for TokenKey {
    ghost laws = { Prim.search (comparing, rules) };
}

impl Hash for TokenKey {
    ghost hash_input = { λ k. fed.u16 k.port ++ k.text ∷ [] };

    ghost respects_eq = { token-hash-alike };

    // All bytes in one write.
    fn hash<H: Hasher>(&self, state: &mut H) {
        self.port.hash(state);
        state.write(&self.text);
    }
}
